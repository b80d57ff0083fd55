// Reads a network's text.
ghost use Rattle.std.specs.Prelude.{◌≡◌, ◌+◌, ◌<◌, ◌^◌, [], List, ℕ, length, codes, true, IfErr, IfOk, Ok, if◌then◌else◌};
ghost use Rattle.text_words.specs.Lines.{lines_from, lines_of, words_of};
ghost use Rattle.text_words.specs.Names.{is_name};
ghost use Rattle.net_model.specs.Wires.{NetData, no_net, with_axis, with_out, with_table, with_wire};
ghost use Rattle.net_model.specs.Validity.{IsValid};
ghost use Rattle.net_model.specs.Drafts.{data_of};
ghost use Rattle.text_words.specs.Readers.{at_line, behind_line, head_below, read_below, said_by};
ghost use Rattle.net_text.specs.declared.keyword.Defined.TheVariants.{Wires};
ghost use Rattle.net_text.specs.Forms.{HasPlace};
ghost use Rattle.net_text.specs.Names.{AreFew, AreFirst, names_below, names_of};
ghost use Rattle.net_text.specs.Text.{GivesDraft, Reads, after_definition, after_out, net_reader, network_of, sources_tested, tested_behind, with_content, with_ends};

use crate::content::{Content, defining_line};
use crate::line_forms::{WireContent, out_line};
use crate::list_forms::LineFault;
use crate::names::{Above, Names, line_naming};
use ifx_curves::Table;
use ifx_search::Axis;
use net_model::{
    Draft, Name, NameFault, NetKind, Network, Wire, WireNo, first_unsourced, has_ends,
};
use std::alloc::Global;
use text_words::{behind_head, count_words, is_literal, next_line, without_mark, word_at};

/// A fault of a network's text: the number of its line, from 1, and what is wrong there.
#[derive(Clone, Copy, Debug, PartialEq, Eq)]
pub struct NetFault {
    pub line: u32,
    pub kind: NetKind,
}

/// Why a text gives no network.
#[derive(Clone, Copy, Debug, PartialEq, Eq)]
pub enum NetError {
    /// The first fault of the text.
    Fault(NetFault),
    OutOfMemory,
}

/// The network that the text says, or its first fault: the lines are tested from the first on, and each
/// line in the order of `NetKind`.
pub fn read_net(alloc: Global, text: &[u8]) -> Result<Network, NetError>
    requires { length text.now < 2 ^ 32 }
    ensures { Reads text.now result }
{
    match read_draft(alloc, text) {
        Ok(draft) => build(alloc, draft),
        Err(fault) => Err(fault),
    }
}

/// Whatever a text says is valid: reading makes each test that a network has to pass.
pub fn law_of_reading()
    ensures { (text : List ℕ) → (net : NetData) → network_of text ≡ Ok net → IsValid net }
{}

// The network of a valid draft.
fn build(alloc: Global, draft: Draft) -> Result<Network, NetError>
    requires { IsValid (data_of draft) }
    ensures made { IfOk result (λ net. net ≡ data_of draft) }
    ensures fails { IfErr result (λ fault. fault ≡ NetError.OutOfMemory) }
{
    match Network::of_valid(alloc, draft) {
        Ok(net) => Ok(net),
        Err(_) => Err(NetError::OutOfMemory),
    }
}

#[tactic(auto, unfolding(crate::specs::Text::network_of))]
fn read_draft(alloc: Global, text: &[u8]) -> Result<Draft, NetError>
    requires { length text.now < 2 ^ 32 }
    ensures { GivesDraft (network_of text.now) result }
{
    match read_said(alloc, text) {
        Ok(draft) => behind_lines(text, draft),
        Err(fault) => Err(fault),
    }
}

// What the lines say.
#[tactic(auto, unfolding(text_words::specs::Readers::said_by))]
fn read_said(alloc: Global, text: &[u8]) -> Result<Draft, NetError>
    requires { length text.now < 2 ^ 32 }
    ensures { GivesDraft (said_by (net_reader (lines_of text.now)) text.now) result }
{
    match behind_head(b"net", text) {
        Ok((head, lines)) => read_below_head(alloc, text, head, lines),
        Err(line) => Err(fault_at(line, NetKind::NoHead)),
    }
}

// The draft, if it passes the tests behind all lines.
#[tactic(auto, unfolding(crate::specs::Text::tested_behind))]
fn behind_lines(text: &[u8], draft: Draft) -> Result<Draft, NetError>
    requires { length text.now < 2 ^ 32 }
    ensures { GivesDraft (tested_behind (lines_of text.now) (data_of draft)) result }
{
    match check_sources(text, &draft.wires) {
        Ok(()) => with_ends(text, draft),
        Err(fault) => Err(NetError::Fault(fault)),
    }
}

// The sources of delays: the line of a delay is looked for only where its source has a fault.
fn check_sources(text: &[u8], wires: &[Wire]) -> Result<(), NetFault>
    requires { length text.now < 2 ^ 32 }
    ensures { result ≡ sources_tested (lines_of text.now) wires.now }
{
    match first_unsourced(wires) {
        Some(delay) => Err(NetFault {
            line: line_naming(text, wires[delay].name.bytes()),
            kind: NetKind::TypeDiffers,
        }),
        None => Ok(()),
    }
}

// The draft, if it has an input and an output.
fn with_ends(text: &[u8], draft: Draft) -> Result<Draft, NetError>
    requires { length text.now < 2 ^ 32 }
    ensures { GivesDraft (with_ends (lines_of text.now) (data_of draft)) result }
{
    if has_ends(&draft.wires, &draft.outs) {
        Ok(draft)
    } else {
        Err(fault_at(count_lines(text), NetKind::Missing))
    }
}

// How many lines a text has.
#[tactic(auto, using(crate::proofs::LinesCounted::count_steps))]
fn count_lines(text: &[u8]) -> u32
    requires { length text.now < 2 ^ 32 }
    ensures { result ≡ length (lines_of text.now) }
{
    let mut count = 0;
    let mut left = without_mark(text);
    while let Some((_, rest)) = next_line(left) {
        count += 1;
        left = rest;
    }
    count
}

// The lines below the head, once the names that the text defines are found.
fn read_below_head<'a>(
    alloc: Global,
    text: &'a [u8],
    head: u32,
    lines: &[u8],
) -> Result<Draft, NetError>
    requires below { head_below (codes "net") 0 (lines_of text.now) ≡ Ok (record { line = head; below = lines_from lines.now }) }
    requires few { head + length lines.now < 2 ^ 32 }
    requires short { length text.now < 2 ^ 32 }
    ensures { GivesDraft (read_below (net_reader (lines_of text.now)) head no_net (lines_from lines.now)) result }
{
    match Names::of(alloc, text) {
        Ok(names) => read_lines(alloc, &names, head, lines),
        Err(_) => Err(NetError::OutOfMemory),
    }
}

// The lines below the head.
#[tactic(auto, unfolding(text_words::specs::Readers::read_below, text_words::specs::Readers::behind_all))]
fn read_lines(alloc: Global, names: &Names, head: u32, lines: &[u8]) -> Result<Draft, NetError>
    requires few { head + length lines.now < 2 ^ 32 }
    requires below { names_below Wires [] (lines_from lines.now) ≡ names_of Wires names.now }
    ensures { GivesDraft (read_below (net_reader names.now) head no_net (lines_from lines.now)) result }
{
    let mut draft = Draft {
        axes: Vec::new(alloc),
        tables: Vec::new(alloc),
        wires: Vec::new(alloc),
        outs: Vec::new(alloc),
    };
    let mut left = lines;
    let mut above = head;
    while let Some((line, rest)) = next_line(left) {
        above += 1;
        draft = behind_line(alloc, names, draft, above, line)?;
        left = rest;
    }
    Ok(draft)
}

#[tactic(auto, unfolding(text_words::specs::Readers::behind_line, crate::specs::Text::after_line))]
fn behind_line(
    alloc: Global,
    names: &Names,
    draft: Draft,
    number: u32,
    line: &[u8],
) -> Result<Draft, NetError>
    requires few { AreFew (data_of draft) }
    requires first { AreFirst draft.wires.items (names_of Wires names.now) }
    ensures value { GivesDraft (at_line (net_reader names.now) number (behind_line (net_reader names.now) (data_of draft) (words_of line.now))) result }
    ensures few { IfOk result (λ next. AreFew (data_of next)) }
{
    if count_words(line) == 0 {
        return Ok(draft);
    }
    if is_literal(word_at(line, 0), b"out") {
        return after_out(names, draft, number, line);
    }
    after_definition(alloc, names, draft, number, line)
}

#[tactic(auto, unfolding(crate::specs::Text::after_out))]
fn after_out(names: &Names, draft: Draft, number: u32, line: &[u8]) -> Result<Draft, NetError>
    requires few { AreFew (data_of draft) }
    requires first { AreFirst draft.wires.items (names_of Wires names.now) }
    ensures value { GivesDraft (at_line (net_reader names.now) number (after_out names.now (data_of draft) (words_of line.now))) result }
    ensures few { IfOk result (λ next. AreFew (data_of next)) }
{
    match out_line(&Above::new(names, &draft), line) {
        Ok(out) => with_out(draft, out),
        Err(kind) => Err(fault_at(number, kind)),
    }
}

#[tactic(auto, unfolding(crate::specs::Text::after_definition))]
fn after_definition(
    alloc: Global,
    names: &Names,
    draft: Draft,
    number: u32,
    line: &[u8],
) -> Result<Draft, NetError>
    requires few { AreFew (data_of draft) }
    requires first { AreFirst draft.wires.items (names_of Wires names.now) }
    ensures value { GivesDraft (at_line (net_reader names.now) number (after_definition names.now (data_of draft) (words_of line.now))) result }
    ensures few { IfOk result (λ next. AreFew (data_of next)) }
{
    match defining_line(alloc, &Above::new(names, &draft), line) {
        Ok(content) => with_content(alloc, draft, word_at(line, 1), content),
        Err(LineFault::OfKind(kind)) => Err(fault_at(number, kind)),
        Err(LineFault::OutOfMemory) => Err(NetError::OutOfMemory),
    }
}

fn with_out(mut draft: Draft, out: WireNo) -> Result<Draft, NetError>
    ensures added { IfOk result (λ next. data_of next ≡ with_out (data_of draft) out) }
    ensures fails { IfErr result (λ fault. fault ≡ NetError.OutOfMemory) }
{
    match draft.outs.push(out) {
        Ok(()) => Ok(draft),
        Err(_) => Err(NetError::OutOfMemory),
    }
}

// One more wire, axis or table.
fn with_content(
    alloc: Global,
    draft: Draft,
    name: &[u8],
    content: Content,
) -> Result<Draft, NetError>
    requires name { is_name name.now ≡ true }
    requires few { AreFew (data_of draft) }
    requires place { HasPlace (data_of draft) content }
    ensures added { IfOk result (λ next. data_of next ≡ with_content (data_of draft) name.now content) }
    ensures few { IfOk result (λ next. AreFew (data_of next)) }
    ensures fails { IfErr result (λ fault. fault ≡ NetError.OutOfMemory) }
{
    let name = named(alloc, name)?;
    match content {
        Content::OfWire(content) => with_wire(draft, name, content),
        Content::OfAxis(axis) => with_axis(draft, name, axis),
        Content::OfTable(table) => with_table(draft, name, table),
    }
}

fn with_wire(mut draft: Draft, name: Name, content: WireContent) -> Result<Draft, NetError>
    ensures added { IfOk result (λ next. data_of next ≡ with_wire (data_of draft) (record { name = name; kind = content.kind; item = content.item })) }
    ensures fails { IfErr result (λ fault. fault ≡ NetError.OutOfMemory) }
{
    let wire = Wire {
        name,
        kind: content.kind,
        item: content.item,
    };
    match draft.wires.push(wire) {
        Ok(()) => Ok(draft),
        Err(_) => Err(NetError::OutOfMemory),
    }
}

fn with_axis(mut draft: Draft, name: Name, axis: Axis) -> Result<Draft, NetError>
    ensures added { IfOk result (λ next. data_of next ≡ with_axis (data_of draft) (name, axis)) }
    ensures fails { IfErr result (λ fault. fault ≡ NetError.OutOfMemory) }
{
    match draft.axes.push((name, axis)) {
        Ok(()) => Ok(draft),
        Err(_) => Err(NetError::OutOfMemory),
    }
}

fn with_table(mut draft: Draft, name: Name, table: Table) -> Result<Draft, NetError>
    ensures added { IfOk result (λ next. data_of next ≡ with_table (data_of draft) (name, table)) }
    ensures fails { IfErr result (λ fault. fault ≡ NetError.OutOfMemory) }
{
    match draft.tables.push((name, table)) {
        Ok(()) => Ok(draft),
        Err(_) => Err(NetError::OutOfMemory),
    }
}

fn named(alloc: Global, bytes: &[u8]) -> Result<Name, NetError>
    requires { is_name bytes.now ≡ true }
    ensures named { IfOk result (λ name. name ≡ bytes.now) }
    ensures fails { IfErr result (λ fault. fault ≡ NetError.OutOfMemory) }
{
    match Name::new(alloc, bytes) {
        Ok(name) => Ok(name),
        Err(NameFault::OutOfMemory) => Err(NetError::OutOfMemory),
        Err(NameFault::BadName) => unreachable!(),
    }
}

fn fault_at(line: u32, kind: NetKind) -> NetError
    ensures { result ≡ NetError.Fault (record { line = line; kind = kind }) }
{
    NetError::Fault(NetFault { line, kind })
}
