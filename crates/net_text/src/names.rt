// The names that the lines of a text define, found in one pass, and what is known above a line.
ghost use Rattle.std.specs.Prelude.{◌≡◌, ◌<◌, ◌^◌, ◌&&◌, IfOk, IfSome, length, map, bytes_eq};
ghost use Rattle.text_words.specs.Lines.{lines_of, nth, words_of};
ghost use Rattle.net_text.specs.Names.{axis_place, defines, is_defining, line_naming, names_of, table_place};

use crate::keyword::{Defined, begins, keyword_of};
use ifx_curves::Table;
use ifx_search::Axis;
use indexmap::IndexSet;
use net_model::{Draft, Name, WireNo};
use std::alloc::{AllocError, Global};
use std::marker::Model;
use text_words::{is_literal, next_line, without_mark, word_at};

// A number that no wire has.
const NO_NUMBER: u32 = u32::MAX;

/// The names that the lines of a text define: those of wires, numbered in the order of the lines, and those
/// of axes, tables and maps; seen as the lines.
#[derive(Drop)]
pub struct Names<'a> {
    text: &'a [u8],
    wires: IndexSet<&'a [u8]>,
    lists: IndexSet<&'a [u8]>,
}

impl<'a> Model for Names<'a> {
    ghost use Rattle.std.specs.Prelude.{◌≡◌, ◌<◌, ◌^◌, ℕ, List, length, map};
    ghost use Rattle.text_words.specs.Lines.{lines_of};
    ghost use Rattle.net_text.specs.declared.keyword.Defined.TheVariants.{Wires, Lists};
    ghost use Rattle.net_text.specs.Names.{names_of};

    ghost Value = { List (List ℕ) };

    ghost view = { λ n. lines_of n.text.now };

    ghost invariant = { λ n. (map (λ k. k.now) n.wires.keys ≡ names_of Wires (lines_of n.text.now))
        × (length n.wires.keys < 2 ^ 32)
        × (map (λ k. k.now) n.lists.keys ≡ names_of Lists (lines_of n.text.now)) };
}

impl<'a> Names<'a> {
    ghost use Rattle.std.specs.Prelude.{◌≡◌, ◌<◌, ◌^◌, IfOk, IfSome, length};
    ghost use Rattle.text_words.specs.Lines.{lines_of};
    ghost use Rattle.net_text.specs.Names.{is_defined, number_named};

    /// The names of a text.
    pub fn of(alloc: Global, text: &'a [u8]) -> Result<Names<'a>, AllocError>
        requires { length text.now < 2 ^ 32 }
        ensures { IfOk result (λ names. names ≡ lines_of text.now) }
    {
        let wires = names_of(alloc, text, Defined::Wires)?;
        let lists = names_of(alloc, text, Defined::Lists)?;
        Ok(Names { text, wires, lists })
    }

    // How many names of wires the lines define before this one; None where no line of a wire defines it.
    fn number(&self, name: &[u8]) -> Option<usize>
        ensures value { result ≡ number_named self.now name.now }
        ensures few { IfSome result (λ number. number < 2 ^ 32) }
    {
        self.wires.get_index_of(name)
    }

    // Whether some line defines the name.
    fn has(&self, name: &[u8]) -> bool
        ensures { result ≡ is_defined self.now name.now }
    {
        self.wires.contains(name) || self.lists.contains(name)
    }
}

// The names of a sort that the lines of a text define, in their order.
#[tactic(auto, using(crate::proofs::LinesCounted::without_mark_within), unfolding(crate::specs::Names::names_below))]
fn names_of<'a>(
    alloc: Global,
    text: &'a [u8],
    sort: Defined,
) -> Result<IndexSet<&'a [u8]>, AllocError>
    requires { length text.now < 2 ^ 32 }
    ensures names { IfOk result (λ names. map (λ k. k.now) names.keys ≡ names_of sort (lines_of text.now)) }
    ensures few { IfOk result (λ names. length names.keys < 2 ^ 32) }
{
    let mut names = IndexSet::new(alloc);
    let mut left = without_mark(text);
    while let Some((line, rest)) = next_line(left) {
        if begins(sort, word_at(line, 0)) {
            names.insert(word_at(line, 1))?;
        }
        left = rest;
    }
    Ok(names)
}

fn is_defining(word: &[u8]) -> bool
    ensures { result ≡ is_defining word.now }
{
    keyword_of(word).is_some()
}

/// The number of the line of a text, from 1, that defines a name.
#[tactic(auto, using(crate::proofs::LinesCounted::without_mark_within))]
pub fn line_naming(text: &[u8], name: &[u8]) -> u32
    requires { length text.now < 2 ^ 32 }
    ensures { result ≡ line_naming (lines_of text.now) name.now }
{
    let mut above = 0;
    let mut left = without_mark(text);
    while let Some((line, rest)) = next_line(left) {
        above += 1;
        if defines(line, name) {
            return above;
        }
        left = rest;
    }
    above
}

fn defines(line: &[u8], name: &[u8]) -> bool
    ensures { result ≡ defines name.now (words_of line.now) }
{
    is_defining(word_at(line, 0)) && is_literal(word_at(line, 1), name)
}

/// What is known above a line: the names of the whole text, and what the lines above give.
#[derive(Drop)]
pub struct Above<'a> {
    names: &'a Names<'a>,
    draft: &'a Draft,
}

impl<'a> Model for Above<'a> {
    ghost use Rattle.net_model.specs.Drafts.{data_of};
    ghost use Rattle.net_text.specs.declared.keyword.Defined.TheVariants.{Wires};
    ghost use Rattle.net_text.specs.Names.{AreFew, AreFirst, SoFar, names_of};

    ghost Value = { SoFar };

    ghost view = { λ a. record { lines = a.names.now; net = data_of a.draft.now } };

    ghost invariant = { λ a. AreFirst a.draft.now.wires.items (names_of Wires a.names.now) × AreFew (data_of a.draft.now) };
}

impl<'a> Above<'a> {
    ghost use Rattle.std.specs.Prelude.{◌≡◌, ◌<◌, IfSome, length};
    ghost use Rattle.net_model.specs.Drafts.{data_of};
    ghost use Rattle.net_model.specs.Wires.{place_of};
    ghost use Rattle.net_text.specs.declared.keyword.Defined.TheVariants.{Wires};
    ghost use Rattle.net_text.specs.Forms.{is_above, is_known, is_wire, source_named};
    ghost use Rattle.net_text.specs.Names.{AreFew, AreFirst, axis_place, names_of, table_place};

    pub fn new(names: &'a Names<'a>, draft: &'a Draft) -> Above<'a>
        requires first { AreFirst draft.now.wires.items (names_of Wires names.now) }
        requires few { AreFew (data_of draft.now) }
        ensures { result ≡ record { lines = names.now; net = data_of draft.now } }
    {
        Above { names, draft }
    }

    /// What the lines above give.
    pub fn draft(&self) -> &Draft
        ensures { data_of result.now ≡ self.now.net }
    {
        self.draft
    }

    /// The number of the wire of a name, which a line above defines.
    pub fn place_of(&self, name: &[u8]) -> Option<u32>
        ensures { result ≡ place_of self.now.net.wires name.now }
    {
        let number = self.names.number(name)?;
        if number < self.draft.wires.len() {
            Some(number as u32)
        } else {
            None
        }
    }

    /// The number of the axis of a name, which a line above defines.
    pub fn axis_place(&self, name: &[u8]) -> Option<u32>
        ensures { result ≡ axis_place self.now.net.axes name.now }
    {
        let place = place_of_axis(&self.draft.axes, name)?;
        Some(place as u32)
    }

    /// The number of the table of a name, which a line above defines.
    pub fn table_place(&self, name: &[u8]) -> Option<u32>
        ensures { result ≡ table_place self.now.net.tables name.now }
    {
        let place = place_of_table(&self.draft.tables, name)?;
        Some(place as u32)
    }

    /// The source of a delay, by its name, on whichever line of the text it stands: the number of the wire,
    /// and one that no wire has where no line of a wire defines the name.
    #[tactic(auto, unfolding(crate::specs::Forms::source_named))]
    pub fn source_named(&self, name: &[u8]) -> WireNo
        ensures { result ≡ source_named self.now.lines name.now }
    {
        match self.names.number(name) {
            Some(number) => WireNo(number as u32),
            None => WireNo(NO_NUMBER),
        }
    }

    // Whether a line above defines a wire of the name.
    fn is_wire(&self, name: &[u8]) -> bool
        ensures { result ≡ is_wire self.now.net.wires name.now }
    {
        self.place_of(name).is_some()
    }

    /// Whether a line above defines the name.
    pub fn is_above(&self, name: &[u8]) -> bool
        ensures { result ≡ is_above self.now.net name.now }
    {
        self.is_wire(name) || self.axis_place(name).is_some() || self.table_place(name).is_some()
    }

    /// Whether some line of the text defines the name.
    #[tactic(auto, unfolding(crate::specs::Forms::is_known))]
    pub fn is_known(&self, name: &[u8]) -> bool
        ensures { result ≡ is_known self.now.lines self.now.net name.now }
    {
        self.is_above(name) || self.names.has(name)
    }
}

#[tactic(auto, unfolding(crate::specs::Names::axis_place))]
fn place_of_axis(axes: &[(Name, Axis)], name: &[u8]) -> Option<usize>
    ensures place { result ≡ axis_place axes.now name.now }
    ensures below { IfSome result (λ place. place < length axes.now) }
{
    axes.iter().position(|named| name == named.0.bytes())
}

#[tactic(auto, unfolding(crate::specs::Names::table_place))]
fn place_of_table(tables: &[(Name, Table)], name: &[u8]) -> Option<usize>
    ensures place { result ≡ table_place tables.now name.now }
    ensures below { IfSome result (λ place. place < length tables.now) }
{
    tables.iter().position(|named| name == named.0.bytes())
}
