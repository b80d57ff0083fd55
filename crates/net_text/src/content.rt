// What a line that defines a name gives, by the line's keyword.
ghost use Rattle.std.specs.Prelude.{◌≡◌};
ghost use Rattle.text_words.specs.Lines.{words_of};
ghost use Rattle.net_text.specs.Forms.{GivesLine, as_axis, as_table, as_wire, axis_line, defining_line, line_of, table_line};

use crate::keyword::{Keyword, keyword_of};
use crate::line_forms::{WireContent, const_line, delay_line, in_line, map_line, wire_line};
use crate::list_forms::{LineFault, axis_line, axisshift_line, axisstep_line, table_line};
use crate::names::Above;
use ifx_curves::Table;
use ifx_search::Axis;
use net_model::NetKind;
use std::alloc::Global;
use text_words::word_at;

/// What a line gives besides the name: a wire, an axis or a table.
#[derive(Drop)]
pub enum Content {
    OfWire(WireContent),
    OfAxis(Axis),
    OfTable(Table),
}

/// What a line gives that defines a name, by the line's keyword.
#[tactic(auto, unfolding(crate::specs::Forms::defining_line))]
pub fn defining_line(alloc: Global, above: &Above, line: &[u8]) -> Result<Content, LineFault>
    ensures { GivesLine (defining_line above.now.lines above.now.net (words_of line.now)) result }
{
    match keyword_of(word_at(line, 0)) {
        Some(keyword) => line_of(alloc, keyword, above, line),
        None => Err(LineFault::OfKind(NetKind::BadLine)),
    }
}

#[tactic(auto, unfolding(crate::specs::Forms::line_of))]
fn line_of(
    alloc: Global,
    keyword: Keyword,
    above: &Above,
    line: &[u8],
) -> Result<Content, LineFault>
    ensures { GivesLine (line_of keyword above.now.lines above.now.net (words_of line.now)) result }
{
    match keyword {
        Keyword::InLine => as_wire(in_line(above, line)),
        Keyword::ConstLine => as_wire(const_line(above, line)),
        Keyword::AxisLine => axis_content(alloc, above, line),
        Keyword::AxisStepLine => as_steps(axisstep_line(above, line)),
        Keyword::AxisShiftLine => as_steps(axisshift_line(above, line)),
        Keyword::TableLine => table_content(alloc, above, line),
        Keyword::MapLine => Err(LineFault::OfKind(map_line(above, line))),
        Keyword::WireLine => as_wire(wire_line(above, line)),
        Keyword::DelayLine => as_wire(delay_line(above, line)),
    }
}

fn as_wire(made: Result<WireContent, NetKind>) -> Result<Content, LineFault>
    ensures { GivesLine (as_wire made) result }
{
    match made {
        Ok(content) => Ok(Content::OfWire(content)),
        Err(kind) => Err(LineFault::OfKind(kind)),
    }
}

fn as_steps(made: Result<Axis, NetKind>) -> Result<Content, LineFault>
    ensures { GivesLine (as_axis made) result }
{
    match made {
        Ok(axis) => Ok(Content::OfAxis(axis)),
        Err(kind) => Err(LineFault::OfKind(kind)),
    }
}

fn axis_content(alloc: Global, above: &Above, line: &[u8]) -> Result<Content, LineFault>
    ensures { GivesLine (as_axis (axis_line above.now.net (words_of line.now))) result }
{
    match axis_line(alloc, above, line) {
        Ok(axis) => Ok(Content::OfAxis(axis)),
        Err(fault) => Err(fault),
    }
}

fn table_content(alloc: Global, above: &Above, line: &[u8]) -> Result<Content, LineFault>
    ensures { GivesLine (as_table (table_line above.now.net (words_of line.now))) result }
{
    match table_line(alloc, above, line) {
        Ok(table) => Ok(Content::OfTable(table)),
        Err(fault) => Err(fault),
    }
}
