// The keywords of lines that define a name.
ghost use Rattle.std.specs.Prelude.{◌≡◌};
ghost use Rattle.net_text.specs.Names.{begins, is_keyword, is_of_list, is_of_wire, keyword_of};

use text_words::is_literal;

/// The form of a line that defines its second word.
#[derive(Clone, Copy)]
pub enum Keyword {
    InLine,
    ConstLine,
    AxisLine,
    AxisStepLine,
    AxisShiftLine,
    TableLine,
    MapLine,
    WireLine,
    DelayLine,
}

/// The keyword that the word is; None for `net`, for `out` and for every other word.
#[tactic(auto, unfolding(crate::specs::Names::keyword_of))]
pub fn keyword_of(word: &[u8]) -> Option<Keyword>
    ensures { result ≡ keyword_of word.now }
{
    if is_literal(word, b"in") {
        return Some(Keyword::InLine);
    }
    if is_literal(word, b"const") {
        return Some(Keyword::ConstLine);
    }
    if is_literal(word, b"axis") {
        return Some(Keyword::AxisLine);
    }
    if is_literal(word, b"axisstep") {
        return Some(Keyword::AxisStepLine);
    }
    if is_literal(word, b"axisshift") {
        return Some(Keyword::AxisShiftLine);
    }
    if is_literal(word, b"table") {
        return Some(Keyword::TableLine);
    }
    if is_literal(word, b"map") {
        return Some(Keyword::MapLine);
    }
    if is_literal(word, b"wire") {
        return Some(Keyword::WireLine);
    }
    if is_literal(word, b"delay") {
        return Some(Keyword::DelayLine);
    }
    None
}

/// What a line defines: a wire, or else an axis, a table or a map.
#[derive(Clone, Copy)]
pub enum Defined {
    Wires,
    Lists,
}

/// Whether a line that begins with the word defines a name of this sort.
pub fn begins(sort: Defined, word: &[u8]) -> bool
    ensures { result ≡ begins sort word.now }
{
    is_keyword(sort, keyword_of(word))
}

fn is_keyword(sort: Defined, keyword: Option<Keyword>) -> bool
    ensures { result ≡ is_keyword sort keyword }
{
    match keyword {
        Some(keyword) => match sort {
            Defined::Wires => is_of_wire(keyword),
            Defined::Lists => is_of_list(keyword),
        },
        None => false,
    }
}

fn is_of_wire(keyword: Keyword) -> bool
    ensures { result ≡ is_of_wire keyword }
{
    matches!(
        keyword,
        Keyword::InLine | Keyword::ConstLine | Keyword::WireLine | Keyword::DelayLine
    )
}

fn is_of_list(keyword: Keyword) -> bool
    ensures { result ≡ is_of_list keyword }
{
    !is_of_wire(keyword)
}
