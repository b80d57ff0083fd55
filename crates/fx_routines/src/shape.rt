// What stands behind the front of a routine's names.

ghost use Rattle.std.specs.Prelude.{◌≡◌};
ghost use Rattle.fx_routines.specs.Shapes.{parts_in};

/// A class of types.
#[derive(Clone, Copy)]
pub enum Class {
    /// Any type.
    Any,
    /// At most 16 bits.
    Narrow,
    /// Unsigned.
    Unsigned,
    /// Signed.
    Signed,
    /// The width of the first input.
    SameWidth,
}

/// What stands at one place of a name, behind its front.
#[derive(Clone, Copy)]
pub enum Part {
    /// The type of the first input.
    First(Class),
    /// The type of the second input.
    Second(Class),
    /// The type of the output.
    Output(Class),
    /// The type of the first input again.
    FirstAgain,
    /// The type of the second input again.
    SecondAgain,
    /// The word `u8`.
    U8,
    /// The word `s8`.
    S8,
    /// The word `bool`.
    Bool,
    /// An underscore.
    Underscore,
}

/// The shape of a routine's names: which parts stand behind the front.
#[derive(Clone, Copy)]
pub(crate) enum Shape {
    /// `T`: one type for all.
    OneType,
    /// `X_O`: one input and any output.
    OneInput,
    /// `XY_O`: two inputs of one width and any output.
    Pair,
    /// `XYY_O`: the same with a third input of the second's type.
    PairAndThird,
    /// `XYu8_O`: the same with a shift.
    PairAndShift,
    /// `T_T`, on unsigned words.
    Bits,
    /// `T_bool`, on unsigned words.
    BitsToBool,
    /// `Tu8_T`, on unsigned words.
    BitsPlace,
    /// `Tu8_bool`, on unsigned words.
    BitsPlaceToBool,
    /// `Tu8bool_T`, on unsigned words.
    BitsPlaceBool,
    /// `Tu8u8_T`, on unsigned words.
    BitsRange,
    /// `Tu8u8bool_T`, on unsigned words.
    BitsRangeBool,
    /// `Tu8u8T_T`, on unsigned words.
    BitsRangeBits,
    /// `Tu8Tu8_T`, on unsigned words.
    BitsPlaceTwice,
    /// `TT_T`, on unsigned words.
    BitsMask,
    /// `TT_bool`, on unsigned words.
    BitsMaskToBool,
    /// `TTT_T`, on unsigned words.
    BitsBitsMask,
    /// `Ts8_T`, on signed words.
    SignedCount,
    /// `V`, of at most 16 bits.
    Narrow,
    /// `X_V`, both of at most 16 bits.
    NarrowInput,
    /// `XY_V`, each of at most 16 bits; the inputs may have two widths.
    NarrowInputs,
    /// `X_bool`.
    InputToBool,
    /// `bool_bool`: no type is chosen.
    BoolToBool,
}

const ONE_TYPE: &[Part] = &[Part::First(Class::Any)];

const ONE_INPUT: &[Part] = &[
    Part::First(Class::Any),
    Part::Underscore,
    Part::Output(Class::Any),
];

const PAIR: &[Part] = &[
    Part::First(Class::Any),
    Part::Second(Class::SameWidth),
    Part::Underscore,
    Part::Output(Class::Any),
];

const PAIR_AND_THIRD: &[Part] = &[
    Part::First(Class::Any),
    Part::Second(Class::SameWidth),
    Part::SecondAgain,
    Part::Underscore,
    Part::Output(Class::Any),
];

const PAIR_AND_SHIFT: &[Part] = &[
    Part::First(Class::Any),
    Part::Second(Class::SameWidth),
    Part::U8,
    Part::Underscore,
    Part::Output(Class::Any),
];

const BITS: &[Part] = &[
    Part::First(Class::Unsigned),
    Part::Underscore,
    Part::FirstAgain,
];

const BITS_TO_BOOL: &[Part] = &[Part::First(Class::Unsigned), Part::Underscore, Part::Bool];

const BITS_PLACE: &[Part] = &[
    Part::First(Class::Unsigned),
    Part::U8,
    Part::Underscore,
    Part::FirstAgain,
];

const BITS_PLACE_TO_BOOL: &[Part] = &[
    Part::First(Class::Unsigned),
    Part::U8,
    Part::Underscore,
    Part::Bool,
];

const BITS_PLACE_BOOL: &[Part] = &[
    Part::First(Class::Unsigned),
    Part::U8,
    Part::Bool,
    Part::Underscore,
    Part::FirstAgain,
];

const BITS_RANGE: &[Part] = &[
    Part::First(Class::Unsigned),
    Part::U8,
    Part::U8,
    Part::Underscore,
    Part::FirstAgain,
];

const BITS_RANGE_BOOL: &[Part] = &[
    Part::First(Class::Unsigned),
    Part::U8,
    Part::U8,
    Part::Bool,
    Part::Underscore,
    Part::FirstAgain,
];

const BITS_RANGE_BITS: &[Part] = &[
    Part::First(Class::Unsigned),
    Part::U8,
    Part::U8,
    Part::FirstAgain,
    Part::Underscore,
    Part::FirstAgain,
];

const BITS_PLACE_TWICE: &[Part] = &[
    Part::First(Class::Unsigned),
    Part::U8,
    Part::FirstAgain,
    Part::U8,
    Part::Underscore,
    Part::FirstAgain,
];

const BITS_MASK: &[Part] = &[
    Part::First(Class::Unsigned),
    Part::FirstAgain,
    Part::Underscore,
    Part::FirstAgain,
];

const BITS_MASK_TO_BOOL: &[Part] = &[
    Part::First(Class::Unsigned),
    Part::FirstAgain,
    Part::Underscore,
    Part::Bool,
];

const BITS_BITS_MASK: &[Part] = &[
    Part::First(Class::Unsigned),
    Part::FirstAgain,
    Part::FirstAgain,
    Part::Underscore,
    Part::FirstAgain,
];

const SIGNED_COUNT: &[Part] = &[
    Part::First(Class::Signed),
    Part::S8,
    Part::Underscore,
    Part::FirstAgain,
];

const NARROW: &[Part] = &[Part::First(Class::Narrow)];

const NARROW_INPUT: &[Part] = &[
    Part::First(Class::Narrow),
    Part::Underscore,
    Part::Output(Class::Narrow),
];

const NARROW_INPUTS: &[Part] = &[
    Part::First(Class::Narrow),
    Part::Second(Class::Narrow),
    Part::Underscore,
    Part::Output(Class::Narrow),
];

const INPUT_TO_BOOL: &[Part] = &[Part::First(Class::Any), Part::Underscore, Part::Bool];

const BOOL_TO_BOOL: &[Part] = &[Part::Bool, Part::Underscore, Part::Bool];

/// The parts of a shape, from the left.
pub(crate) fn parts_in(shape: Shape) -> &'static [Part]
    ensures { result.now ≡ parts_in shape }
{
    match shape {
        Shape::OneType => ONE_TYPE,
        Shape::OneInput => ONE_INPUT,
        Shape::Pair => PAIR,
        Shape::PairAndThird => PAIR_AND_THIRD,
        Shape::PairAndShift => PAIR_AND_SHIFT,
        Shape::Bits => BITS,
        Shape::BitsToBool => BITS_TO_BOOL,
        Shape::BitsPlace => BITS_PLACE,
        Shape::BitsPlaceToBool => BITS_PLACE_TO_BOOL,
        Shape::BitsPlaceBool => BITS_PLACE_BOOL,
        Shape::BitsRange => BITS_RANGE,
        Shape::BitsRangeBool => BITS_RANGE_BOOL,
        Shape::BitsRangeBits => BITS_RANGE_BITS,
        Shape::BitsPlaceTwice => BITS_PLACE_TWICE,
        Shape::BitsMask => BITS_MASK,
        Shape::BitsMaskToBool => BITS_MASK_TO_BOOL,
        Shape::BitsBitsMask => BITS_BITS_MASK,
        Shape::SignedCount => SIGNED_COUNT,
        Shape::Narrow => NARROW,
        Shape::NarrowInput => NARROW_INPUT,
        Shape::NarrowInputs => NARROW_INPUTS,
        Shape::InputToBool => INPUT_TO_BOOL,
        Shape::BoolToBool => BOOL_TO_BOOL,
    }
}
