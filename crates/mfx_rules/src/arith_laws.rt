ghost use Rattle.mfx_rules.specs.ArithSoundness.{ArithRulesAreSound};

/// Does nothing: its clause is that the rule of each operation of arithmetic but the remainder is
/// sound. Where the operation's divisor may not be zero and its arguments are within their bounds,
/// no divisor is zero, and the rounded value lies in the rule's range and within the rule's error of
/// the exact value.
pub fn law_of_arith_rules()
    ensures { ArithRulesAreSound }
{}
