ghost use Rattle.mfx_rules.specs.OperationRules.{FormsKeepRules, OperationsKeepRules};

/// Does nothing: its clause is that each operation of arithmetic keeps its rule. Where the rule gives
/// bounds and all arguments are within theirs, no divisor is zero, and the rounded value is within what
/// the rule gives; and from narrower bounds it gives bounds inside of these. The remainder's rule gives
/// none.
pub fn law_of_arithmetic()
    ensures { OperationsKeepRules }
{}

/// Does nothing: its clause is that each form with binary points keeps its rule, in the same sense.
pub fn law_of_forms()
    ensures { FormsKeepRules }
{}
