ghost use Rattle.mfx_rules.specs.ScaledSoundness.{ScaledRulesAreSound};

/// Does nothing: its clause is that the rule of each form with binary points is sound. Where the form's
/// divisor may not be zero and its arguments are within their bounds, no divisor is zero, and the
/// rounded value lies in the rule's range and within the rule's error of the exact value.
pub fn law_of_scaled_rules()
    ensures { ScaledRulesAreSound }
{}
