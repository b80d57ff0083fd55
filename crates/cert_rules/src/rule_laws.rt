ghost use Rattle.cert_rules.specs.Soundness.{RulesAreSound};

/// Does nothing: its clause is that the rule of each part of a valid network is sound, from entries that are
/// allowed. Where all that the rule reads is within its entries and the rule gives bounds, no divisor is zero,
/// and what the part's equation gives in the machine, before saturation, lies in the bounds' range and within
/// their error of what it gives in exact fractions.
pub fn law_of_rules()
    ensures { RulesAreSound }
{}
