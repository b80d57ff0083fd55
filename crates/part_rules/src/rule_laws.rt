ghost use Rattle.part_rules.specs.PartRules.{DependOnReads};

/// Does nothing: its clause is that a rule depends on the bounds of what it reads alone.
pub fn law_of_reading()
    ensures { DependOnReads }
{}
