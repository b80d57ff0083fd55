ghost use Rattle.ifx_rules.specs.KeptRules.{CurvesKeepRules, CurvesOverKeepRules, MapsKeepRules, MapsOverKeepRules, PositionsKeepRules};

/// Does nothing: its clause is that positions on an axis keep their rule, which is sound and monotone.
/// The range takes all points inside the argument's range as corners beside its ends, and the error is
/// the argument's over the least distance of neighbours, in 1/65536 of a position's raw count.
pub fn law_of_positions()
    ensures { PositionsKeepRules }
{}

/// Does nothing: its clause is that curves keep their rule. The error rests on the greatest step from a
/// value to the next.
pub fn law_of_curves()
    ensures { CurvesKeepRules }
{}

/// Does nothing: its clause is that curves over an axis keep their rule. The error rests on the steepest
/// slope, since the position between the two isn't rounded.
pub fn law_of_curves_over_axes()
    ensures { CurvesOverKeepRules }
{}

/// Does nothing: its clause is that maps keep their rule. The range takes the corners of both positions'
/// ranges together, and the error rests on the greatest step in each direction.
pub fn law_of_maps()
    ensures { MapsKeepRules }
{}

/// Does nothing: its clause is that maps over two axes keep their rule. The error rests on the steepest
/// slope in each direction, since the positions between aren't rounded.
pub fn law_of_maps_over_axes()
    ensures { MapsOverKeepRules }
{}
