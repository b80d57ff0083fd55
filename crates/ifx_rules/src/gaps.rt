// How near the points of an axis are to each other.

ghost use Rattle.std.specs.Prelude.{◌≡◌, ◌<◌, ◌≤◌, length, pos, suc};
ghost use Rattle.ifx_search.specs.Axes.{IsAxis};
ghost use Rattle.ifx_rules.specs.LookUpRules.{gap_at, gap_of};

use ifx_search::Axis;

/// The least distance from a point of the axis to the next, a raw count.
#[tactic(auto, using(crate::proofs::LeastGaps::least_of_more))]
pub fn least_gap(axis: &Axis) -> i64
    ensures gap { result ≡ pos (gap_of axis.now.points) }
    ensures some { 1 ≤ gap_of axis.now.points }
{
    let segments = axis.len() - 1;
    let mut least = gap(axis, 0);
    for i in 1..segments {
        least = least.min(gap(axis, i));
    }
    i64::from(least)
}

// The distance from point `i` to the next.
fn gap(axis: &Axis, i: u32) -> u32
    requires axis { IsAxis axis.now.ty axis.now.points }
    requires bound { suc i < length axis.now.points }
    ensures { result ≡ gap_at axis.now.points i }
{
    let low = axis.point(i);
    let high = axis.point(i + 1);
    high.abs_diff(low) as u32
}
