// Axes: breakpoints that rise strictly, listed or equally spaced.

ghost use Rattle.std.specs.Prelude.{◌≡◌, ◌-◌, ◌<◌, ◌≤◌, ◌^◌, ◌+ℤ◌, ◌*ℤ◌, pos, IfErr, IfOk, OnOk, length, unsigned_abs};
ghost use Rattle.fx_core.specs.Types.{holds, width_of};
ghost use Rattle.ifx_search.specs.declared.axis.AxisFault.TheVariants.{OutOfMemory};
ghost use Rattle.ifx_search.specs.Axes.{IsAxis, IsSmall, IsSpaced, axis_fault, cause_of, first_place, grid_points, is_not_above, is_outside, listed_axis, point_at, stepped_axis, stepped_points};

use fx_core::Ty;
use std::alloc::{AllocError, Global};
use std::marker::Model;

/// Why points make no axis.
#[derive(Clone, Copy, Debug, PartialEq, Eq)]
pub enum AxisFault {
    /// There are fewer than 2 points.
    TooFew,
    /// There are more than 4,096 points.
    TooMany,
    /// The point of this number is the first that is no number of the type.
    OutOfType(u32),
    /// The point of this number is the first that isn't above the one before.
    NotRising(u32),
    OutOfMemory,
}

impl From<AllocError> for AxisFault {
    ghost from_gives = { λ _ fault. fault ≡ OutOfMemory };

    fn from(_error: AllocError) -> AxisFault {
        AxisFault::OutOfMemory
    }
}

// Equal steps from an offset on: the points of number 0 up to `count`, which is left out.
#[derive(Clone, Copy, Debug, PartialEq, Eq)]
pub(crate) struct Grid {
    offset: i64,
    step: i64,
    count: u32,
}

impl Grid {
    fn point(&self, i: u32) -> i64
        requires small { IsSmall self.now }
        requires few { i < 4096 }
        ensures { result ≡ self.now.offset +ℤ pos i *ℤ self.now.step }
    {
        self.offset + i64::from(i) * self.step
    }

    fn is_held(&self, ty: Ty, i: u32) -> bool
        requires small { IsSmall self.now }
        requires few { i < 4096 }
        ensures { result ≡ holds ty (self.now.offset +ℤ pos i *ℤ self.now.step) }
    {
        ty.holds(self.point(i))
    }
}

// The points as they are kept.
#[derive(Drop)]
pub(crate) enum Breakpoints {
    Listed(Vec<i64>),
    Stepped(Grid),
}

/// An axis of a type of 8 or 16 bits: 2 to 4,096 numbers of the type that rise strictly. It is seen
/// as its type, its points, and its offset and step where it was made by them.
#[derive(Drop)]
pub struct Axis {
    ty: Ty,
    kept: Breakpoints,
}

impl Model for Axis {
    ghost use Rattle.ifx_search.specs.Axes.{AxisData, IsAxis, IsKeptSmall, points_of, spacing_of};

    ghost Value = { AxisData };

    ghost view = { λ a. record { ty = a.ty; points = points_of a.kept; spacing = spacing_of a.kept } };

    ghost invariant = { λ a. IsAxis a.ty (points_of a.kept) × IsKeptSmall a.kept };
}

impl Axis {
    /// The axis of these points, which are copied.
    pub fn new(alloc: Global, ty: Ty, points: &[i64]) -> Result<Axis, AxisFault>
        requires narrow { width_of ty ≤ 16 }
        ensures axis { IfOk result (λ axis. axis ≡ listed_axis ty points.now) }
        ensures cause { cause_of result ≡ axis_fault ty points.now }
    {
        if let Some(fault) = listed_fault(ty, points) {
            return Err(fault);
        }
        let kept = Breakpoints::Listed(Vec::from_slice(alloc, points)?);
        Ok(Axis { ty, kept })
    }

    /// The axis of `count` points that begin at `offset`, each `step` above the one before. It takes
    /// no memory.
    pub fn stepped(ty: Ty, offset: i64, step: i64, count: u32) -> Result<Axis, AxisFault>
        requires narrow { width_of ty ≤ 16 }
        requires offset { unsigned_abs offset ≤ 2 ^ 32 }
        requires step { unsigned_abs step ≤ 2 ^ 32 }
        ensures axis { IfOk result (λ axis. axis ≡ stepped_axis ty offset step count) }
        ensures sound { OnOk result (axis_fault ty (stepped_points offset step count) ≡ None) }
        ensures fault { IfErr result (λ fault. axis_fault ty (stepped_points offset step count) ≡ Some fault) }
    {
        let grid = Grid {
            offset,
            step,
            count,
        };
        if let Some(fault) = stepped_fault(ty, &grid) {
            return Err(fault);
        }
        let kept = Breakpoints::Stepped(grid);
        Ok(Axis { ty, kept })
    }

    /// How many points there are.
    pub fn len(&self) -> u32
        ensures len { result ≡ length self.now.points }
        ensures axis { IsAxis self.now.ty self.now.points }
    {
        match &self.kept {
            Breakpoints::Listed(points) => points.len() as u32,
            Breakpoints::Stepped(grid) => grid.count,
        }
    }

    /// The type of the points.
    pub fn ty(&self) -> Ty
        ensures { result ≡ self.now.ty }
    {
        self.ty
    }

    /// Point number `i`, from 0, a raw count.
    pub fn point(&self, i: u32) -> i64
        requires { i < length self.now.points }
        ensures { result ≡ point_at self.now.points i }
    {
        match &self.kept {
            Breakpoints::Listed(points) => points[i as usize],
            Breakpoints::Stepped(grid) => grid.point(i),
        }
    }

    /// The offset and the step of an axis that was made by them.
    pub fn spacing(&self) -> Option<(i64, i64)>
        ensures value { result ≡ self.now.spacing }
        ensures spaced { IsSpaced self.now.points self.now.spacing }
    {
        match &self.kept {
            Breakpoints::Listed(_) => None,
            Breakpoints::Stepped(grid) => Some((grid.offset, grid.step)),
        }
    }
}

// Why these points make no axis.
fn listed_fault(ty: Ty, points: &[i64]) -> Option<AxisFault>
    ensures { result ≡ axis_fault ty points.now }
{
    if points.len() < 2 {
        return Some(AxisFault::TooFew);
    }
    if points.len() > 4096 {
        return Some(AxisFault::TooMany);
    }
    if let Some(place) = listed_outside(ty, points) {
        return Some(AxisFault::OutOfType(place));
    }
    match listed_not_above(points) {
        Some(place) => Some(AxisFault::NotRising(place)),
        None => None,
    }
}

#[tactic(auto, using(crate::proofs::Places::found_here, crate::proofs::Places::found_later, crate::proofs::Places::found_nowhere))]
fn listed_outside(ty: Ty, points: &[i64]) -> Option<u32>
    requires few { length points.now ≤ 4096 }
    ensures { result ≡ first_place (is_outside ty points.now) 0 (length points.now) }
{
    for i in 0..points.len() {
        if !ty.holds(points[i]) {
            return Some(i as u32);
        }
    }
    None
}

#[tactic(auto, using(crate::proofs::Places::found_here, crate::proofs::Places::found_later, crate::proofs::Places::found_nowhere))]
fn listed_not_above(points: &[i64]) -> Option<u32>
    requires few { length points.now ≤ 4096 }
    ensures { result ≡ first_place (is_not_above points.now) 1 (length points.now - 1) }
{
    for i in 1..points.len() {
        if points[i] <= points[i - 1] {
            return Some(i as u32);
        }
    }
    None
}

// Why points in equal steps make no axis.
fn stepped_fault(ty: Ty, grid: &Grid) -> Option<AxisFault>
    requires small { IsSmall grid.now }
    ensures { result ≡ axis_fault ty (grid_points grid.now) }
{
    if grid.count < 2 {
        return Some(AxisFault::TooFew);
    }
    if grid.count > 4096 {
        return Some(AxisFault::TooMany);
    }
    if let Some(place) = stepped_outside(ty, grid) {
        return Some(AxisFault::OutOfType(place));
    }
    if grid.step <= 0 {
        return Some(AxisFault::NotRising(1));
    }
    None
}

#[tactic(auto, using(crate::proofs::Faults::step_outside, crate::proofs::Faults::step_inside, crate::proofs::Faults::steps_inside))]
fn stepped_outside(ty: Ty, grid: &Grid) -> Option<u32>
    requires small { IsSmall grid.now }
    requires few { grid.now.count ≤ 4096 }
    ensures { result ≡ first_place (is_outside ty (grid_points grid.now)) 0 grid.now.count }
{
    for i in 0..grid.count {
        if !grid.is_held(ty, i) {
            return Some(i);
        }
    }
    None
}
