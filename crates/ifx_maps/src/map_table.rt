// Maps as data: the values over two axes, one for each pair of their points.

ghost use Rattle.std.specs.Prelude.{◌≡◌, ◌<◌, ◌≤◌, IfOk, length, unsigned_abs};
ghost use Rattle.fx_core.specs.Types.{Holds, width_of};
ghost use Rattle.ifx_maps.specs.declared.map_table.MapFault.TheVariants.{OutOfMemory};
ghost use Rattle.ifx_maps.specs.Maps.{IsMap, cause_of, map_at, map_fault};

use fx_core::Ty;
use ifx_curves::first_outside;
use std::alloc::{AllocError, Global};
use std::marker::Model;

/// Why values make no map.
#[derive(Clone, Copy, Debug, PartialEq, Eq)]
pub enum MapFault {
    /// There are fewer than 2 columns or fewer than 2 lines.
    TooFew,
    /// There are more than 4,096 columns or lines, or more than 65,536 values.
    TooMany,
    /// There isn't one value for each column and line.
    WrongCount,
    /// The value at this place is the first that is no number of the type.
    OutOfType(u32),
    OutOfMemory,
}

impl From<AllocError> for MapFault {
    ghost from_gives = { λ _ fault. fault ≡ OutOfMemory };

    fn from(_error: AllocError) -> MapFault {
        MapFault::OutOfMemory
    }
}

/// A map of a type of 8 or 16 bits: 2 to 4,096 columns along `x` and as many lines along `y`, with at
/// most 65,536 values. The value of column `ix` and line `iy` stands at the place `ix * ny + iy`.
#[derive(Drop)]
pub struct MapTable {
    ty: Ty,
    nx: u32,
    ny: u32,
    values: Vec<i64>,
}

impl Model for MapTable {
    ghost use Rattle.ifx_maps.specs.Maps.{IsMap, MapData};

    ghost Value = { MapData };

    ghost view = { λ m. record { ty = m.ty; nx = m.nx; ny = m.ny; values = m.values.items } };

    ghost invariant = { λ m. IsMap m.ty m.nx m.ny m.values.items };
}

impl MapTable {
    /// The map of `nx` columns and `ny` lines with these values, which are copied.
    pub fn new(
        alloc: Global,
        ty: Ty,
        nx: u32,
        ny: u32,
        values: &[i64],
    ) -> Result<MapTable, MapFault>
        requires narrow { width_of ty ≤ 16 }
        ensures map { IfOk result (λ m. m ≡ record { ty = ty; nx = nx; ny = ny; values = values.now }) }
        ensures cause { cause_of result ≡ map_fault ty nx ny values.now }
    {
        if let Some(fault) = fault_of(ty, nx, ny, values) {
            return Err(fault);
        }
        let values = Vec::from_slice(alloc, values)?;
        Ok(MapTable { ty, nx, ny, values })
    }

    /// How many columns there are, one for each point along `x`.
    pub fn nx(&self) -> u32
        ensures columns { result ≡ self.now.nx }
        ensures map { IsMap self.now.ty self.now.nx self.now.ny self.now.values }
    {
        self.nx
    }

    /// How many lines there are, one for each point along `y`.
    pub fn ny(&self) -> u32
        ensures lines { result ≡ self.now.ny }
        ensures map { IsMap self.now.ty self.now.nx self.now.ny self.now.values }
    {
        self.ny
    }

    /// The type of the values.
    pub fn ty(&self) -> Ty
        ensures { result ≡ self.now.ty }
    {
        self.ty
    }

    /// The value of column `ix` and line `iy`, both from 0, a raw count.
    pub fn value(&self, ix: u32, iy: u32) -> i64
        requires column { ix < self.now.nx }
        requires line { iy < self.now.ny }
        ensures value { result ≡ map_at self.now ix iy }
        ensures held { Holds self.now.ty result }
        ensures small { unsigned_abs result < 65536 }
        ensures map { IsMap self.now.ty self.now.nx self.now.ny self.now.values }
    {
        self.values[(ix * self.ny + iy) as usize]
    }
}

// Why these values make no map.
fn fault_of(ty: Ty, nx: u32, ny: u32, values: &[i64]) -> Option<MapFault>
    ensures { result ≡ map_fault ty nx ny values.now }
{
    if nx < 2 || ny < 2 {
        return Some(MapFault::TooFew);
    }
    if nx > 4096 || ny > 4096 || nx * ny > 65536 {
        return Some(MapFault::TooMany);
    }
    if values.len() != (nx * ny) as usize {
        return Some(MapFault::WrongCount);
    }
    match first_outside(ty, values) {
        Some(place) => Some(MapFault::OutOfType(place)),
        None => None,
    }
}
