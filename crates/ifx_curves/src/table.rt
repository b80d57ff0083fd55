// Tables: the values of a curve, one for each point of an axis.

ghost use Rattle.std.specs.Prelude.{◌≡◌, ◌<◌, ◌≤◌, IfOk, length, unsigned_abs};
ghost use Rattle.fx_core.specs.Types.{Holds, width_of};
ghost use Rattle.ifx_search.specs.Axes.{first_place};
ghost use Rattle.ifx_curves.specs.declared.table.TableFault.TheVariants.{OutOfMemory};
ghost use Rattle.ifx_curves.specs.Tables.{IsTable, cause_of, is_outside, table_fault, value_at};

use fx_core::Ty;
use std::alloc::{AllocError, Global};
use std::marker::Model;

/// Why values make no table.
#[derive(Clone, Copy, Debug, PartialEq, Eq)]
pub enum TableFault {
    /// There are fewer than 2 values.
    TooFew,
    /// There are more than 4,096 values.
    TooMany,
    /// The value of this number is the first that is no number of the type.
    OutOfType(u32),
    OutOfMemory,
}

impl From<AllocError> for TableFault {
    ghost from_gives = { λ _ fault. fault ≡ OutOfMemory };

    fn from(_error: AllocError) -> TableFault {
        TableFault::OutOfMemory
    }
}

/// A table of a type of 8 or 16 bits: 2 to 4,096 numbers of the type.
#[derive(Drop)]
pub struct Table {
    ty: Ty,
    values: Vec<i64>,
}

impl Model for Table {
    ghost use Rattle.ifx_curves.specs.Tables.{IsTable, TableData};

    ghost Value = { TableData };

    ghost view = { λ t. record { ty = t.ty; values = t.values.items } };

    ghost invariant = { λ t. IsTable t.ty t.values.items };
}

impl Table {
    /// The table of these values, which are copied.
    pub fn new(alloc: Global, ty: Ty, values: &[i64]) -> Result<Table, TableFault>
        requires narrow { width_of ty ≤ 16 }
        ensures table { IfOk result (λ table. table ≡ record { ty = ty; values = values.now }) }
        ensures cause { cause_of result ≡ table_fault ty values.now }
    {
        if let Some(fault) = fault_of(ty, values) {
            return Err(fault);
        }
        let values = Vec::from_slice(alloc, values)?;
        Ok(Table { ty, values })
    }

    /// How many values there are.
    pub fn len(&self) -> u32
        ensures len { result ≡ length self.now.values }
        ensures table { IsTable self.now.ty self.now.values }
    {
        self.values.len() as u32
    }

    /// The type of the values.
    pub fn ty(&self) -> Ty
        ensures { result ≡ self.now.ty }
    {
        self.ty
    }

    /// Value number `i`, from 0, a raw count.
    pub fn value(&self, i: u32) -> i64
        requires { i < length self.now.values }
        ensures value { result ≡ value_at self.now.values i }
        ensures held { Holds self.now.ty result }
        ensures small { unsigned_abs result < 65536 }
        ensures few { length self.now.values ≤ 4096 }
    {
        self.values[i as usize]
    }
}

// Why these values make no table.
fn fault_of(ty: Ty, values: &[i64]) -> Option<TableFault>
    ensures { result ≡ table_fault ty values.now }
{
    if values.len() < 2 {
        return Some(TableFault::TooFew);
    }
    if values.len() > 4096 {
        return Some(TableFault::TooMany);
    }
    match first_outside(ty, values) {
        Some(place) => Some(TableFault::OutOfType(place)),
        None => None,
    }
}

/// The number of the first value that is no number of the type, from 0.
pub fn first_outside(ty: Ty, values: &[i64]) -> Option<u32>
    requires { length values.now ≤ 65536 }
    ensures { result ≡ first_place (is_outside ty values.now) 0 (length values.now) }
{
    for i in 0..values.len() {
        if !ty.holds(values[i]) {
            return Some(i as u32);
        }
    }
    None
}
