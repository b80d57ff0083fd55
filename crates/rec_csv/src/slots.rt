// Which input stands in each column, so that a row can be read from the left whatever the order of the inputs.
ghost use Rattle.std.specs.Prelude.{◌≡◌, ◌≤◌, IfOk, length};
ghost use Rattle.rec_csv.specs.Slots.{AreApart, IsTable};

use crate::columns::Column;
use std::alloc::{AllocError, Global};

/// The slots of a width's columns, each with the number of the input that stands there.
pub fn slots_of(
    alloc: Global,
    columns: &[Column],
    width: usize,
) -> Result<Vec<Option<u32>>, AllocError>
    requires few { length columns.now ≤ 512 }
    requires apart { AreApart columns.now width }
    ensures width { IfOk result (λ slots. length slots.items ≡ width) }
    ensures table { IfOk result (λ slots. IsTable columns.now slots.items) }
{
    let mut slots = vec![in alloc; None; width]?;
    'inputs: for i in 0..columns.len() {
        slots[columns[i].place] = Some(i as u32);
    }
    Ok(slots)
}
