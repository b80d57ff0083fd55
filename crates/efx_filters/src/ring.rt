// The last numbers of a row of numbers, in a buffer that wraps around.

ghost use Rattle.std.specs.Prelude.{◌≡◌, ◌-◌, ◌<◌, ◌==◌, ◌∷◌, if◌then◌else◌, IfOk, get_or, length, pos, replicate, take};

use std::alloc::{AllocError, Global};
use std::marker::Model;

/// As many numbers as the ring has slots, seen as their list from the newest on.
#[derive(Drop)]
pub(crate) struct Ring {
    slots: Vec<i64>,
    newest: usize,
}

impl Model for Ring {
    ghost use Rattle.std.specs.Prelude.{ℤ, ◌≤◌, List, ◌++◌, drop, length, take};

    ghost Value = { List ℤ };

    ghost view = { λ r. drop r.newest r.slots.items ++ take r.newest r.slots.items };

    ghost invariant = { λ r. r.newest ≤ length r.slots.items };
}

impl Ring {
    /// A ring of so many zeros.
    pub(crate) fn new(alloc: Global, len: usize) -> Result<Ring, AllocError>
        ensures { IfOk result (λ ring. ring ≡ replicate len (pos 0)) }
    {
        let slots = vec![in alloc; 0; len]?;
        Ok(Ring { slots, newest: 0 })
    }

    /// Puts a number in front, and gives the last one, for which there is no slot then.
    pub(crate) fn push(&mut self, x: i64) -> i64
        ensures after { self.new ≡ take (length self.old) (x ∷ self.old) }
        ensures last { result ≡ get_or (x ∷ self.old) (length self.old) (pos 0) }
    {
        if self.slots.is_empty() {
            return x;
        }
        let place = place_before(self.newest, self.slots.len());
        let last = self.slots[place];
        self.slots[place] = x;
        self.newest = place;
        last
    }

    /// Makes each number 0.
    pub(crate) fn clear(&mut self)
        ensures { self.new ≡ replicate (length self.old) (pos 0) }
    {
        self.slots.fill(0);
    }
}

// The place before this one, around the end of so many.
fn place_before(place: usize, len: usize) -> usize
    requires { 0 < len }
    ensures { result ≡ (if place == 0 then len - 1 else place - 1) }
{
    if place == 0 { len - 1 } else { place - 1 }
}
