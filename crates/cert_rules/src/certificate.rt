// A certificate as a list of entries, one for each part of a network.

ghost use Rattle.std.specs.Prelude.{◌≡◌, ◌<◌, ◌^◌, length, IfErr, IfOk, IfSome, OnOk, None, Some};
ghost use Rattle.cert_rules.specs.Proper.{first_improper, is_entry_number, is_proper_entry};

use part_rules::Bounds;
use std::marker::Model;

/// The greatest absolute value of an entry's numbers.
const LIMIT: i64 = 1 << 62;

/// The number of the first entry whose range is empty, whose error is negative or that has a number outside
/// -2^62 to 2^62.
#[derive(Clone, Copy, Debug, PartialEq, Eq)]
pub struct BadBounds {
    pub at: u32,
}

/// Bounds of each part of a network, in the order of its parts, seen as their list. Each of them is proper.
#[derive(Drop)]
pub struct Certificate {
    bounds: Vec<Bounds>,
}

impl Model for Certificate {
    ghost use Rattle.std.specs.Prelude.{◌≡◌, List, None};
    ghost use Rattle.part_rules.specs.declared.bounds.Bounds.{Bounds};
    ghost use Rattle.cert_rules.specs.Proper.{first_improper};

    ghost Value = { List Bounds };

    ghost view = { λ c. c.bounds.items };

    ghost invariant = { λ c. first_improper c.bounds.items ≡ None };
}

impl Certificate {
    /// The certificate of these entries. It takes no memory; at an error the entries are dropped.
    pub fn new(bounds: Vec<Bounds>) -> Result<Certificate, BadBounds>
        requires { length bounds.items < 2 ^ 32 }
        ensures entries { IfOk result (λ cert. cert ≡ bounds.items) }
        ensures proper { OnOk result (first_improper bounds.items ≡ None) }
        ensures first { IfErr result (λ bad. first_improper bounds.items ≡ Some bad.at) }
    {
        match first_improper(&bounds) {
            Some(at) => Err(BadBounds { at: at as u32 }),
            None => Ok(Certificate { bounds }),
        }
    }

    /// The entries, in the order of the network's parts. Each is proper.
    pub fn bounds(&self) -> &[Bounds]
        ensures entries { result.now ≡ self.now }
        ensures proper { first_improper self.now ≡ None }
    {
        self.bounds.as_slice()
    }
}

fn first_improper(entries: &[Bounds]) -> Option<usize>
    ensures first { result ≡ first_improper entries.now }
    ensures below { IfSome result (λ at. at < length entries.now) }
{
    entries.iter().position(|entry| !is_proper_entry(*entry))
}

fn is_proper_entry(b: Bounds) -> bool
    ensures { result ≡ is_proper_entry b }
{
    b.lo <= b.hi
        && 0 <= b.err
        && is_entry_number(b.lo)
        && is_entry_number(b.hi)
        && is_entry_number(b.err)
}

fn is_entry_number(number: i64) -> bool
    ensures { result ≡ is_entry_number number }
{
    -LIMIT <= number && number <= LIMIT
}
