// The names that a shelf keeps.
ghost use Rattle.std.specs.Prelude.{◌≡◌, [], string_bytes};

use std::alloc::Global;
use std::marker::Model;
use std::mem;

/// The name in use and the name that failed last. A fault copies nothing: it only marks the name
/// in use as the one that failed, so it can be told even where memory has run out.
#[derive(Drop)]
pub(crate) struct Names {
    used: String,
    earlier: String,
    has_used_failed: bool,
}

impl Model for Names {
    ghost use Rattle.std.specs.Prelude.{if◌then◌else◌, string_bytes};
    ghost use Rattle.fx_io.specs.States.{NamesState};

    ghost Value = { NamesState };

    ghost view = { λ n. record {
      named = string_bytes n.used;
      failed = if n.has_used_failed then string_bytes n.used else string_bytes n.earlier;
    } };
}

impl Names {
    /// Both names empty.
    pub(crate) fn new(alloc: Global) -> Names
        ensures named { result.named ≡ [] }
        ensures failed { result.failed ≡ [] }
    {
        Names {
            used: String::new(alloc),
            earlier: String::new(alloc),
            has_used_failed: false,
        }
    }

    /// Takes this name into use. The name that failed last stays.
    pub(crate) fn set(&mut self, name: String)
        ensures named { self.new.named ≡ string_bytes name }
        ensures failed { self.new.failed ≡ self.old.failed }
    {
        let before = mem::replace(&mut self.used, name);
        if self.has_used_failed {
            self.earlier = before;
            self.has_used_failed = false;
        }
    }

    /// The name in use failed.
    pub(crate) fn fail(&mut self)
        ensures named { self.new.named ≡ self.old.named }
        ensures failed { self.new.failed ≡ self.old.named }
    {
        self.has_used_failed = true;
    }
}
