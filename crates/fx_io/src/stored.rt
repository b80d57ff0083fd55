// A file in memory.
ghost use Rattle.std.specs.Prelude.{◌≡◌, string_bytes};

use std::marker::Model;

/// One file in memory, seen as its name's bytes and its bytes.
#[derive(Drop)]
pub struct Stored {
    name: String,
    bytes: Vec<u8>,
}

impl Model for Stored {
    ghost use Rattle.std.specs.Prelude.{ℕ, List, string_bytes};

    ghost Value = { List ℕ × List ℕ };

    ghost view = { λ s. (string_bytes s.name, s.bytes.items) };
}

impl Stored {
    /// The file of this name that has these bytes.
    pub fn new(name: String, bytes: Vec<u8>) -> Stored
        ensures { result ≡ (string_bytes name, bytes.items) }
    {
        Stored { name, bytes }
    }

    /// Its name.
    pub fn name(&self) -> &str
        ensures { result.now ≡ self.now.0 }
    {
        self.name.as_str()
    }

    /// All its bytes.
    pub fn bytes(&self) -> &[u8]
        ensures { result.now ≡ self.now.1 }
    {
        self.bytes.as_slice()
    }
}
