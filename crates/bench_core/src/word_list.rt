// The words of the command line.
ghost use Rattle.std.specs.Prelude.{◌≡◌, [], ◌∷◌, ◌++◌, map, string_bytes, OnOk, OnErr};

use std::alloc::{AllocError, Global};
use std::marker::Model;

/// The words behind the program's name, seen as the list of their bytes.
#[derive(Drop)]
pub struct Words {
    items: Vec<String>,
    alloc: Global,
}

impl Model for Words {
    ghost use Rattle.std.specs.Prelude.{ℕ, List, map, string_bytes};

    ghost Value = { List (List ℕ) };

    ghost view = { λ w. map string_bytes w.items.items };
}

impl Words {
    /// No words. It takes no memory.
    pub fn new(alloc: Global) -> Words
        ensures { result ≡ [] }
    {
        Words {
            items: Vec::new(alloc),
            alloc,
        }
    }

    /// Appends a copy of the word. At an error the words are as before.
    pub fn add(&mut self, word: &str) -> Result<(), AllocError>
        ensures ok { OnOk result (self.new ≡ self.old ++ word.now ∷ []) }
        ensures err { OnErr result (self.new ≡ self.old) }
    {
        let copy = String::from_str(self.alloc, word)?;
        self.items.push(copy)?;
        Ok(())
    }

    /// The words in their order.
    pub(crate) fn as_slice(&self) -> &[String]
        ensures { map string_bytes result.now ≡ self.now }
    {
        self.items.as_slice()
    }
}
