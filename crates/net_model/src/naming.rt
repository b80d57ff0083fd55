ghost use Rattle.std.specs.Prelude.{◌≡◌, ◌↔◌, true, false, IfOk, IsErrOf, OnOk};
ghost use Rattle.text_words.specs.Names.{is_name};
ghost use Rattle.net_model.specs.declared.naming.NameFault.TheVariants.{OutOfMemory};

use std::alloc::{AllocError, Global};
use std::marker::Model;
use text_words::is_name;

/// Why bytes give no name.
#[derive(Clone, Copy, Debug, PartialEq, Eq)]
pub enum NameFault {
    /// The bytes aren't 1 to 32 letters, digits and underscores that begin with no digit.
    BadName,
    OutOfMemory,
}

impl From<AllocError> for NameFault {
    ghost from_gives = { λ _ fault. fault ≡ OutOfMemory };

    fn from(_error: AllocError) -> NameFault {
        NameFault::OutOfMemory
    }
}

/// A name of 1 to 32 bytes, seen as its bytes.
#[derive(Drop)]
pub struct Name {
    bytes: Vec<u8>,
}

impl Model for Name {
    ghost use Rattle.std.specs.Prelude.{◌≡◌, true, List, ℕ};
    ghost use Rattle.text_words.specs.Names.{is_name};

    ghost Value = { List ℕ };

    ghost view = { λ n. n.bytes.items };

    ghost invariant = { λ n. is_name n.bytes.items ≡ true };
}

impl Name {
    /// The name of these bytes, which are copied.
    pub fn new(alloc: Global, bytes: &[u8]) -> Result<Name, NameFault>
        ensures bytes { IfOk result (λ name. name ≡ bytes.now) }
        ensures name { OnOk result (is_name bytes.now ≡ true) }
        ensures bad { IsErrOf result NameFault.BadName ↔ (is_name bytes.now ≡ false) }
    {
        if !is_name(bytes) {
            return Err(NameFault::BadName);
        }
        let bytes = Vec::from_slice(alloc, bytes)?;
        Ok(Name { bytes })
    }

    /// The bytes of the name, which are one.
    pub fn bytes(&self) -> &[u8]
        ensures bytes { result.now ≡ self.now }
        ensures name { is_name self.now ≡ true }
    {
        self.bytes.as_slice()
    }
}
