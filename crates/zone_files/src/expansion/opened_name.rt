//! The name of a file that is open.
ghost use Rattle.std.specs.Prelude.{◌≡◌, string_bytes, IfOk};

use std::alloc::{AllocError, Global};
use std::marker::Model;

/// The name under which a file is opened. Contracts see its octets.
#[derive(Drop)]
pub struct FileName {
    name: String,
}

impl Model for FileName {
    ghost use Rattle.std.specs.Prelude.{List, ℕ, string_bytes};

    ghost Value = { List ℕ };

    ghost view = { λ n. string_bytes n.name };
}

impl FileName {
    /// The name as a text.
    pub(crate) fn new(name: String) -> FileName
        ensures { result ≡ string_bytes name }
    {
        FileName { name }
    }

    /// The name that a text is.
    ///
    /// # Errors
    ///
    /// `AllocError`.
    pub(crate) fn of(alloc: Global, name: &str) -> Result<FileName, AllocError>
        ensures { IfOk result (λ made. made ≡ name.now) }
    {
        Ok(FileName {
            name: String::from_str(alloc, name)?,
        })
    }

    /// The octets of the name.
    pub fn octets(&self) -> &[u8]
        ensures { result.now ≡ self.now }
    {
        self.name.as_bytes()
    }

    /// The name as a text.
    pub fn as_str(&self) -> &str
        ensures { result.now ≡ self.now }
    {
        self.name.as_str()
    }
}
