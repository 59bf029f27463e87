ghost use Rattle.std.specs.Prelude.{◌≡◌, IfOk};

use coati_word::OutOfMemory;
use std::alloc::Global;
use std::marker::Model;

/// The bytes of a name.
#[derive(Debug, Drop)]
pub struct NameText {
    bytes: Vec<u8>,
}

impl Model for NameText {
    ghost use Rattle.std.specs.Prelude.{ℕ, List};

    ghost Value = { List ℕ };

    ghost view = { λ text. text.bytes.items };
}

impl NameText {
    /// A copy of the bytes.
    pub fn from_slice(alloc: Global, bytes: &[u8]) -> Result<NameText, OutOfMemory>
        ensures { IfOk result (λ text. text ≡ bytes.now) }
    {
        let bytes = Vec::from_slice(alloc, bytes)?;
        Ok(NameText { bytes })
    }

    /// The bytes.
    pub fn as_slice(&self) -> &[u8]
        ensures { result.now ≡ self.now }
    {
        self.bytes.as_slice()
    }
}

impl PartialEq for NameText {
    ghost use Rattle.std.specs.Str.{bytes_eq};
    ghost use Rattle.std.specs.Cmp.Rules.{comparing};
    ghost use Rattle.std.proofs.Common.{rules};

    ghost eq = { bytes_eq };

    ghost laws = { Prim.search (comparing, rules) };

    fn eq(&self, other: &NameText) -> bool {
        self.as_slice() == other.as_slice()
    }
}

/// A name where it stands.
#[derive(Debug, Drop, PartialEq)]
pub struct Name {
    pub text: NameText,
    /// The place of its first byte in the source.
    pub at: u32,
}

/// A number where it stands.
#[derive(Clone, Copy, Debug, PartialEq, Eq)]
pub struct Number {
    pub value: u16,
    /// The place of its first digit in the source.
    pub at: u32,
}
