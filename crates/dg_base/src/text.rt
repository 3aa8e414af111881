//! Texts.
ghost use Rattle.std.specs.Prelude.{◌≡◌, ℕ, List, string_bytes, IfOk};

use std::alloc::AllocError;
use std::marker::Model;

/// A text. Contracts see its bytes.
#[derive(Debug, Drop)]
pub struct Str {
    text: String,
}

impl Model for Str {
    ghost Value = { List ℕ };

    ghost view = { λ s. string_bytes s.text };
}

impl Str {
    pub fn of(text: String) -> Str
        ensures { result ≡ string_bytes text }
    {
        Str { text }
    }

    pub fn as_str(&self) -> &str
        ensures { result.now ≡ self.now }
    {
        &self.text
    }

    /// An equal text of its own, in time linear in its length.
    pub fn copy(&self) -> Result<Str, AllocError>
        ensures { IfOk result (λ s. s ≡ self.now) }
    {
        Ok(Str {
            text: self.text.clone()?,
        })
    }
}
