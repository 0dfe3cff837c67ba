//! The JSON pointer at which a job is at fault.

ghost use Rattle.std.specs.Prelude.{◌≡◌, encode_utf8_all};
ghost use Rattle.std.specs.Str.{chars};

use crate::Text;
use std::fmt;
use std::marker::Model;

/// The JSON pointer of a fault. Contracts see the list of its characters.
#[derive(Debug, Drop)]
pub struct PathText {
    text: Text,
}

impl Model for PathText {
    ghost use Rattle.std.specs.Prelude.{List, ℕ};

    ghost Value = { List ℕ };

    ghost view = { λ p. p.text };
}

impl fmt::Display for PathText {
    fn fmt<W: fmt::Write>(&self, f: &mut fmt::Formatter<W>) -> fmt::Result {
        f.write_str(self.as_str())
    }
}

impl PathText {
    /// The pointer that `text` spells.
    pub fn of_text(text: Text) -> PathText
        ensures { result ≡ text }
    {
        PathText { text }
    }

    /// The pointer as UTF-8.
    pub fn as_str(&self) -> &str
        ensures characters { chars result.now ≡ self.now }
        ensures bytes { result.now ≡ encode_utf8_all self.now }
    {
        self.text.as_str()
    }
}
