//! The text that is being written.

ghost use Rattle.std.specs.Prelude.{◌≡◌, ◌++◌, ◌∷◌, [], OnOk, true};
ghost use Rattle.std.specs.Str.{chars};
ghost use Rattle.stylo_base.specs.Ascii.{is_all_ascii};

use css_tokens::characters::push_character;
use std::alloc::Global;
use std::marker::Model;
use stylo_base::{NoMemory, Text};

/// The text so far.
#[derive(Drop)]
pub(crate) struct Output {
    text: String,
}

impl Model for Output {
    ghost use Rattle.base_model.specs.Text.{Characters};
    ghost use Rattle.std.specs.Str.{chars};
    ghost use Rattle.std.specs.String.{string_bytes};

    ghost Value = { Characters };

    ghost view = { λ o. chars (string_bytes o.text) };
}

impl Output {
    /// No text. It takes no memory.
    pub fn new(alloc: Global) -> Output
        ensures { result ≡ [] }
    {
        Output {
            text: String::new(alloc),
        }
    }

    /// Appends a character.
    pub fn push(&mut self, c: char) -> Result<(), NoMemory>
        ensures { OnOk result (self.new ≡ self.old ++ c ∷ []) }
    {
        push_character(&mut self.text, c)?;
        Ok(())
    }

    /// Appends these characters.
    pub fn push_all(&mut self, characters: &[char]) -> Result<(), NoMemory>
        ensures { OnOk result (self.new ≡ self.old ++ characters.now) }
    {
        for c in characters {
            self.push(*c)?;
        }
        Ok(())
    }

    /// The text.
    pub fn into_text(self) -> Text
        ensures { result ≡ self }
    {
        let Output { text } = self;
        Text::of_string(text)
    }
}
