//! A text that contracts see as the list of its characters. A short one is in the value itself, and takes
//! no memory.

ghost use Rattle.std.specs.Prelude.{◌≡◌, ◌++◌, ◌↔◌, ◌∷◌, [], IfOk, IsTrue, OnErr, OnOk, length, encode_utf8_all, decimal, true};
ghost use Rattle.std.specs.Str.{chars};
ghost use Rattle.std.specs.String.{string_bytes};
ghost use Rattle.stylo_base.specs.Ascii.{is_all_ascii};

use crate::NoMemory;
use crate::text_form::TextForm;
use itoa::Buffer;
use std::alloc::Global;
use std::marker::Model;

/// A text. Contracts see the list of its characters, each by its number.
#[derive(Debug, Drop)]
pub struct Text {
    form: TextForm,
}

impl Model for Text {
    ghost use Rattle.std.specs.Prelude.{List, ℕ};
    ghost use Rattle.std.specs.Str.{IsUtf8, chars};
    ghost use Rattle.stylo_base.specs.TextForm.{form_bytes};

    ghost Value = { List ℕ };

    ghost view = { λ t. chars (form_bytes t.form) };

    ghost invariant = { λ t. ∥ IsUtf8 (form_bytes t.form) ∥₁ };
}

impl Text {
    /// The empty text. It takes no memory.
    pub fn new(alloc: Global) -> Text
        ensures { result ≡ [] }
    {
        Text {
            form: TextForm::new(alloc),
        }
    }

    /// The empty text, with room for `bytes` bytes of UTF-8.
    pub fn with_capacity(alloc: Global, bytes: usize) -> Result<Text, NoMemory>
        ensures { IfOk result (λ t. t ≡ []) }
    {
        Ok(Text {
            form: TextForm::with_capacity(alloc, bytes)?,
        })
    }

    /// A copy of `text`.
    pub fn of_str(alloc: Global, text: &str) -> Result<Text, NoMemory>
        ensures ok { IfOk result (λ t. t ≡ chars text.now) }
        ensures ascii { is_all_ascii text.now ≡ true → IfOk result (λ t. t ≡ text.now) }
    {
        Ok(Text {
            form: TextForm::of_str(alloc, text)?,
        })
    }

    /// The text that `text` holds. It takes no memory.
    pub fn of_string(text: String) -> Text
        ensures { result ≡ chars (string_bytes text) }
    {
        Text {
            form: TextForm::Long(text),
        }
    }

    /// The text as UTF-8.
    #[inline]
    pub fn as_str(&self) -> &str
        ensures characters { chars result.now ≡ self.now }
        ensures bytes { result.now ≡ encode_utf8_all self.now }
    {
        self.form.as_str()
    }

    /// Makes the text empty, and keeps its room for what is appended next.
    pub fn clear(&mut self)
        ensures { self.new ≡ [] }
    {
        self.form.clear();
    }

    /// Appends `text`.
    #[inline]
    pub fn push_str(&mut self, text: &str) -> Result<(), NoMemory>
        ensures ok { OnOk result (self.new ≡ self.old ++ chars text.now) }
        ensures ascii { is_all_ascii text.now ≡ true → OnOk result (self.new ≡ self.old ++ text.now) }
        ensures err { OnErr result (self.new ≡ self.old) }
    {
        self.form.push_str(text)?;
        Ok(())
    }

    /// Appends a character.
    pub fn push_char(&mut self, c: char) -> Result<(), NoMemory>
        ensures { OnOk result (self.new ≡ self.old ++ c ∷ []) }
    {
        self.form.push_char(c)?;
        Ok(())
    }

    /// Appends `other`.
    pub fn push_text(&mut self, other: &Text) -> Result<(), NoMemory>
        ensures ok { OnOk result (self.new ≡ self.old ++ other.now) }
        ensures err { OnErr result (self.new ≡ self.old) }
    {
        self.push_str(other.as_str())
    }

    /// Appends `number`, in decimal digits with no leading zero.
    pub fn push_number(&mut self, number: u64) -> Result<(), NoMemory>
        ensures ok { OnOk result (self.new ≡ self.old ++ decimal number) }
        ensures err { OnErr result (self.new ≡ self.old) }
    {
        let mut buffer = Buffer::new();
        self.push_str(buffer.format(number))
    }

    /// Another text of the same characters.
    pub fn copy(&self, alloc: Global) -> Result<Text, NoMemory>
        ensures { IfOk result (λ t. t ≡ self.now) }
    {
        Ok(Text {
            form: self.form.copy(alloc)?,
        })
    }

    /// Whether the two texts have the same characters.
    pub fn is_same(&self, other: &Text) -> bool
        ensures { IsTrue result ↔ (self.now ≡ other.now) }
    {
        self.as_str() == other.as_str()
    }

    /// The length of the text in UTF-8, in bytes.
    pub fn byte_len(&self) -> usize
        ensures { result ≡ length (encode_utf8_all self.now) }
    {
        self.as_str().len()
    }
}
