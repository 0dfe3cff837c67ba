//! Where the bytes of a text are: in the value itself, or in memory of their own.

ghost use Rattle.std.specs.Prelude.{◌≡◌, ◌++◌, [], IfOk, MatchOption, OnErr, OnOk, encode_utf8};
ghost use Rattle.std.specs.String.{string_bytes};
ghost use Rattle.stylo_base.specs.TextForm.{form_bytes};

use crate::NoMemory;
use arrayvec::ArrayString;
use std::alloc::Global;
use std::mem::size_of;

/// How many bytes of UTF-8 have room in the value itself: the most that leave it at 32 bytes.
const INLINE_BYTES: usize = 16;

const _: () = prove!(size_of::<TextForm>() == 32);

/// The bytes of a text.
#[derive(Debug, Drop)]
pub(crate) enum TextForm {
    /// In the value itself.
    Short {
        text: ArrayString<INLINE_BYTES>,
        alloc: Global,
    },
    /// In memory of their own.
    Long(String),
}

impl TextForm {
    /// No bytes. It takes no memory.
    pub(crate) fn new(alloc: Global) -> TextForm
        ensures { form_bytes result ≡ [] }
    {
        TextForm::Short {
            text: ArrayString::new(),
            alloc,
        }
    }

    /// No bytes, with room for so many.
    pub(crate) fn with_capacity(alloc: Global, bytes: usize) -> Result<TextForm, NoMemory>
        ensures { IfOk result (λ form. form_bytes form ≡ []) }
    {
        if bytes <= INLINE_BYTES {
            return Ok(TextForm::new(alloc));
        }
        Ok(TextForm::Long(String::with_capacity(alloc, bytes)?))
    }

    /// A copy of `text`.
    pub(crate) fn of_str(alloc: Global, text: &str) -> Result<TextForm, NoMemory>
        ensures { IfOk result (λ form. form_bytes form ≡ text.now) }
    {
        match ArrayString::from(text) {
            Ok(text) => Ok(TextForm::Short { text, alloc }),
            Err(_) => Ok(TextForm::Long(String::from_str(alloc, text)?)),
        }
    }

    /// Another one of the same bytes.
    pub(crate) fn copy(&self, alloc: Global) -> Result<TextForm, NoMemory>
        ensures { IfOk result (λ form. form_bytes form ≡ form_bytes self.now) }
    {
        match self {
            TextForm::Short { text, .. } => Ok(TextForm::Short { text: *text, alloc }),
            TextForm::Long(text) => TextForm::of_str(alloc, text.as_str()),
        }
    }

    /// The bytes as text.
    #[inline]
    pub(crate) fn as_str(&self) -> &str
        ensures { result.now ≡ form_bytes self.now }
    {
        match self {
            TextForm::Short { text, .. } => text.as_str(),
            TextForm::Long(text) => text.as_str(),
        }
    }

    /// Takes the bytes away, and keeps their room.
    pub(crate) fn clear(&mut self)
        ensures { form_bytes self.new ≡ [] }
    {
        match self {
            TextForm::Short { text, .. } => text.clear(),
            TextForm::Long(text) => text.clear(),
        }
    }

    /// Appends `more`.
    #[inline]
    pub(crate) fn push_str(&mut self, more: &str) -> Result<(), NoMemory>
        ensures ok { OnOk result (form_bytes self.new ≡ form_bytes self.old ++ more.now) }
        ensures err { OnErr result (form_bytes self.new ≡ form_bytes self.old) }
    {
        match self {
            TextForm::Long(text) => text.push_str(more)?,
            TextForm::Short { text, alloc } => {
                if let Some(long) = appended(*alloc, text, more)? {
                    *self = TextForm::Long(long);
                }
            }
        }
        Ok(())
    }

    /// Appends a character.
    pub(crate) fn push_char(&mut self, c: char) -> Result<(), NoMemory>
        ensures ok { OnOk result (form_bytes self.new ≡ form_bytes self.old ++ encode_utf8 c) }
        ensures err { OnErr result (form_bytes self.new ≡ form_bytes self.old) }
    {
        match self {
            TextForm::Short { text, alloc } => {
                if text.try_push(c).is_err() {
                    let mut buffer = [0; 4];
                    let long = joined(*alloc, text.as_str(), c.encode_utf8(&mut buffer))?;
                    *self = TextForm::Long(long);
                }
            }
            TextForm::Long(text) => text.push(c)?,
        }
        Ok(())
    }
}

/// Appends `more` to a short text. Where it has no room for that, it stays, and both in one are the answer.
fn appended(
    alloc: Global,
    text: &mut ArrayString<INLINE_BYTES>,
    more: &str,
) -> Result<Option<String>, NoMemory>
    ensures ok { IfOk result (λ long. MatchOption long (text.new.bytes ≡ text.old.bytes ++ more.now)
        (λ long. string_bytes long ≡ text.old.bytes ++ more.now)) }
    ensures err { OnErr result (text.new ≡ text.old) }
{
    if text.try_push_str(more).is_ok() {
        return Ok(None);
    }
    Ok(Some(joined(alloc, text.as_str(), more)?))
}

/// `front` and `back` in one, with room for at least twice what a short text has room for.
fn joined(alloc: Global, front: &str, back: &str) -> Result<String, NoMemory>
    ensures { IfOk result (λ text. string_bytes text ≡ front.now ++ back.now) }
{
    let len = front.len().saturating_add(back.len());
    let mut text = String::with_capacity(alloc, len.max(2 * INLINE_BYTES))?;
    text.push_str(front)?;
    text.push_str(back)?;
    Ok(text)
}
