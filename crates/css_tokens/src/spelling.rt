//! The spelling of a number in a token. A short one is in the value itself, and takes no memory.

ghost use Rattle.std.specs.Prelude.{◌≡◌, ◌≤◌, [], IfOk};

use std::alloc::Global;
use std::mem::size_of;
use stylo_base::NoMemory;

/// How many characters have room in the value itself: the most that leave it at 32 bytes.
const INLINE_LEN: usize = 5;

const _: () = prove!(size_of::<Spelling>() == 32);

/// The characters of a number.
#[derive(Debug, Drop)]
pub(crate) enum Spelling {
    /// In the value itself.
    Short(ShortSpelling),
    /// In memory of their own.
    Long(Vec<char>),
}

/// The first `len` of these characters.
#[derive(Clone, Copy, Debug)]
pub(crate) struct ShortSpelling {
    characters: [char; INLINE_LEN],
    len: u8,
    ghost fits: { len ≤ 5 },
}

impl Spelling {
    ghost use Rattle.css_tokens.specs.Spelled.{spelled};

    /// No characters. It takes no memory.
    pub(crate) fn empty() -> Spelling
        ensures { spelled result ≡ [] }
    {
        Spelling::Short(ShortSpelling {
            characters: ['\0'; INLINE_LEN],
            len: 0,
        })
    }

    /// A copy of these characters.
    pub(crate) fn of_slice(alloc: Global, text: &[char]) -> Result<Spelling, NoMemory>
        ensures { IfOk result (λ spelling. spelled spelling ≡ text.now) }
    {
        if text.len() > INLINE_LEN {
            return Ok(Spelling::Long(text.to_vec(alloc)?));
        }
        let mut characters = ['\0'; INLINE_LEN];
        characters[..text.len()].copy_from_slice(text);
        Ok(Spelling::Short(ShortSpelling {
            characters,
            len: text.len() as u8,
        }))
    }

    /// The characters.
    #[inline]
    pub(crate) fn as_slice(&self) -> &[char]
        ensures { result.now ≡ spelled self.now }
    {
        match self {
            Spelling::Short(short) => short.as_slice(),
            Spelling::Long(characters) => characters.as_slice(),
        }
    }

    /// Another spelling of the same characters.
    pub(crate) fn copy(&self, alloc: Global) -> Result<Spelling, NoMemory>
        ensures { IfOk result (λ spelling. spelled spelling ≡ spelled self.now) }
    {
        match self {
            Spelling::Short(short) => Ok(Spelling::Short(*short)),
            Spelling::Long(characters) => Ok(Spelling::Long(characters.to_vec(alloc)?)),
        }
    }
}

impl ShortSpelling {
    ghost use Rattle.css_tokens.specs.Spelled.{short_spelled};

    /// The characters.
    #[inline]
    fn as_slice(&self) -> &[char]
        ensures { result.now ≡ short_spelled self.now }
    {
        &self.characters[..usize::from(self.len)]
    }
}
