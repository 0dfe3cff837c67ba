//! A part of a flat list.

ghost use Rattle.std.specs.Prelude.{◌≡◌, ◌+◌, ◌≤◌, IfOk, length};
ghost use Rattle.dom_tree.specs.Classes.{behind};
ghost use Rattle.dom_tree.specs.Kept.{part_of};

use stylo_base::NoMemory;

/// A part of a flat list: where it begins, and how many items it has.
#[derive(Clone, Copy)]
pub(crate) struct Span {
    pub first: u32,
    pub count: u32,
}

impl Span {
    /// The part that begins at `first`. There are fewer than 2^32 items in a list: more are
    /// refused as if out of memory.
    pub fn new(first: usize, count: usize) -> Result<Span, NoMemory>
        ensures { IfOk result (λ span. span ≡ record { first = first; count = count }) }
    {
        let (Ok(first), Ok(count)) = (u32::try_from(first), u32::try_from(count)) else {
            return Err(NoMemory);
        };
        Ok(Span { first, count })
    }

    /// The items of the part.
    #[inline]
    pub fn of<T>(self, list: &[T]) -> &[T]
        requires { self.first + self.count ≤ length list.now }
        ensures { result.now ≡ part_of list.now self }
    {
        let first = self.first as usize;
        &list[first..first + self.count as usize]
    }

    /// The items of the part behind it, which has as many.
    #[inline]
    pub fn behind_of<T>(self, list: &[T]) -> &[T]
        requires { self.first + self.count + self.count ≤ length list.now }
        ensures { result.now ≡ part_of list.now (behind self) }
    {
        let count = self.count as usize;
        let first = self.first as usize + count;
        &list[first..first + count]
    }
}
