//! Lengths of lines, kept for the elements whose style stays.

ghost use Rattle.std.specs.Prelude.{◌≡◌, ℕ, [], IfSome, None, OnOk, Some, slice_set, true};
ghost use Rattle.scene_model.specs.Numbers.{is_in};
ghost use Rattle.style_lines.specs.KeptLines.{kept_length};

use std::alloc::Global;
use stylo_base::NoMemory;

/// How many bytes the lines of elements have, each by the number of its element.
#[derive(Drop)]
pub struct Lengths {
    /// 0: none is kept.
    pub kept: Vec<u32>,
}

impl Lengths {
    /// No length is kept yet.
    pub fn new(alloc: Global) -> Lengths
        ensures { result.kept.items ≡ [] }
    {
        Lengths {
            kept: Vec::new(alloc),
        }
    }

    /// How many bytes the line of an element has, if that is kept.
    pub fn of(&self, number: u32) -> Option<u32>
        ensures { result ≡ kept_length self.now.kept.items number }
    {
        match self.kept.get(number as usize) {
            Some(len) if *len > 0 => Some(*len),
            _ => None,
        }
    }

    /// Keeps how many bytes the line of an element has.
    pub fn keep(&mut self, number: u32, len: u32) -> Result<(), NoMemory>
        ensures own { OnOk result (IfSome (kept_length self.new.kept.items number) (λ kept. kept ≡ len)) }
        ensures others { (x : ℕ) → (x ≡ number → ⊥)
            → kept_length self.new.kept.items x ≡ kept_length self.old.kept.items x }
    {
        let at = number as usize;
        if self.kept.len() <= at {
            self.kept.resize(at + 1, 0)?;
        }
        self.kept[at] = len;
        Ok(())
    }

    /// Forgets those of the lines of these elements.
    pub fn forget(&mut self, numbers: &[u32])
        ensures gone { (x : ℕ) → is_in x numbers.now ≡ true → kept_length self.new.kept.items x ≡ None }
        ensures left { (x : ℕ) → IfSome (kept_length self.new.kept.items x)
            (λ len. kept_length self.old.kept.items x ≡ Some len) }
    {
        for number in numbers {
            self.forget_one(*number);
        }
    }

    /// Forgets that of the line of an element.
    fn forget_one(&mut self, number: u32)
        ensures { self.new.kept.items ≡ slice_set self.old.kept.items number 0 }
    {
        let at = number as usize;
        if at < self.kept.len() {
            self.kept[at] = 0;
        }
    }
}
