//! Lines that were written, kept for the elements whose style stays.

ghost use Rattle.std.specs.Prelude.{◌≡◌, ◌<◌, ◌+◌, ◌≤◌, ℕ, None, [], IfSome, OnOk, length, map, option_map, slice_set, Some, true};
ghost use Rattle.scene_model.specs.Numbers.{is_in};
ghost use Rattle.style_lines.specs.KeptLines.{AreWithin, kept_line, line_in};

use std::alloc::Global;
use std::marker::Model;
use stylo_base::NoMemory;

/// A line of more bytes is not kept.
const LONGEST: usize = 256;

/// Where the line of an element stands.
#[derive(Clone, Copy)]
struct Place {
    start: u32,
    /// 0: no line is kept.
    len: u32,
}

/// No line is kept.
const NO_PLACE: Place = Place { start: 0, len: 0 };

/// The lines of elements in UTF-8, each by the number of its element. Contracts see of each number the
/// line, if one is kept.
#[derive(Drop)]
pub struct Lines {
    /// Lines, one behind the other. Those that were forgotten stay there until all are.
    bytes: Vec<u8>,
    /// By number.
    places: Vec<Place>,
    /// How many of the bytes are in use: of lines that were written or kept since the count began. The others
    /// are of lines that were forgotten, and of elements that were removed.
    used: usize,
}

impl Model for Lines {
    ghost use Rattle.std.specs.Prelude.{List, Option, ℕ, length, map};
    ghost use Rattle.style_lines.specs.KeptLines.{AreWithin, line_in};

    ghost Value = { List (Option (List ℕ)) };

    ghost view = { λ l. map (line_in l.bytes.items) l.places.items };

    ghost invariant = { λ l. AreWithin l.bytes.items l.places.items };
}

impl Lines {
    /// No line is kept yet.
    pub fn new(alloc: Global) -> Lines
        ensures { result ≡ [] }
    {
        Lines {
            bytes: Vec::new(alloc),
            places: Vec::new(alloc),
            used: 0,
        }
    }

    /// The line of an element, if it is kept.
    pub fn line(&self, number: u32) -> Option<&[u8]>
        ensures { option_map (λ line. line.now) result ≡ kept_line self.now number }
    {
        line_at(&self.bytes, &self.places, number)
    }

    /// Counts anew how many bytes are in use. From now on whoever writes kept lines tells of their bytes.
    pub fn count_anew(&mut self)
        ensures { self.new ≡ self.old }
    {
        self.used = 0;
    }

    /// Counts so many bytes more as in use: those of kept lines that were written.
    pub fn count(&mut self, bytes: usize)
        ensures { self.new ≡ self.old }
    {
        self.used = self.used.saturating_add(bytes);
    }

    /// Keeps the line of an element, in the place of the one that is kept, unless it is a long one.
    pub fn keep(&mut self, number: u32, line: &[u8]) -> Result<(), NoMemory>
        ensures own { IfSome (kept_line self.new number) (λ kept. kept ≡ line.now) }
        ensures others { (x : ℕ) → (x ≡ number → ⊥) → kept_line self.new x ≡ kept_line self.old x }
    {
        self.forget_one(number);
        if line.len() > LONGEST {
            return Ok(());
        }
        self.make_place(number)?;
        self.put(number, line)
    }

    /// Makes a place for the line of an element.
    fn make_place(&mut self, number: u32) -> Result<(), NoMemory>
        ensures same { (x : ℕ) → kept_line self.new x ≡ kept_line self.old x }
        ensures place { OnOk result (number < length self.new) }
    {
        let places = number as usize + 1;
        if self.places.len() < places {
            self.places.resize(places, NO_PLACE)?;
        }
        Ok(())
    }

    /// Puts the line of an element at its place, if so many bytes can be counted.
    fn put(&mut self, number: u32, line: &[u8]) -> Result<(), NoMemory>
        requires place { number < length self.old }
        requires none { kept_line self.old number ≡ None }
        requires short { length line.now ≤ 256 }
        ensures own { IfSome (kept_line self.new number) (λ kept. kept ≡ line.now) }
        ensures others { (x : ℕ) → (x ≡ number → ⊥) → kept_line self.new x ≡ kept_line self.old x }
    {
        let Ok(start) = u32::try_from(self.bytes.len()) else {
            return Ok(());
        };
        self.bytes.extend_from_slice(line)?;
        let len = line.len() as u32;
        self.places[number as usize] = Place { start, len };
        self.used = self.used.saturating_add(line.len());
        Ok(())
    }

    /// Forgets the lines of these elements. Where then more bytes are dead than in use, and so many that it
    /// pays to go over all places, all lines are forgotten.
    pub fn forget(&mut self, numbers: &[u32])
        ensures gone { (x : ℕ) → is_in x numbers.now ≡ true → kept_line self.new x ≡ None }
        ensures left { (x : ℕ) → IfSome (kept_line self.new x) (λ line. kept_line self.old x ≡ Some line) }
    {
        for number in numbers {
            self.forget_one(*number);
        }
        let dead = self.bytes.len().saturating_sub(self.used);
        if dead > self.used && dead > self.places.len() {
            self.forget_all();
        }
    }

    /// Forgets the line of an element.
    fn forget_one(&mut self, number: u32)
        ensures { self.new ≡ slice_set self.old number None }
    {
        let at = number as usize;
        if at < self.places.len() {
            self.used = self.used.saturating_sub(self.places[at].len as usize);
            self.places[at] = NO_PLACE;
        }
    }

    /// Forgets all lines, and keeps the room for others.
    fn forget_all(&mut self)
        ensures { (x : ℕ) → kept_line self.new x ≡ None }
    {
        self.places.clear();
        self.bytes.clear();
        self.used = 0;
    }
}

/// The line of an element among these bytes, if it is kept.
fn line_at<'a>(bytes: &'a [u8], places: &[Place], number: u32) -> Option<&'a [u8]>
    requires { AreWithin bytes.now places.now }
    ensures { option_map (λ line. line.now) result ≡ kept_line (map (line_in bytes.now) places.now) number }
{
    let place = *places.get(number as usize)?;
    if place.len == 0 {
        return None;
    }
    let start = place.start as usize;
    Some(&bytes[start..start + place.len as usize])
}
