//! Sets of elements that take no memory once they are made.

ghost use Rattle.std.specs.Prelude.{◌≡◌, ◌+◌, ◌<◌, ◌==◌, ◌≤◌, ◌^◌, [], length, nat_eq, slice_get};
ghost use Rattle.std.specs.Prelude.{IfOk, OnErr, OnOk, OnSome};
ghost use Rattle.std.specs.List.{IsDistinct};
ghost use Rattle.scene_model.specs.Numbers.{is_in};
ghost use Rattle.invalidation_map.specs.Members.{AreAdded, AreBelow, AreUnset, added, widened};

use std::alloc::Global;
use std::marker::Model;
use stylo_base::NoMemory;

/// A set of numbers of elements. Contracts see its numbers in the order of adding, and its room.
#[derive(Drop)]
pub struct ElementSet {
    /// By number: whether it is in the set.
    flags: Vec<bool>,
    /// As long as the flags. The first `count` are the numbers of the set.
    list: Vec<u32>,
    /// How many flags are set.
    count: usize,
}

impl Model for ElementSet {
    ghost use Rattle.std.specs.Prelude.{length, take};
    ghost use Rattle.invalidation_map.specs.Members.{Members, members_code, AreFlags};

    ghost Value = { Members };

    ghost coded = { members_code };

    ghost view = { λ s. record { items = take s.count s.list.items; room = length s.flags.items } };

    ghost invariant = { λ s. AreFlags s.flags.items s.list.items s.count };
}

impl ElementSet {
    /// The empty set, with room for the numbers up to `last`.
    pub fn new(alloc: Global, last: u32) -> Result<ElementSet, NoMemory>
        ensures { IfOk result (λ set. set ≡ record { items = []; room = last + 1 }) }
    {
        let room = last as usize + 1;
        Ok(ElementSet {
            flags: vec![in alloc; false; room]?,
            list: vec![in alloc; 0; room]?,
            count: 0,
        })
    }

    /// The empty set, which takes no memory and has no room.
    pub fn empty(alloc: Global) -> ElementSet
        ensures { result ≡ record { items = []; room = 0 } }
    {
        ElementSet {
            flags: Vec::new(alloc),
            list: Vec::new(alloc),
            count: 0,
        }
    }

    /// Makes room for the numbers up to `last`, where there is not yet. After an error the set is as it was.
    pub fn reserve(&mut self, last: u32) -> Result<(), NoMemory>
        ensures ok { OnOk result (self.new ≡ widened last self.old) }
        ensures kept { OnErr result (self.new ≡ self.old) }
    {
        let now = self.flags.len();
        let room = last as usize + 1;
        if room <= now {
            return Ok(());
        }
        self.list.reserve(room - now)?;
        self.flags.resize(room, false)?;
        // There is room.
        let _done = self.list.resize(room, 0);
        Ok(())
    }

    /// Whether no number is in the set.
    pub fn is_empty(&self) -> bool
        ensures { result ≡ (length self.now.items == 0) }
    {
        self.count == 0
    }

    /// Whether `x` is in the set.
    pub fn contains(&self, x: u32) -> bool
        ensures { result ≡ is_in x self.now.items }
    {
        match self.flags.get(x as usize) {
            Some(flag) => *flag,
            None => false,
        }
    }

    /// Adds `x`, if it is not in the set.
    pub fn add(&mut self, x: u32)
        requires { x < self.old.room }
        ensures { self.new ≡ added self.old x }
    {
        if !self.flags[x as usize] {
            self.flags[x as usize] = true;
            self.list[self.count] = x;
            self.count += 1;
        }
    }

    /// The numbers in the order of adding.
    pub fn as_slice(&self) -> &[u32]
        ensures items { result.now ≡ self.now.items }
        ensures below { AreBelow self.now.room result.now }
        ensures few { length result.now ≤ self.now.room }
        ensures once { IsDistinct nat_eq result.now }
    {
        &self.list[..self.count]
    }

    /// The number that was added at this place, from 0, if so many were.
    pub fn get(&self, index: usize) -> Option<u32>
        ensures item { result ≡ slice_get self.now.items index }
        ensures within { OnSome result (index < self.now.room) }
        ensures fits { OnSome result (index < 2 ^ 63) }
    {
        let numbers = self.as_slice();
        if index < numbers.len() {
            Some(numbers[index])
        } else {
            None
        }
    }

    /// Takes all numbers out, in the time that they are many.
    pub fn clear(&mut self)
        ensures { self.new ≡ record { items = []; room = self.old.room } }
    {
        unset(&mut self.flags, &self.list[..self.count]);
        self.count = 0;
    }

    /// Adds numbers.
    pub fn add_all(&mut self, numbers: &[u32])
        requires { AreBelow self.old.room numbers.now }
        ensures { AreAdded numbers.now self.old self.new }
    {
        for number in numbers {
            self.add(*number);
        }
    }
}

/// Takes the flags of numbers away.
fn unset(flags: &mut Vec<bool>, numbers: &[u32])
    requires { AreBelow (length flags.old.items) numbers.now }
    ensures { AreUnset numbers.now flags.old.items flags.new.items }
{
    for number in numbers {
        flags[*number as usize] = false;
    }
}
