//! The members of the object of attributes, as they are kept until it ends.

ghost use Rattle.std.specs.Prelude.{◌≡◌, ◌<◌, ◌≤◌, true, not, length, map, Some, option_map, IfSome, OnOk, MatchResult};
ghost use Rattle.std.specs.Prelude.{set, insert};
ghost use Rattle.std.specs.Ordering.{nat_cmp};
ghost use Rattle.std.specs.Cmp.Lexicographic.{slice_cmp};
ghost use Rattle.serde_json.specs.Data.{Members, no_members};
ghost use Rattle.dom_tree.specs.View.{pair_of};
ghost use Rattle.job_json.specs.declared.slots.Slot.{Slot};
ghost use Rattle.job_json.specs.Words.{pair_from};
ghost use Rattle.job_json.specs.Slots.{AreTexts, put_slot, slot_pair, slots_of, begins_with, latest, first_bad_key};
ghost use Rattle.job_json.specs.Kept.{AreSlotsOf, AddsSlot};

use crate::name::is_name;
use dom_tree::Attr;
use json::Reader;
use json_reader::{KeepMembers, Stop, text};
use std::alloc::Global;
use std::cmp::Ordering;
use stylo_base::NoMemory;
use stylo_base::limits::ATTRIBUTE_LIMIT;

/// A member of the object of attributes.
#[derive(Clone, Copy)]
pub(crate) struct Slot<'a> {
    pub name: &'a str,
    /// None: the value is no text.
    pub value: Option<&'a str>,
}

/// The members of the object of attributes: each key once, in the order of the keys, as long as
/// there are no more keys than an element may have; else all members, in the order in which they
/// were read.
#[derive(Drop)]
pub(crate) struct Slots<'a> {
    list: Vec<Slot<'a>>,
    are_many: bool,
}

impl<'a> Slot<'a> {
    /// The member with a key and a value, which are both UTF-8.
    fn of(name: &'a str, value: Option<&'a str>) -> Slot<'a>
        ensures name { result.name.now ≡ name.now }
        ensures value { option_map (λ t. t.now) result.value ≡ option_map (λ t. t.now) value.entry }
        ensures texts { AreTexts (slot_pair result) }
    {
        match value {
            Some(text) => Slot::with_text(name, text),
            None => Slot { name, value: None },
        }
    }

    /// The member with a key and a text.
    fn with_text(name: &'a str, text: &'a str) -> Slot<'a>
        ensures name { result.name.now ≡ name.now }
        ensures value { option_map (λ t. t.now) result.value ≡ Some text.now }
        ensures texts { AreTexts (slot_pair result) }
    {
        Slot {
            name,
            value: Some(text),
        }
    }

    /// The attribute that the member is. None: its key is no name, or its value no text.
    pub fn attr(self) -> Option<Attr<'a>>
        ensures pair { option_map pair_of result
            ≡ pair_from self.entry.name.now (option_map (λ t. t.now) self.entry.value) }
        ensures text { IfSome result (λ attr. option_map (λ t. t.now) self.entry.value ≡ Some attr.value.now) }
    {
        let value = self.value?;
        if is_name(self.name) {
            Some(Attr {
                name: self.name,
                value,
            })
        } else {
            None
        }
    }
}

impl<'a> KeepMembers<'a> for Slots<'a> {
    ghost use Rattle.job_json.specs.Kept.{AreSlotsOf};

    ghost keeps = { AreSlotsOf };

    fn member(&mut self, key: &'a str, reader: &mut Reader<'a>, depth: usize) -> Result<(), Stop> {
        let value = text(reader, depth)?;
        self.add(Slot::of(key, value))?;
        Ok(())
    }
}

impl<'a> Slots<'a> {
    /// No members.
    pub fn new(alloc: Global) -> Slots<'a>
        ensures { AreSlotsOf result no_members }
    {
        Slots {
            list: Vec::new(alloc),
            are_many: false,
        }
    }

    /// Removes all members.
    pub fn clear(&mut self)
        ensures { AreSlotsOf self.new no_members }
    {
        self.list.clear();
        self.are_many = false;
    }

    /// Whether there are more keys than an element may have attributes.
    pub fn are_many(&self) -> bool
        ensures { result ≡ self.now.are_many }
    {
        self.are_many
    }

    /// The members that are kept.
    pub fn as_slice(&self) -> &[Slot<'a>]
        ensures { result.now ≡ self.now.list.items }
    {
        self.list.as_slice()
    }

    /// Adds a member, in the place of one with its key where each key is kept once.
    fn add(&mut self, slot: Slot<'a>) -> Result<(), NoMemory>
        ensures { OnOk result (AddsSlot self.old slot.entry self.new) }
    {
        if self.are_many {
            self.list.push(slot)?;
            return Ok(());
        }
        match place_of(self.list.as_slice(), slot.name) {
            Ok(place) => self.list[place] = slot,
            Err(place) if self.list.len() < ATTRIBUTE_LIMIT => {
                insert_at(&mut self.list, place, slot)?;
            }
            Err(_) => {
                self.list.push(slot)?;
                self.are_many = true;
            }
        }
        Ok(())
    }

    /// Puts the members in the order of the keys, those of one key in the order in which they were
    /// read.
    pub fn sort(&mut self) -> Result<(), NoMemory>
        ensures same { OnOk result (self.new.are_many ≡ self.old.are_many) }
        ensures sorted { OnOk result ((ms : Members) → AreSlotsOf self.old ms → self.old.are_many ≡ true
            → latest (map slot_pair self.new.list.items) ≡ slots_of ms) }
    {
        self.list.sort_by(
            |a: &Slot<'_>, b: &Slot<'_>| -> Ordering
                ensures { result ≡ slice_cmp nat_cmp a.now.name.now b.now.name.now }
            { a.name.cmp(b.name) },
        )?;
        Ok(())
    }
}

/// Inserts a member at a place, which most often is the end.
fn insert_at<'a>(list: &mut Vec<Slot<'a>>, place: usize, slot: Slot<'a>) -> Result<(), NoMemory>
    requires { place ≤ length list.old.items }
    ensures { OnOk result (list.new.items ≡ insert list.old.items place slot.entry) }
{
    if place == list.len() {
        list.push(slot)?;
    } else {
        list.insert(place, slot)?;
    }
    Ok(())
}

/// Ok: the place of the slot with this key. Err: the place where a slot with it belongs.
fn place_of(slots: &[Slot<'_>], name: &str) -> Result<usize, usize>
    ensures { MatchResult result
        (λ place. (place < length slots.now)
        × ((slot : Slot) → slot.name.now ≡ name.now → put_slot slot slots.now ≡ set slots.now place slot))
        (λ place. (place ≤ length slots.now)
        × ((slot : Slot) → slot.name.now ≡ name.now → put_slot slot slots.now ≡ insert slots.now place slot)) }
{
    for place in 0..slots.len() {
        match name.cmp(slots[place].name) {
            Ordering::Less => return Err(place),
            Ordering::Equal => return Ok(place),
            Ordering::Greater => {}
        }
    }
    Err(slots.len())
}

/// The first key, of those in order, that is no attribute with the last of its values.
pub(crate) fn bad_key<'a>(slots: &[Slot<'a>]) -> Option<&'a str>
    ensures { option_map (λ key. key.now) result ≡ first_bad_key (latest (map slot_pair slots.now)) }
{
    for place in 0..slots.len() {
        let slot = slots[place];
        if is_latest(slot.name, &slots[place + 1..]) && slot.attr().is_none() {
            return Some(slot.name);
        }
    }
    None
}

/// Whether what comes after a key has it no more.
fn is_latest(key: &str, after: &[Slot<'_>]) -> bool
    ensures { result ≡ not (begins_with key.now (map slot_pair after.now)) }
{
    match after {
        [] => true,
        [next, ..] => next.name != key,
    }
}
