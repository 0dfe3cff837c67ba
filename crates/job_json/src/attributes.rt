//! The attributes of a node.

ghost use Rattle.std.specs.Prelude.{◌≡◌, ◌<◌, length, map, Some, Ok, IfOk, IfSome, OnOk};
ghost use Rattle.std.specs.Result.{result_map_both};
ghost use Rattle.std.specs.FinMap as finmap;
ghost use Rattle.serde_json.specs.Data.{Members, object};
ghost use Rattle.json_reader.specs.Taken.{taken, Says};
ghost use Rattle.dom_tree.specs.View.{attributes_of};
ghost use Rattle.job_json.specs.Checked.{map_ok};
ghost use Rattle.job_json.specs.NewNodes.{TellsLimits};
ghost use Rattle.job_json.specs.Slots.{slot_pair};
ghost use Rattle.job_json.specs.Parts.{attrs_read};
ghost use Rattle.job_json.specs.Kept.{AreSlotsOf, attrs_kept, filled, slots_read};

use crate::checked::Checked;
use crate::limits::{Passed, Within, past};
use crate::pointer::to_member;
use crate::slots::{Slot, Slots, bad_key};
use dom_tree::Attr;
use json::Reader;
use json_reader::{Stop, object};
use std::alloc::Global;
use stylo_base::limits::{ATTRIBUTE_LIMIT, VALUE_LIMIT};
use stylo_base::{Kind, NoMemory, Text};

/// The attributes of a node, and the room to read them.
#[derive(Drop)]
pub(crate) struct AttrList<'a> {
    alloc: Global,
    /// The first bad place.
    bad: Option<Text>,
    /// The limit that they pass first. Then the list is of no use.
    passed: Option<Passed>,
    list: Vec<Attr<'a>>,
    slots: Slots<'a>,
}

impl<'a> AttrList<'a> {
    /// No attributes.
    pub fn new(alloc: Global) -> AttrList<'a>
        ensures { attrs_kept result ≡ Ok (Ok finmap.empty) }
    {
        AttrList {
            alloc,
            bad: None,
            passed: None,
            list: Vec::new(alloc),
            slots: Slots::new(alloc),
        }
    }

    /// Removes all attributes.
    pub fn clear(&mut self)
        ensures { attrs_kept self.new ≡ Ok (Ok finmap.empty) }
    {
        self.bad = None;
        self.passed = None;
        self.list.clear();
    }

    /// The attributes, or the limit that they pass first, or the first bad place.
    pub fn judged(&self) -> Result<Within<&[Attr<'a>]>, &Text>
        ensures { result_map_both (map_ok (λ list. attributes_of list.now)) (λ path. path.now) result
            ≡ attrs_kept self.now }
    {
        if let Some(path) = &self.bad {
            return Err(path);
        }
        match self.passed {
            None => Ok(Ok(self.list.as_slice())),
            Some(passed) => Ok(Err(passed)),
        }
    }

    /// Takes the object of attributes.
    pub fn read(&mut self, reader: &mut Reader<'a>, depth: usize) -> Result<(), Stop>
        ensures ok { OnOk result (Says (λ d. attrs_read (Some d)) (attrs_kept self.new)
            (taken depth reader.old) reader.new) }
        ensures limits { OnOk result (IfSome (taken depth reader.old) (λ read. TellsLimits (Some read.0))) }
        ensures shorter { OnOk result (length reader.new < length reader.old) }
        ensures err { result ≡ Err Stop.NotJson → taken depth reader.old ≡ None }
    {
        self.slots.clear();
        if object(reader, depth, &mut self.slots)? {
            self.judge()?;
        } else {
            self.bad = Some(Text::new(self.alloc));
        }
        Ok(())
    }

    /// Makes attributes of the members that were found.
    fn judge(&mut self) -> Result<(), NoMemory>
        ensures { OnOk result ((ms : Members) → AreSlotsOf self.old.slots ms
            → attrs_read (Some (object ms)) ≡ attrs_kept self.new) }
    {
        if self.slots.are_many() {
            self.slots.sort()?;
            self.passed = Some((Kind::Attributes, ATTRIBUTE_LIMIT as u64));
            match bad_key(self.slots.as_slice()) {
                None => self.bad = None,
                Some(key) => self.bad = Some(to_member(self.alloc, key)?),
            }
            return Ok(());
        }
        match fill(self.alloc, self.slots.as_slice(), &mut self.list)? {
            Ok(passed) => {
                self.bad = None;
                self.passed = passed;
            }
            Err(path) => self.bad = Some(path),
        }
        Ok(())
    }
}

/// Makes attributes of the members: the limit of a value, where one passes it.
fn fill<'a>(
    alloc: Global,
    slots: &[Slot<'a>],
    list: &mut Vec<Attr<'a>>,
) -> Result<Checked<Option<Passed>>, NoMemory>
    ensures { IfOk result (λ passed.
        filled passed list.new.items ≡ slots_read (map slot_pair slots.now)) }
{
    list.clear();
    let mut passed = None;
    for slot in slots {
        let Some(attr) = slot.attr() else {
            return Ok(Err(to_member(alloc, slot.name)?));
        };
        passed = passed.or(past(Kind::Value, VALUE_LIMIT, attr.value.len()));
        list.push(attr)?;
    }
    Ok(Ok(passed))
}
