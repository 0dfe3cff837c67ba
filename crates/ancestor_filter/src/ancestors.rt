//! The ancestors of an element, with the filter of their names.

ghost use Rattle.std.specs.Prelude.{◌≡◌, ◌==◌, ◌∷◌, ◌++◌, ℕ, List, IfOk, OnOk, drop, false, reverse, slice_get};
ghost use Rattle.std.specs.List.{AllByRecursion};
ghost use Rattle.std.specs.Option.{option_map_or};
ghost use Rattle.scene_model.specs.Lookups.{IsElement};
ghost use Rattle.scene_model.specs.Ancestors.{ancestors};
ghost use Rattle.scene_model.specs.Document.{Document};
ghost use Rattle.scene_model.specs.Valid.{IsValid};
ghost use Rattle.ancestor_model.specs.Counts.{full};
ghost use Rattle.ancestor_filter.specs.Names.{StandsFor};
ghost use Rattle.ancestor_filter.specs.Paths.{IsBelow, IsNext, IsRight, IsRightAt, IsRightIn, nothing_pushed};

use crate::Filter;
use dom_tree::Doc;
use std::alloc::Global;
use std::marker::Model;
use stylo_base::NoMemory;

/// An element and its ancestors, or no element, and the filter of their names.
#[derive(Drop)]
pub struct Ancestors {
    filter: Filter,
    /// From the root on.
    path: Vec<u32>,
}

impl Model for Ancestors {
    ghost use Rattle.std.specs.Prelude.{reverse};
    ghost use Rattle.ancestor_filter.specs.Paths.{Pushed};

    ghost Value = { Pushed };

    ghost view = { λ a. record { elements = reverse a.path.items; filter = a.filter } };
}

impl Ancestors {
    /// Ancestors of no element. The only error is that memory ran out.
    pub fn start(alloc: Global) -> Result<Ancestors, NoMemory>
        ensures nothing { IfOk result (λ a. a ≡ nothing_pushed 0) }
        ensures right { IfOk result (λ a. (doc : Document) → IsRight doc.elements a) }
    {
        Ok(Ancestors {
            filter: Filter::start(alloc)?,
            path: Vec::new(alloc),
        })
    }

    /// Makes it the ancestors of `x`. From those of an element before it in tree order each step adds and takes away
    /// only what differs. The only error is that memory ran out; then it is an element and its ancestors, or none.
    pub fn reach(&mut self, doc: &Doc, x: u32) -> Result<(), NoMemory>
        requires there { IsElement doc.now.elements x }
        requires right { IsRight doc.now.elements self.now }
        ensures ok { OnOk result (self.new.elements ≡ ancestors doc.now.elements x) }
        ensures right { IsRight doc.now.elements self.new }
    {
        match doc.parent(x) {
            Some(p) => self.reach_below(doc, x, p),
            None => {
                self.clear();
                Ok(())
            }
        }
    }

    /// The filter of the names of the elements.
    #[inline]
    pub fn filter(&self) -> &Filter
        ensures { result.now ≡ self.now.filter }
    {
        &self.filter
    }

    /// Takes all elements away.
    pub fn clear(&mut self)
        ensures nothing { self.new ≡ nothing_pushed 0 }
        ensures right { (doc : Document) → IsRight doc.elements self.new }
    {
        self.path.clear();
        self.filter.clear();
    }

    /// Takes all elements away, and the filter stands for any elements.
    pub fn saturate(&mut self)
        ensures nothing { self.new ≡ nothing_pushed full }
        ensures right { (doc : Document) → IsRight doc.elements self.new }
    {
        self.path.clear();
        self.filter.saturate();
    }

    /// Makes it the ancestors of a child of `p`.
    fn reach_below(&mut self, doc: &Doc, x: u32, p: u32) -> Result<(), NoMemory>
        requires below { IsBelow doc.now.elements x p }
        requires right { IsRight doc.now.elements self.now }
        ensures ok { OnOk result (self.new.elements ≡ ancestors doc.now.elements x) }
        ensures right { IsRight doc.now.elements self.new }
    {
        if let Some(q) = doc.parent(p) {
            if self.is_at(q) {
                self.enter(doc, p)?;
                return Ok(());
            }
        }
        self.leave_to(doc, p);
        self.settle(doc, x, p)
    }

    /// The same, where nothing is left or `p` is the last that was added.
    fn settle(&mut self, doc: &Doc, x: u32, p: u32) -> Result<(), NoMemory>
        requires below { IsBelow doc.now.elements x p }
        requires at { IsRightAt doc.now.elements p self.now }
        ensures ok { OnOk result (self.new.elements ≡ ancestors doc.now.elements x) }
        ensures right { IsRight doc.now.elements self.new }
    {
        match self.top() {
            Some(_) => Ok(()),
            None => self.descend(doc, x),
        }
    }

    /// Takes all elements away, and adds the ancestors of `x`, from the root on. The only error is that memory ran out.
    fn descend(&mut self, doc: &Doc, x: u32) -> Result<(), NoMemory>
        requires { IsElement doc.now.elements x }
        ensures ok { OnOk result (self.new.elements ≡ ancestors doc.now.elements x) }
        ensures right { IsRight doc.now.elements self.new }
    {
        self.clear();
        match climb(&mut self.path, doc, x) {
            Ok(()) => {
                turn(&mut self.path);
                push_each(&mut self.filter, doc, &self.path);
                Ok(())
            }
            Err(error) => {
                self.path.clear();
                Err(error)
            }
        }
    }

    /// The last that was added.
    #[inline]
    fn top(&self) -> Option<u32>
        ensures { result ≡ slice_get self.now.elements 0 }
    {
        self.path.last().copied()
    }

    /// Whether this is the last that was added.
    #[inline]
    fn is_at(&self, p: u32) -> bool
        ensures { result ≡ option_map_or (λ y. y == p) (slice_get self.now.elements 0) false }
    {
        match self.top() {
            Some(y) => y == p,
            None => false,
        }
    }

    /// Adds an element. The only error is that memory ran out; then nothing is added.
    fn enter(&mut self, doc: &Doc, x: u32) -> Result<(), NoMemory>
        requires { IsNext doc.now.elements x self.now }
        ensures ok { OnOk result (self.new.elements ≡ x ∷ self.old.elements) }
        ensures right { IsRight doc.now.elements self.new }
    {
        self.path.push(x)?;
        self.filter.push(doc, x);
        Ok(())
    }

    /// Takes the last away.
    fn leave(&mut self, doc: &Doc)
        requires { IsRightIn doc.now.elements self.now }
        ensures rest { self.new.elements ≡ drop 1 self.old.elements }
        ensures right { IsRight doc.now.elements self.new }
    {
        if let Some(x) = self.path.pop() {
            self.filter.pop(doc, x);
        }
    }

    /// Takes away what was added after `p`, or all.
    fn leave_to(&mut self, doc: &Doc, p: u32)
        requires { IsRightIn doc.now.elements self.now }
        ensures { IsRightAt doc.now.elements p self.new }
    {
        while let Some(y) = self.top() {
            if y == p {
                return;
            }
            self.leave(doc);
        }
    }
}

/// Appends the ancestors of an element, from its parent on. The only error is that memory ran out.
fn climb(path: &mut Vec<u32>, doc: &Doc, x: u32) -> Result<(), NoMemory>
    requires { IsElement doc.now.elements x }
    ensures ok { OnOk result (path.new.items ≡ path.old.items ++ ancestors doc.now.elements x) }
    ensures valid { IsValid doc.now.elements }
{
    let mut at = x;
    while let Some(p) = doc.parent(at) {
        path.push(p)?;
        at = p;
    }
    Ok(())
}

/// Adds elements to the filter, one after another.
fn push_each(filter: &mut Filter, doc: &Doc, elements: &[u32])
    requires { AllByRecursion (IsElement doc.now.elements) elements.now }
    ensures { (l : List ℕ) → StandsFor doc.now.elements l filter.old
        → StandsFor doc.now.elements (reverse elements.now ++ l) filter.new }
{
    for index in 0..elements.len() {
        let x = elements[index];
        filter.push(doc, x);
    }
}

/// Turns a list round.
fn turn(list: &mut Vec<u32>)
    ensures { list.new.items ≡ reverse list.old.items }
{
    list.as_mut_slice().reverse();
}
