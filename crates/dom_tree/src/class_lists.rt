//! The class lists of a document: the distinct words of each value of `class`.

ghost use Rattle.std.specs.Prelude.{◌≡◌, ◌<◌, ◌++◌, ◌∷◌, [], IfOk, IfSome, OnErr, OnOk, Some, length, map, slice_get};
ghost use Rattle.std.specs.Str.{chars};
ghost use Rattle.dom_tree.specs.Classes.{AreInOrder, AreNames, distinct_words, list_of};
ghost use Rattle.dom_tree.specs.Kept.{KeepsTexts, text_of};

use crate::class_names::ClassNames;
use crate::span::Span;
use indexmap::IndexSet;
use std::alloc::Global;
use std::marker::Model;
use stylo_base::{Name, Names, NoMemory};

/// Class lists, each of the distinct words of a text. Contracts see the words of each.
#[derive(Drop)]
pub(crate) struct ClassLists {
    /// The words.
    names: Names,
    /// Of each list the names in the order of the text, and behind them the same names in the order of their numbers.
    list: Vec<Name>,
    spans: Vec<Span>,
    /// The words of the list that is appended; used again for each one.
    words: IndexSet<Name>,
    /// The same in the order of their numbers.
    sorted: Vec<Name>,
}

impl Model for ClassLists {
    ghost use Rattle.std.specs.Prelude.{List, map as mapped};
    ghost use Rattle.scene_model.specs.Element.{Characters};
    ghost use Rattle.dom_tree.specs.Classes.{AreLists, list_seen};

    ghost Value = { List (List Characters) };

    ghost view = { λ c. mapped (list_seen c.names c.list.items) c.spans.items };

    ghost invariant = { λ c. AreLists c.names c.list.items c.spans.items };
}

impl ClassLists {
    /// No lists.
    pub fn new(alloc: Global) -> ClassLists
        ensures { result ≡ [] }
    {
        ClassLists {
            names: Names::new(alloc),
            list: Vec::new(alloc),
            spans: Vec::new(alloc),
            words: IndexSet::new(alloc),
            sorted: Vec::new(alloc),
        }
    }

    /// The same lists again.
    pub fn copy(&self, alloc: Global) -> Result<ClassLists, NoMemory>
        ensures { IfOk result (λ lists. lists ≡ self.now) }
    {
        Ok(ClassLists {
            list: Vec::from_slice(alloc, &self.list)?,
            spans: Vec::from_slice(alloc, &self.spans)?,
            names: self.names.copy(alloc)?,
            words: IndexSet::new(alloc),
            sorted: Vec::new(alloc),
        })
    }

    /// How many lists there are.
    pub fn len(&self) -> usize
        ensures { result ≡ length self.now }
    {
        self.spans.len()
    }

    /// Appends the list of the words of a text.
    pub fn push(&mut self, text: &str) -> Result<(), NoMemory>
        ensures ok { OnOk result (self.new ≡ self.old ++ distinct_words (chars text.now) ∷ []) }
        ensures err { OnErr result (self.new ≡ self.old) }
    {
        name_words(&mut self.names, &mut self.words, text)?;
        sort_names(&mut self.sorted, self.words.as_slice())?;
        let span = Span::new(self.list.len(), self.words.len())?;
        self.list.extend_from_slice(self.words.as_slice())?;
        self.list.extend_from_slice(&self.sorted)?;
        self.spans.push(span)?;
        Ok(())
    }

    /// The names of a list, or of none.
    pub fn of(&self, index: Option<u32>) -> ClassNames<'_>
        requires { IfSome index (λ k. k < length self.now) }
        ensures { result ≡ list_of self.now index }
    {
        match index {
            Some(index) => self.at(index as usize),
            None => ClassNames::new(&self.names, &[], &[]),
        }
    }

    /// The names of a list.
    #[inline]
    fn at(&self, index: usize) -> ClassNames<'_>
        requires { index < length self.now }
        ensures { slice_get self.now index ≡ Some result }
    {
        let span = self.spans[index];
        ClassNames::new(&self.names, span.of(&self.list), span.behind_of(&self.list))
    }
}

/// Puts names into `sorted` in the order of their numbers.
fn sort_names(sorted: &mut Vec<Name>, names: &[Name]) -> Result<(), NoMemory>
    ensures { OnOk result (AreInOrder names.now sorted.new.items) }
{
    sorted.clear();
    sorted.extend_from_slice(names)?;
    sorted.sort_unstable();
    Ok(())
}

/// Puts the words of a text into `found`, each once.
fn name_words(names: &mut Names, found: &mut IndexSet<Name>, text: &str) -> Result<(), NoMemory>
    ensures words { OnOk result (map (text_of names.new) found.new.keys ≡ distinct_words (chars text.now)) }
    ensures named { OnOk result (AreNames names.new found.new.keys) }
    ensures kept { KeepsTexts names.old names.new }
{
    found.clear();
    for word in text.split_ascii_whitespace() {
        let name = names.intern(word)?;
        found.insert(name)?;
    }
    Ok(())
}
