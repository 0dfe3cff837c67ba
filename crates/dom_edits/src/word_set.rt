//! The words of a value, each once.

ghost use Rattle.std.specs.Prelude.{◌≡◌, ◌<◌, [], IfOk, IfSome, OnOk, length, map, option_map, slice_get};
ghost use Rattle.std.specs.Str.{chars};
ghost use Rattle.stylo_base.specs.NameList.{interned, is_among};
ghost use Rattle.scene_model.specs.Words.{words};
ghost use Rattle.dom_tree.specs.Classes.{distinct_from};
ghost use Rattle.dom_tree.specs.Labels.{class_words};
ghost use Rattle.dom_edits.specs.ClassNames.{class_text, class_texts};
ghost use Rattle.dom_edits.specs.WordSets.{IsWordSet, texts_of};

use crate::word::Word;
use dom_tree::{ElementNames, NameKind};
use smallvec::SmallVec;
use std::alloc::Global;
use stylo_base::{Names, NoMemory};

/// So many words are looked through one by one. More have an index.
const FEW: usize = 16;

/// Words, each once, in the order of their first use.
#[derive(Drop)]
pub(crate) struct WordSet<'a> {
    pub words: SmallVec<Word<'a>, 4>,
    /// The same words, where they are more than a few, else none.
    pub index: Option<Box<Names>>,
}

impl<'a> WordSet<'a> {
    /// The words of a value, or none.
    pub fn of(alloc: Global, value: Option<&'a str>) -> Result<WordSet<'a>, NoMemory>
        ensures words { IfOk result (λ set.
            texts_of set ≡ class_words (option_map (λ text. chars text.now) value.entry)) }
        ensures set { IfOk result (λ set. IsWordSet set) }
    {
        let mut set = WordSet {
            words: SmallVec::new(alloc),
            index: None,
        };
        if let Some(value) = value {
            set.add_words(alloc, value)?;
        }
        Ok(set)
    }

    /// The classes among the names of an element, of which none is cut or hashed again.
    pub fn of_classes(alloc: Global, names: &'a ElementNames<'_>) -> Result<WordSet<'a>, NoMemory>
        ensures words { IfOk result (λ set. texts_of set ≡ distinct_from [] (class_texts names.now)) }
        ensures set { IfOk result (λ set. IsWordSet set) }
    {
        let mut set = WordSet {
            words: SmallVec::new(alloc),
            index: None,
        };
        for index in 0..names.len() {
            set.add_class(alloc, names, index)?;
        }
        Ok(set)
    }

    /// Adds one of the names of an element, if it is that of a class.
    fn add_class(
        &mut self,
        alloc: Global,
        names: &'a ElementNames<'_>,
        index: usize,
    ) -> Result<(), NoMemory>
        requires set { IsWordSet self.old }
        requires within { index < length names.now }
        ensures words { OnOk result (IfSome (slice_get names.now index) (λ name.
            texts_of self.new ≡ distinct_from (texts_of self.old) (class_text name))) }
        ensures set { OnOk result (IsWordSet self.new) }
    {
        match names.kind(index) {
            NameKind::Class => {
                let word = Word::keyed(names.text(index), names.key(index));
                self.add(alloc, word)
            }
            NameKind::Tag | NameKind::Id => Ok(()),
        }
    }

    /// Adds the words of a value.
    fn add_words(&mut self, alloc: Global, value: &'a str) -> Result<(), NoMemory>
        requires { IsWordSet self.old }
        ensures words { OnOk result (texts_of self.new ≡ distinct_from (texts_of self.old) (words (chars value.now))) }
        ensures set { OnOk result (IsWordSet self.new) }
    {
        for word in value.split_ascii_whitespace() {
            self.add(alloc, Word::of(word))?;
        }
        Ok(())
    }

    /// Whether a word is in the set. It takes no memory.
    pub fn has(&self, word: &Word) -> bool
        requires { IsWordSet self.now }
        ensures { result ≡ is_among (chars word.now.text.now) (texts_of self.now) }
    {
        match &self.index {
            None => is_one_of(self.words.as_slice(), word),
            Some(index) => index.find(word.text).is_some(),
        }
    }

    /// Adds a word, if it is not in the set.
    fn add(&mut self, alloc: Global, word: Word<'a>) -> Result<(), NoMemory>
        requires { IsWordSet self.old }
        ensures words { OnOk result (texts_of self.new ≡ interned (texts_of self.old) (chars word.entry.text.now)) }
        ensures set { OnOk result (IsWordSet self.new) }
    {
        if self.has(&word) {
            return Ok(());
        }
        if self.words.len() == FEW {
            self.index = Some(index_of(alloc, self.words.as_slice())?);
        }
        name_in(&mut self.index, word.text)?;
        self.words.push(word)?;
        Ok(())
    }
}

/// Whether a word is one of some.
fn is_one_of(words: &[Word], word: &Word) -> bool
    ensures { result ≡ is_among (chars word.now.text.now) (map (λ word. chars word.text.now) words.now) }
{
    for other in words {
        if word.is(other) {
            return true;
        }
    }
    false
}

/// An index of some words.
fn index_of(alloc: Global, words: &[Word]) -> Result<Box<Names>, NoMemory>
    ensures { IfOk result (λ index.
        index.value ≡ distinct_from [] (map (λ word. chars word.text.now) words.now)) }
{
    let mut names = Names::new(alloc);
    name_all(&mut names, words)?;
    Ok(Box::new(alloc, names)?)
}

/// Gives each of some words a name.
fn name_all(names: &mut Names, words: &[Word]) -> Result<(), NoMemory>
    ensures { OnOk result (names.new ≡ distinct_from names.old (map (λ word. chars word.text.now) words.now)) }
{
    for word in words {
        names.intern(word.text)?;
    }
    Ok(())
}

/// Gives a word a name in an index, if there is one.
fn name_in(index: &mut Option<Box<Names>>, word: &str) -> Result<(), NoMemory>
    ensures { OnOk result (option_map (λ names. names.value) index.new
        ≡ option_map (λ names. interned names.value (chars word.now)) index.old) }
{
    if let Some(names) = index {
        names.intern(word)?;
    }
    Ok(())
}
