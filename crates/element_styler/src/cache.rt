//! The styles that are known of other elements.

ghost use Rattle.std.specs.Prelude.{◌≡◌, ℤ, List, IfOk, OnErr, OnOk, option_map, true};
ghost use Rattle.std.specs.Str.{chars};
ghost use Rattle.value_model.specs.Style.{Style as Computed};
ghost use Rattle.sheet_model.specs.Sources.{Sources};
ghost use Rattle.element_styler.specs.Cache.{AllRight, IsKnown, kept_key, kept_text, lent_key};

use crate::matched_rules::MatchedRule;
use std::alloc::Global;
use std::mem;
use stylo_base::NoMemory;

/// How many slots there are, at most.
const MOST_SLOTS: usize = 4_096;

/// The longest list of rules that is kept, so that what is kept stays small whatever the sheets.
const MOST_RULES: usize = 64;

/// The longest text of a `style` attribute that is kept, in bytes.
const LONGEST_TEXT: usize = 256;

/// What spreads the numbers of a key over the slots: 2^64 by the golden ratio, odd.
const SPREAD: u64 = 0x9e37_79b9_7f4a_7c15;

/// The parents that a style is known over.
#[derive(Clone, Copy, PartialEq, Eq)]
pub(crate) enum Over {
    /// Each parent with a style that has the inherited part of the style with this number.
    Part(usize),
    /// A parent that has the style with this number.
    Parent(usize),
}

/// What is known for a key.
#[derive(Clone, Copy)]
pub(crate) enum Known {
    /// Nothing.
    Nothing,
    /// That the element takes of its parent's style more than what is inherited, so that its style is
    /// kept for the parent alone.
    Takes,
    /// The style, by its number.
    Style(usize),
}

/// What the style of an element depends on: which parents it has, the rules that match it, and the text of
/// its `style` attribute, if it has one.
#[derive(Clone, Copy)]
pub(crate) struct StyleKey<'a> {
    pub(crate) over: Over,
    pub(crate) matched: &'a [MatchedRule],
    pub(crate) text: Option<&'a str>,
}

impl StyleKey<'_> {
    /// Whether it is short enough to be kept.
    #[inline]
    pub(crate) fn is_short(&self) -> bool {
        self.matched.len() <= MOST_RULES
            && self.text.map_or(true, |text| text.len() <= LONGEST_TEXT)
    }
}

/// Styles that were computed. The style of an element depends on three things: its parent's style, the
/// rules that match it, and its `style` attribute. Of the first it depends mostly on what is inherited
/// alone, so it is kept with the part of that style, by number; where the element takes more, that is
/// kept with the part, and its style with the number of the parent's style. Another element for which
/// all three are the same has the same style. Styles are given by their numbers in a table. Each slot
/// has two entries, and what is new replaces the older one. The model is the matched properties cache of
/// Blink.
#[derive(Drop)]
pub(crate) struct MatchedRulesCache {
    pairs: Vec<Pair>,
}

/// The entries of a slot.
#[derive(Drop)]
struct Pair {
    newer: Entry,
    older: Entry,
}

/// What is known, and what it is known for.
#[derive(Drop)]
struct Entry {
    over: Over,
    matched: Vec<MatchedRule>,
    has_text: bool,
    text: String,
    known: Known,
}

impl MatchedRulesCache {
    /// Nothing yet. It has so many slots, up to 4,096: a power of two serves best.
    pub(crate) fn start(alloc: Global, slots: usize) -> Result<MatchedRulesCache, NoMemory>
        ensures { (sources : Sources) (size : ℤ) (table : List Computed)
            → IfOk result (λ cache. AllRight sources size table cache) }
    {
        let slots = slots.min(MOST_SLOTS);
        let mut pairs = Vec::with_capacity(alloc, slots)?;
        for _ in 0..slots {
            pairs.push(Pair {
                newer: Entry::empty(alloc),
                older: Entry::empty(alloc),
            })?;
        }
        Ok(MatchedRulesCache { pairs })
    }

    /// Forgets all.
    pub(crate) fn clear(&mut self)
        ensures { (sources : Sources) (size : ℤ) (table : List Computed)
            → AllRight sources size table self.new }
    {
        for pair in self.pairs.iter_mut() {
            pair.newer.known = Known::Nothing;
            pair.older.known = Known::Nothing;
        }
    }

    /// What is known for a key. Where all that is kept is right, so is it.
    #[inline]
    pub(crate) fn find(&self, key: &StyleKey<'_>) -> Known
        ensures { (sources : Sources) (size : ℤ) (table : List Computed) → AllRight sources size table self.now
            → IsKnown sources size table (lent_key key.now) result }
    {
        let Some(pair) = self.pairs.get(self.slot(key)) else {
            return Known::Nothing;
        };
        if pair.newer.is_for(key) {
            pair.newer.known
        } else if pair.older.is_for(key) {
            pair.older.known
        } else {
            Known::Nothing
        }
    }

    /// Keeps what is known for a key, in the place of the older entry of its slot, or of the entry that there
    /// is for it.
    pub(crate) fn keep(&mut self, key: &StyleKey<'_>, known: Known) -> Result<(), NoMemory>
        ensures { (sources : Sources) (size : ℤ) (table : List Computed) → AllRight sources size table self.old
            → IsKnown sources size table (lent_key key.now) known → AllRight sources size table self.new }
    {
        let slot = self.slot(key);
        if let Some(pair) = self.pairs.get_mut(slot) {
            if !pair.newer.is_for(key) {
                mem::swap(&mut pair.newer, &mut pair.older);
            }
            pair.newer.write(key, known)?;
        }
        Ok(())
    }

    /// The slot for a key.
    #[inline]
    fn slot(&self, key: &StyleKey<'_>) -> usize {
        let over = match key.over {
            Over::Part(number) => number as u64,
            Over::Parent(number) => !(number as u64),
        };
        let mut sum = over.wrapping_mul(SPREAD);
        for one in key.matched {
            sum = (sum ^ one.rule as u64).wrapping_mul(SPREAD);
        }
        if let Some(text) = key.text {
            for byte in text.as_bytes() {
                sum = (sum ^ u64::from(*byte)).wrapping_mul(SPREAD);
            }
        }
        (sum >> 40) as usize & self.pairs.len().wrapping_sub(1)
    }
}

impl Entry {
    /// Nothing is known.
    fn empty(alloc: Global) -> Entry
        ensures { result.known ≡ Known.Nothing }
    {
        Entry {
            over: Over::Part(0),
            matched: Vec::new(alloc),
            has_text: false,
            text: String::new(alloc),
            known: Known::Nothing,
        }
    }

    /// Whether it is for this key.
    #[inline]
    fn is_for(&self, key: &StyleKey<'_>) -> bool
        ensures { result ≡ true → kept_key self.now ≡ lent_key key.now }
    {
        self.over == key.over && self.matched.as_slice() == key.matched && self.has(key.text)
    }

    /// Whether it is for this text of the `style` attribute, or for none.
    #[inline]
    fn has(&self, text: Option<&str>) -> bool
        ensures { result ≡ true → kept_text self.now ≡ option_map (λ t. chars t.now) text.entry }
    {
        match text {
            Some(text) => self.has_text && self.text.as_str() == text,
            None => !self.has_text,
        }
    }

    /// Makes it what is known for this key. Out of memory, it knows nothing.
    fn write(&mut self, key: &StyleKey<'_>, known: Known) -> Result<(), NoMemory>
        ensures key { OnOk result (kept_key self.new ≡ lent_key key.now) }
        ensures known { OnOk result (self.new.known ≡ known) }
        ensures nothing { OnErr result (self.new.known ≡ Known.Nothing) }
    {
        self.known = Known::Nothing;
        self.over = key.over;
        self.matched.clear();
        self.matched.extend_from_slice(key.matched)?;
        self.has_text = key.text.is_some();
        self.text.clear();
        self.text.push_str(key.text.unwrap_or(""))?;
        self.known = known;
        Ok(())
    }
}
