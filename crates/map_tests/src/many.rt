//! Many names of one key, many rules of one name, many selectors in a rule, and an element of many names.

use crate::documents::{Names, pair};
use crate::rules::selectors_of;
use rule_maps::RuleMap;
use selector_types::Selector;
use std::alloc::Global;
use std::test::Fail;
use stylo_base::{NoMemory, Text, key_of_text};

/// So many words there are of seven parts, each `Aa` or `BB`: they have one key.
const WORDS: u32 = 128;

/// Appends a word.
fn push_word(text: &mut Text, number: u32) -> Result<(), NoMemory> {
    let mut rest = number;
    for _ in 0..7 {
        text.push_str(if rest.is_multiple_of(2) { "Aa" } else { "BB" })?;
        rest /= 2;
    }
    Ok(())
}

/// A word behind some text.
fn word(alloc: Global, before: &str, number: u32) -> Result<Text, NoMemory> {
    let mut text = Text::of_str(alloc, before)?;
    push_word(&mut text, number)?;
    Ok(text)
}

/// All words, with blanks between them.
fn all_words(alloc: Global) -> Result<Text, NoMemory> {
    let mut text = Text::new(alloc);
    for number in 0..WORDS {
        push_word(&mut text, number)?;
        text.push_str(" ")?;
    }
    Ok(text)
}

/// A rule for each word.
fn rules_of_words(alloc: Global) -> Result<Vec<Vec<Selector>>, NoMemory> {
    let mut rules = Vec::new(alloc);
    for number in 0..WORDS {
        let text = word(alloc, ".", number)?;
        rules.push(selectors_of(alloc, text.as_str())?)?;
    }
    Ok(rules)
}

/// The candidates of an element of these classes.
fn candidates_of(alloc: Global, map: &RuleMap, class: &str) -> Result<Vec<u32>, NoMemory> {
    let names = Names {
        tag: "p",
        id: "",
        class,
        attribute: "x",
    };
    let doc = pair(alloc, names)?;
    if !doc.contains(2) {
        return Err(NoMemory);
    }
    map.candidates(alloc, &doc, 2)
}

/// Whether a list is 0, 1, 2 and so on, of so many.
fn counts_up(list: &[u32], many: u32) -> bool {
    let mut next: u32 = 0;
    for number in list {
        if *number != next {
            return false;
        }
        next = next.saturating_add(1);
    }
    next == many
}

/// Whether a word has the key of the first one, and is the class of its own rule alone.
fn is_apart(alloc: Global, map: &RuleMap, number: u32) -> Result<bool, NoMemory> {
    let text = word(alloc, "", number)?;
    let first = word(alloc, "", 0)?;
    let found = candidates_of(alloc, map, text.as_str())?;
    let same_key = key_of_text(text.as_str()) == key_of_text(first.as_str());
    Ok(same_key && found.as_slice() == [number].as_slice())
}

/// How many words are not.
fn count_unlike(alloc: Global) -> Result<u32, NoMemory> {
    let rules = rules_of_words(alloc)?;
    let map = RuleMap::of(alloc, &rules)?;
    let mut unlike: u32 = 0;
    for number in 0..WORDS {
        if !is_apart(alloc, &map, number)? {
            unlike = unlike.saturating_add(1);
        }
    }
    Ok(unlike)
}

#[test]
fn classes_of_one_key(rt: HostRuntime) -> Result<(), Fail> {
    let unlike = count_unlike(rt.alloc())?;
    assert_eq!(rt; unlike, 0);
    Ok(())
}

/// The candidates of an element whose class list is all words.
fn of_all_words(alloc: Global) -> Result<Vec<u32>, NoMemory> {
    let rules = rules_of_words(alloc)?;
    let map = RuleMap::of(alloc, &rules)?;
    let class = all_words(alloc)?;
    candidates_of(alloc, &map, class.as_str())
}

#[test]
fn all_classes_at_once(rt: HostRuntime) -> Result<(), Fail> {
    let found = of_all_words(rt.alloc())?;
    assert!(rt; counts_up(&found, WORDS));
    Ok(())
}

/// So many times the same list of selectors.
fn repeated(alloc: Global, text: &str, times: u32) -> Result<Vec<Vec<Selector>>, NoMemory> {
    let mut rules = Vec::new(alloc);
    for _ in 0..times {
        rules.push(selectors_of(alloc, text)?)?;
    }
    Ok(rules)
}

/// The candidates of an element of class `a` among so many rules of these selectors.
fn of_repeated(alloc: Global, text: &str, times: u32) -> Result<Vec<u32>, NoMemory> {
    let rules = repeated(alloc, text, times)?;
    let map = RuleMap::of(alloc, &rules)?;
    candidates_of(alloc, &map, "a")
}

#[test]
fn many_rules_of_one_class(rt: HostRuntime) -> Result<(), Fail> {
    let found = of_repeated(rt.alloc(), ".a, .b .a, .c", 300)?;
    assert!(rt; counts_up(&found, 300));
    Ok(())
}
