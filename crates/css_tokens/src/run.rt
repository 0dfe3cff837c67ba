//! Runs of units: names, and the texts of strings, urls and comments.

ghost use Rattle.std.specs.Prelude.{◌≡◌, ◌≤◌, ◌++◌, IfOk, IfSome, IsSome, OnOk, length, option_to_list, take, true};
ghost use Rattle.stylo_base.specs.Ascii.{is_all_ascii};
ghost use Rattle.syntax_model.specs.TextUnits.{len_of, said_of};
ghost use Rattle.css_tokens.specs.Scanned.{said_in, unit_by};

use crate::text_unit::{Grammar, TextUnit};
use std::alloc::Global;
use std::str;
use stylo_base::{NoMemory, Text};

/// Up to so many characters of ASCII are copied byte by byte.
const SHORT_LEN: usize = 16;

/// What a run says.
#[derive(Clone, Copy)]
pub(crate) enum Said<'a> {
    /// These characters, each of which says itself.
    Plain(&'a [char]),
    /// What the units say that a text begins with.
    Units { grammar: Grammar, text: &'a [char] },
}

/// How many characters a run has, and what it says.
#[derive(Clone, Copy)]
pub(crate) struct Run<'a> {
    pub len: usize,
    pub said: Said<'a>,
}

/// The run that a text begins with.
pub(crate) fn scan_run(grammar: Grammar, text: &[char]) -> Run
    ensures len { result.len ≡ len_of (unit_by grammar) text.now }
    ensures inside { result.len ≤ length text.now }
    ensures said { said_in result.said ≡ said_of (unit_by grammar) text.now }
{
    let plain = grammar.plain_len(text);
    let (front, rest) = text.split_at(plain);
    if !grammar.may_go_on(rest) {
        return Run {
            len: plain,
            said: Said::Plain(front),
        };
    }
    Run {
        len: plain + run_len(grammar, rest),
        said: Said::Units { grammar, text },
    }
}

/// How many characters the run that a text begins with has.
pub(crate) fn run_len(grammar: Grammar, text: &[char]) -> usize
    ensures value { result ≡ len_of (unit_by grammar) text.now }
    ensures inside { result ≤ length text.now }
{
    let mut rest = text;
    let mut len = 0;
    loop {
        let plain = grammar.plain_len(rest);
        let (_, after) = rest.split_at(plain);
        len += plain;
        let taken = grammar.unit(after).taken;
        if taken == 0 {
            return len;
        }
        len += taken;
        rest = after.split_at(taken).1;
    }
}

/// What a run says, in a text that takes memory once.
pub(crate) fn text_of(alloc: Global, said: Said) -> Result<Text, NoMemory>
    ensures { IfOk result (λ text. text ≡ said_in said.entry) }
{
    match said {
        Said::Plain(text) => plain_text(alloc, text),
        Said::Units { grammar, text } => run_text(alloc, grammar, text),
    }
}

/// The text of these characters.
pub(crate) fn plain_text(alloc: Global, text: &[char]) -> Result<Text, NoMemory>
    ensures { IfOk result (λ said. said ≡ text.now) }
{
    let Some(bytes) = short_ascii(text) else {
        return text_by_blocks(alloc, text);
    };
    match str::from_utf8(&bytes[..text.len()]) {
        Ok(ascii) => Text::of_str(alloc, ascii),
        Err(_) => text_by_blocks(alloc, text),
    }
}

/// The bytes of these characters, where they are few and all in ASCII.
fn short_ascii(text: &[char]) -> Option<[u8; SHORT_LEN]>
    ensures short { IsSome result → length text.now ≤ 16 }
    ensures ascii { IsSome result → is_all_ascii text.now ≡ true }
    ensures bytes { IfSome result (λ bytes. take (length text.now) bytes ≡ text.now) }
{
    if text.len() > SHORT_LEN {
        return None;
    }
    let mut bytes = [0; SHORT_LEN];
    for at in 0..text.len() {
        if !text[at].is_ascii() {
            return None;
        }
        bytes[at] = text[at] as u8;
    }
    Some(bytes)
}

/// The text of these characters, block by block.
fn text_by_blocks(alloc: Global, text: &[char]) -> Result<Text, NoMemory>
    ensures { IfOk result (λ said. said ≡ text.now) }
{
    let mut said = Text::with_capacity(alloc, size_of(text))?;
    let mut rest = text;
    while !rest.is_empty() {
        let (block, after) = rest.split_at(rest.len().min(SHORT_LEN));
        push_block(&mut said, block)?;
        rest = after;
    }
    Ok(said)
}

/// Appends these characters.
fn push_block(said: &mut Text, block: &[char]) -> Result<(), NoMemory>
    ensures { OnOk result (said.new ≡ said.old ++ block.now) }
{
    let Some(bytes) = short_ascii(block) else {
        return push_each(said, block);
    };
    match str::from_utf8(&bytes[..block.len()]) {
        Ok(ascii) => said.push_str(ascii),
        Err(_) => push_each(said, block),
    }
}

/// Appends these characters, one by one.
fn push_each(said: &mut Text, characters: &[char]) -> Result<(), NoMemory>
    ensures { OnOk result (said.new ≡ said.old ++ characters.now) }
{
    for c in characters {
        said.push_char(*c)?;
    }
    Ok(())
}

/// How many bytes the text of these characters has.
fn size_of(text: &[char]) -> usize {
    let mut size = 0_usize;
    for c in text {
        size = size.wrapping_add(c.len_utf8());
    }
    size
}

/// What the run that a text begins with says.
fn run_text(alloc: Global, grammar: Grammar, text: &[char]) -> Result<Text, NoMemory>
    ensures { IfOk result (λ said. said ≡ said_of (unit_by grammar) text.now) }
{
    let mut said = Text::with_capacity(alloc, run_size(grammar, text))?;
    let mut rest = text;
    loop {
        let TextUnit { taken, said: one } = grammar.unit(rest);
        if taken == 0 {
            return Ok(said);
        }
        push_said(&mut said, one)?;
        rest = rest.split_at(taken).1;
    }
}

/// Appends what a unit says.
fn push_said(text: &mut Text, said: Option<char>) -> Result<(), NoMemory>
    ensures { OnOk result (text.new ≡ text.old ++ option_to_list said) }
{
    match said {
        Some(c) => text.push_char(c),
        None => Ok(()),
    }
}

/// How many bytes the text has that the run says.
fn run_size(grammar: Grammar, text: &[char]) -> usize {
    let mut rest = text;
    let mut size = 0_usize;
    loop {
        let TextUnit { taken, said } = grammar.unit(rest);
        if taken == 0 {
            return size;
        }
        size = size.saturating_add(said.map_or(0, char::len_utf8));
        rest = rest.split_at(taken).1;
    }
}
