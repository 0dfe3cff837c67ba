//! Buckets of one kind, by name.

ghost use Rattle.std.specs.Prelude.{◌≡◌, ◌<◌, ◌≤◌, ◌∷◌, [], ◌++◌, ℕ, IfOk, IfSome, encode_utf8_all, length, map, slice_get, true};
ghost use Rattle.std.specs.List.{All, AllPairs};
ghost use Rattle.std.specs.Str.{chars};
ghost use Rattle.base_model.specs.Text.{Characters};
ghost use Rattle.stylo_base.specs.NameKey.{key_of};
ghost use Rattle.rule_maps.specs.Heads.{IsBefore, IsPart, key_under, part_of};
ghost use Rattle.rule_maps.specs.Rows.{AreHeads, AreSorted, IsRunEnd, named};

use crate::name_order::{compare_text, is_same};
use crate::order::sort_rows;
use crate::pair::Pair;
use crate::rows::Row;
use std::alloc::Global;
use stylo_base::{Atom, NoMemory};

/// A name, and the part of the pairs that is its bucket: from `first` up to `end`.
#[derive(Drop)]
pub(crate) struct Head {
    pub(crate) name: Atom,
    pub(crate) first: usize,
    pub(crate) end: usize,
}

/// Buckets of one kind, in the order of their names, each a part of one list. The keys of the names stand by
/// themselves, side by side, since a look-up mostly reads nothing else.
#[derive(Drop)]
pub(crate) struct Table {
    pub(crate) heads: Vec<Head>,
    pub(crate) keys: Vec<u64>,
    pub(crate) pairs: Vec<Pair>,
    ghost keyed: { keys.items ≡ map key_under heads.items },
    ghost rising: { AllPairs IsBefore heads.items },
    ghost within: { All (IsPart (length pairs.items)) heads.items },
}

impl Table {
    ghost use Rattle.rule_maps.specs.View.{under};

    /// That of rows: under each name its pairs, in their order. The only error is that memory ran out.
    pub(crate) fn of(alloc: Global, rows: Vec<Row<'_>>) -> Result<Table, NoMemory>
        ensures { IfOk result (λ table. (name : Characters)
            → under table name ≡ map (λ row. row.pair) (named name rows.entry.items)) }
    {
        let mut rows = rows;
        sort_rows(&mut rows)?;
        let heads = heads_of(alloc, &rows)?;
        Ok(Table {
            keys: keys_of(alloc, &heads)?,
            heads,
            pairs: pairs_of(alloc, &rows)?,
        })
    }

    /// Whether nothing is under any name.
    #[inline]
    pub(crate) fn is_empty(&self) -> bool
        ensures { result ≡ true → (name : Characters) → under self.now name ≡ [] }
    {
        self.keys.is_empty()
    }

    /// The pairs under a name, whose key is known. None: no selector is under it.
    #[inline]
    pub(crate) fn find(&self, key: u64, name: &str) -> &[Pair]
        requires { key ≡ key_of (encode_utf8_all (chars name.now)) }
        ensures { result.now ≡ under self.now (chars name.now) }
    {
        match self.keys.binary_search(&key) {
            Ok(index) => self.find_from(index, key, name),
            Err(_) => &[],
        }
    }

    /// The same, where a name of this key stands at the index: mostly it is the one.
    #[inline]
    fn find_from(&self, index: usize, key: u64, name: &str) -> &[Pair]
        requires key { key ≡ key_of (encode_utf8_all (chars name.now)) }
        requires there { index < length self.now.heads.items }
        ensures { result.now ≡ under self.now (chars name.now) }
    {
        if self.heads[index].name.as_str() == name {
            return self.part(index);
        }
        self.find_by_text(key, name)
    }

    /// The same, where several names have this key.
    #[inline(never)]
    fn find_by_text(&self, key: u64, name: &str) -> &[Pair]
        requires { key ≡ key_of (encode_utf8_all (chars name.now)) }
        ensures { result.now ≡ under self.now (chars name.now) }
    {
        match self
            .heads
            .binary_search_by(|head| compare_text(&head.name, key, name))
        {
            Ok(index) => self.part(index),
            Err(_) => &[],
        }
    }

    /// The pairs of a head.
    #[inline]
    pub(crate) fn part(&self, index: usize) -> &[Pair]
        requires { index < length self.now.heads.items }
        ensures { IfSome (slice_get self.now.heads.items index)
            (λ head. result.now ≡ part_of self.now.pairs.items head) }
    {
        let head = &self.heads[index];
        &self.pairs[head.first..head.end]
    }
}

/// The keys of the names of heads.
fn keys_of(alloc: Global, heads: &[Head]) -> Result<Vec<u64>, NoMemory>
    ensures { IfOk result (λ keys. keys.items ≡ map key_under heads.now) }
{
    let mut keys = Vec::with_capacity(alloc, heads.len())?;
    for head in heads {
        keys.push(head.name.key())?;
    }
    Ok(keys)
}

/// The pairs of rows.
fn pairs_of(alloc: Global, rows: &[Row<'_>]) -> Result<Vec<Pair>, NoMemory>
    ensures { IfOk result (λ pairs. pairs.items ≡ map (λ row. row.pair) rows.now) }
{
    let mut pairs = Vec::with_capacity(alloc, rows.len())?;
    for row in rows {
        pairs.push(row.pair)?;
    }
    Ok(pairs)
}

/// The heads of rows that are sorted: one for each name, with the part of the rows that are of it.
fn heads_of(alloc: Global, rows: &[Row<'_>]) -> Result<Vec<Head>, NoMemory>
    requires { AreSorted rows.now }
    ensures { IfOk result (λ heads. AreHeads rows.now heads.items) }
{
    let mut heads = Vec::new(alloc);
    let mut first = 0;
    while first < rows.len() {
        let end = run_end(rows, first);
        heads.push(Head {
            name: rows[first].name.copy(alloc)?,
            first,
            end,
        })?;
        first = end;
    }
    Ok(heads)
}

/// Where those end that are of the name of the row at an index, one after another from there.
fn run_end(rows: &[Row<'_>], first: usize) -> usize
    requires { first < length rows.now }
    ensures { IsRunEnd rows.now first result }
{
    let name = rows[first].name;
    for end in first + 1..rows.len() {
        if !is_same(rows[end].name, name) {
            return end;
        }
    }
    rows.len()
}
