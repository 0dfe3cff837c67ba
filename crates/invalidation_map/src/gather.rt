//! The rows of selectors.

ghost use Rattle.std.specs.Prelude.{◌≡◌, ◌++◌, [], IfOk, OnOk, map, option_map, option_to_list, true};
ghost use Rattle.std.specs.List.{flat_map};
ghost use Rattle.std.specs.List.Sorted.{IsPermutation};
ghost use Rattle.edit_model.specs.Dependencies.{touch_of as model_touch_of};
ghost use Rattle.selector_types.specs.SimpleView.{key_seen};
ghost use Rattle.selector_types.specs.View.{selector_of, selectors_of};
ghost use Rattle.dependency_map.specs.DepView.{dep_of, part_of, path_of};
ghost use Rattle.dom_edits.specs.TouchView.{touch_key, touch_seen};
ghost use Rattle.invalidation_map.specs.Rows.{row_of, rows_of, rows_of_selector};
ghost use Rattle.invalidation_map.specs.SharedRows.{AreWithin, IsAlone};

use crate::key_index::{KeyIndex, spread};
use crate::rows::InvalidationMap;
use crate::selector_key::{is_touch_of, name_of};
use crate::shared::{DependencyRow, Shared};
use dependency_map::{Dep, Part, PathStep, deps};
use dom_edits::{Touch, TouchName};
use selector_types::{Key, Selector, Simple, key_of};
use std::alloc::Global;
use stylo_base::NoMemory;

impl InvalidationMap {
    ghost use Rattle.invalidation_map.specs.RowView.{rows_in};

    /// Those of the selectors of rules: of each rule a list.
    pub fn of(alloc: Global, rules: &[Vec<Selector>]) -> Result<InvalidationMap, NoMemory>
        ensures { IfOk result (λ d. IsPermutation
            (rows_of (flat_map (λ list. selectors_of list.items) rules.now)) (rows_in d)) }
    {
        let mut gathered = GatheredRows::new(alloc);
        for selectors in rules {
            gathered.push_all(alloc, selectors)?;
        }
        let GatheredRows { mut rows, shared } = gathered;
        rows.sort_by_key(|row| spread(row.touch.key()))?;
        let index = KeyIndex::of(alloc, keys_of(alloc, &rows)?)?;
        let style = Touch::Attribute(TouchName::of(alloc, "style")?);
        Ok(InvalidationMap {
            rows,
            index,
            shared,
            style,
        })
    }
}

/// The keys of the touches of rows.
fn keys_of(alloc: Global, rows: &[DependencyRow]) -> Result<Vec<u64>, NoMemory>
    ensures { IfOk result (λ keys. keys.items ≡ map (λ row. touch_key (touch_seen row.touch)) rows.now) }
{
    let mut keys = Vec::with_capacity(alloc, rows.len())?;
    for row in rows {
        keys.push(row.touch.key())?;
    }
    Ok(keys)
}

/// Rows that were gathered, and what they share.
#[derive(Drop)]
struct GatheredRows {
    rows: Vec<DependencyRow>,
    shared: Shared,
    ghost within: { AreWithin shared rows.items },
}

impl GatheredRows {
    ghost use Rattle.invalidation_map.specs.RowView.{rows_gathered};

    /// No rows.
    fn new(alloc: Global) -> GatheredRows
        ensures { rows_gathered result ≡ [] }
    {
        GatheredRows {
            rows: Vec::new(alloc),
            shared: Shared {
                paths: Vec::new(alloc),
                keys: Vec::new(alloc),
            },
        }
    }

    /// Appends the rows of selectors.
    fn push_all(&mut self, alloc: Global, selectors: &[Selector]) -> Result<(), NoMemory>
        ensures { OnOk result (rows_gathered self.new
            ≡ rows_gathered self.old ++ rows_of (selectors_of selectors.now)) }
    {
        for selector in selectors {
            self.push_rows(alloc, selector)?;
        }
        Ok(())
    }

    /// Appends the rows of a selector.
    fn push_rows(&mut self, alloc: Global, selector: &Selector) -> Result<(), NoMemory>
        ensures { OnOk result (rows_gathered self.new
            ≡ rows_gathered self.old ++ rows_of_selector (selector_of selector.now)) }
    {
        let found = deps(alloc, selector)?;
        for dep in &found {
            self.push_row(alloc, dep, key_of(selector))?;
        }
        Ok(())
    }

    /// Appends the row of a dependency of a selector with this key, if anything can touch it.
    fn push_row(&mut self, alloc: Global, dep: &Dep, key: &Key) -> Result<(), NoMemory>
        ensures { OnOk result (rows_gathered self.new
            ≡ rows_gathered self.old ++ option_to_list (row_of (key_seen key.now) (dep_of dep.now))) }
    {
        let Some(touch) = touch_of(alloc, &dep.part)? else {
            return Ok(());
        };
        let steps = dep.path.as_slice();
        let alone = is_alone(&touch, steps, key);
        let (path, key) = self.shared.places(alloc, steps, key)?;
        self.rows.push(DependencyRow {
            touch,
            path,
            key,
            alone,
        })?;
        Ok(())
    }
}

/// Whether a row has no path, and its touch is that of its key.
fn is_alone(touch: &Touch, path: &[PathStep], key: &Key) -> bool
    ensures { result ≡ true → IsAlone
        (record { touch = touch_seen touch.now; path = path_of path.now; key = key_seen key.now }) }
{
    if !path.is_empty() {
        return false;
    }
    is_touch_of(key, touch)
}

/// What has to be touched for a part of a selector to change. None: nothing can change it.
fn touch_of(alloc: Global, part: &Part) -> Result<Option<Touch>, NoMemory>
    ensures { IfOk result (λ touch. option_map touch_seen touch ≡ model_touch_of (part_of part.now)) }
{
    let test = match part {
        Part::Tested(test) => test,
        Part::Beside => return Ok(Some(Touch::Sibling)),
    };
    Ok(match test {
        Simple::Type(_) | Simple::Root => None,
        Simple::Id(name) => Some(Touch::Id(name_of(alloc, name)?)),
        Simple::Class(name) => Some(Touch::Class(name_of(alloc, name)?)),
        Simple::Attribute(name) => Some(Touch::Attribute(name_of(alloc, name)?)),
        Simple::AttributeCompares(test) => Some(Touch::Attribute(name_of(alloc, &test.name)?)),
        Simple::Empty => Some(Touch::Empty),
        Simple::Nth(_) | Simple::Only { .. } => Some(Touch::Positional),
        Simple::State(state) => Some(Touch::State(*state)),
    })
}
