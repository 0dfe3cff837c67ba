//! Rows, and the paths and keys that they share.

ghost use Rattle.std.specs.Prelude.{◌≡◌, ◌↔◌, ◌+◌, ◌<◌, IfOk, OnOk};
ghost use Rattle.std.specs.Bool.{IsTrue};
ghost use Rattle.selector_types.specs.SimpleView.{key_seen};
ghost use Rattle.dependency_map.specs.DepView.{path_of};
ghost use Rattle.invalidation_map.specs.Shared.{ArePlaced, EndsWith, IsFront, KeepsShared, StandsAt};
ghost use Rattle.invalidation_map.specs.Shared.{keys_seen, paths_seen};

use crate::selector_key::SelectorKey;
use dependency_map::PathStep;
use dom_edits::Touch;
use selector_types::Key;
use std::alloc::Global;
use stylo_base::NoMemory;

/// A dependency of a selector that can be touched. Where the touch is at some elements, those to which the
/// path leads from them are marked, if they bear the key of the selector or bore it before.
#[derive(Drop)]
pub(crate) struct DependencyRow {
    pub(crate) touch: Touch,
    /// The place of the path among those that rows share.
    pub(crate) path: u32,
    /// The place of the key among those that rows share.
    pub(crate) key: u32,
    /// Whether it has no path, and its touch is that of its key. Then it marks all elements of its touch.
    pub(crate) alone: bool,
}

/// What rows share: those of a compound its path, those of a selector its key.
#[derive(Drop)]
pub(crate) struct Shared {
    pub(crate) paths: Vec<Vec<PathStep>>,
    pub(crate) keys: Vec<SelectorKey>,
}

impl Shared {
    /// The places of a path and of a key. After an error there may be a path more.
    pub(crate) fn places(
        &mut self,
        alloc: Global,
        path: &[PathStep],
        key: &Key,
    ) -> Result<(u32, u32), NoMemory>
        ensures kept { KeepsShared self.old self.new }
        ensures placed { IfOk result (ArePlaced self.new (path_of path.now) (key_seen key.now)) }
    {
        let path = place_of_path(alloc, path, &mut self.paths)?;
        let key = place_of_key(alloc, key, &mut self.keys)?;
        Ok((path, key))
    }
}

/// The place of a path: that of the last one, if it is the same, else of a new one.
fn place_of_path(
    alloc: Global,
    path: &[PathStep],
    paths: &mut Vec<Vec<PathStep>>,
) -> Result<u32, NoMemory>
    ensures front { IsFront (paths_seen paths.old.items) (paths_seen paths.new.items) }
    ensures place { IfOk result (λ place. StandsAt (paths_seen paths.new.items) place (path_of path.now)) }
{
    end_with_path(alloc, path, paths)?;
    last_place(paths.len())
}

/// Appends a path, unless the last one is the same.
fn end_with_path(
    alloc: Global,
    path: &[PathStep],
    paths: &mut Vec<Vec<PathStep>>,
) -> Result<(), NoMemory>
    ensures front { IsFront (paths_seen paths.old.items) (paths_seen paths.new.items) }
    ensures last { OnOk result (EndsWith (paths_seen paths.new.items) (path_of path.now)) }
{
    if !is_last_path(path, paths) {
        paths.push(Vec::from_slice(alloc, path)?)?;
    }
    Ok(())
}

/// Whether the last path is the same.
fn is_last_path(path: &[PathStep], paths: &[Vec<PathStep>]) -> bool
    ensures { IsTrue result → EndsWith (paths_seen paths.now) (path_of path.now) }
{
    match paths.last() {
        Some(last) => is_same_path(last, path),
        None => false,
    }
}

/// Whether two paths are the same.
fn is_same_path(one: &[PathStep], other: &[PathStep]) -> bool
    ensures { IsTrue result ↔ (one.now ≡ other.now) }
{
    one == other
}

/// The place of a key: that of the last one, if it is the same, else of a new one.
fn place_of_key(alloc: Global, key: &Key, keys: &mut Vec<SelectorKey>) -> Result<u32, NoMemory>
    ensures front { IsFront (keys_seen keys.old.items) (keys_seen keys.new.items) }
    ensures place { IfOk result (λ place. StandsAt (keys_seen keys.new.items) place (key_seen key.now)) }
{
    end_with_key(alloc, key, keys)?;
    last_place(keys.len())
}

/// Appends a key, unless the last one is the same.
fn end_with_key(alloc: Global, key: &Key, keys: &mut Vec<SelectorKey>) -> Result<(), NoMemory>
    ensures front { IsFront (keys_seen keys.old.items) (keys_seen keys.new.items) }
    ensures last { OnOk result (EndsWith (keys_seen keys.new.items) (key_seen key.now)) }
{
    if !is_last_key(key, keys) {
        keys.push(SelectorKey::of(alloc, key)?)?;
    }
    Ok(())
}

/// Whether the last key is the same.
fn is_last_key(key: &Key, keys: &[SelectorKey]) -> bool
    ensures { IsTrue result → EndsWith (keys_seen keys.now) (key_seen key.now) }
{
    match keys.last() {
        Some(last) => last.is_of(key),
        None => false,
    }
}

/// The place of the last of so many.
fn last_place(count: usize) -> Result<u32, NoMemory>
    requires { 0 < count }
    ensures { IfOk result (λ place. place + 1 ≡ count) }
{
    let last = count - 1;
    if last > u32::MAX as usize {
        return Err(NoMemory);
    }
    Ok(last as u32)
}
