//! Subtrees that are moved within a document.

ghost use Rattle.std.specs.Prelude.{◌≡◌, ◌≢◌, ◌<◌, ◌≤◌, ◌+◌, ◌^◌, OnErr, OnOk, false, is_some, length, true};
ghost use Rattle.scene_model.specs.Lookups.{IsElement, children, parent_of};
ghost use Rattle.change_model.specs.ChildLists.{moved};
ghost use Rattle.change_model.specs.Sound.{is_below, without};

use crate::doc::Doc;
use crate::turns::move_part;
use std::alloc::Global;
use stylo_base::NoMemory;

impl Doc {
    /// Moves `x`, which is not the root, and all that is below it: it becomes the child of `parent`, which is not below
    /// it, at an index, which counts without it. The only error is that memory ran out; then nothing is changed.
    pub fn move_to(
        &mut self,
        alloc: Global,
        x: u32,
        parent: u32,
        index: usize,
    ) -> Result<(), NoMemory>
        requires hung { is_some (parent_of self.old.elements x) ≡ true }
        requires there { IsElement self.old.elements parent }
        requires apart { is_below self.old.elements x parent ≡ false }
        requires index { index ≤ length (children (without self.old.elements x) parent) }
        ensures ok { OnOk result (self.new ≡ moved self.old x parent index) }
        ensures err { OnErr result (self.new ≡ self.old) }
    {
        let Some(from) = self.parent(x) else {
            return Ok(());
        };
        let place = self.place(x) as usize;
        let start = self.position(x);
        let end = self.end_of(x);
        let all = index_in_all(from, place, parent, index);
        let spot = self.spot(parent, all);
        let items = self.children(parent).len() + 1;
        self.children.make_room(alloc, 0, items)?;
        // From here on nothing can fail.
        self.children.carry(from, place, parent, index, x);
        move_part(&mut self.order, start, end, spot);
        self.columns.set_parent(x as usize - 1, parent - 1);
        self.places.settle(&self.columns, self.children.of(from));
        self.places.settle(&self.columns, self.children.of(parent));
        Ok(())
    }
}

/// The index of a child of `parent` among all of them, where it was counted without the child of `from` at `place`.
fn index_in_all(from: u32, place: usize, parent: u32, index: usize) -> usize
    requires { index < 2 ^ 63 }
    ensures passed { from ≡ parent → place ≤ index → result ≡ index + 1 }
    ensures before { from ≡ parent → index < place → result ≡ index }
    ensures other { from ≢ parent → result ≡ index }
{
    if from == parent && place <= index {
        index + 1
    } else {
        index
    }
}
