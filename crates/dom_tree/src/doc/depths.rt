//! How deep elements are, and which is below which.

ghost use Rattle.std.specs.Prelude.{◌≡◌, ◌+◌, ◌-◌, ◌≤◌, ℕ, Some, drop, length, nat_le, take, true};
ghost use Rattle.std.specs.List.{list_all};
ghost use Rattle.base_model.specs.Limits.{element_limit};
ghost use Rattle.scene_model.specs.Ancestors.{depth_of, position_of};
ghost use Rattle.scene_model.specs.Lookups.{IsElement, numbers, parent_of};
ghost use Rattle.change_model.specs.Sound.{IsSound, is_below, subtree_of};

use crate::doc::Doc;

impl Doc {
    /// The depth of `x`. The root has 1.
    pub fn depth(&self, x: u32) -> usize
        requires { IsElement self.now.elements x }
        ensures depth { result ≡ depth_of self.now.elements x }
        ensures few { result ≤ element_limit }
    {
        let mut depth = 1;
        let mut top = x;
        while let Some(parent) = self.parent(top) {
            depth += 1;
            top = parent;
        }
        depth
    }

    /// Whether `x` is `top`, or below it.
    pub fn is_below(&self, top: u32, x: u32) -> bool
        requires { IsElement self.now.elements x }
        ensures { result ≡ is_below self.now.elements top x }
    {
        let mut at = x;
        while at != top {
            let Some(parent) = self.parent(at) else {
                return false;
            };
            at = parent;
        }
        true
    }

    /// The depth of the deepest one among `x` and all below it. It goes along the subtree once, and takes no
    /// memory.
    pub fn deepest_below(&self, x: u32) -> usize
        requires { IsElement self.now.elements x }
        ensures deepest { (n : ℕ) → nat_le result n
            ≡ list_all (λ e. nat_le (depth_of self.now.elements e.number) n) (subtree_of self.now.elements x) }
        ensures few { result ≤ element_limit }
    {
        let below = self.below(x);
        let mut last = x;
        let mut depth = self.depth(x);
        let mut most = depth;
        for y in below {
            depth = self.depth_after(last, depth, *y);
            last = *y;
            if most < depth {
                most = depth;
            }
        }
        most
    }

    /// The numbers of what is below `x`, in tree order.
    fn below(&self, x: u32) -> &[u32]
        requires { IsElement self.now.elements x }
        ensures part { result.now ≡ take (length (subtree_of self.now.elements x) - 1)
            (drop (position_of self.now.elements x + 1) (numbers self.now.elements)) }
        ensures sound { IsSound self.now }
    {
        let start = self.position(x);
        let end = self.end_of(x);
        self.in_tree_order().split_at(end).0.split_at(start + 1).1
    }

    /// The depth of `y`, whose parent is `last` or above it. The depth of `last` is known: it climbs from there.
    fn depth_after(&self, last: u32, depth: usize, y: u32) -> usize
        requires last { IsElement self.now.elements last }
        requires there { IsElement self.now.elements y }
        requires depth { depth ≡ depth_of self.now.elements last }
        requires above { (p : ℕ) → parent_of self.now.elements y ≡ Some p → is_below self.now.elements p last ≡ true }
        ensures depth { result ≡ depth_of self.now.elements y }
        ensures few { result ≤ element_limit }
    {
        let Some(parent) = self.parent(y) else {
            return 1;
        };
        let mut top = last;
        let mut depth = depth;
        while top != parent {
            depth -= 1;
            top = self.parent(top).unwrap_or(parent);
        }
        depth + 1
    }
}
