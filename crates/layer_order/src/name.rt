//! The full name of a cascade layer.

ghost use Rattle.std.specs.Prelude.{◌≡◌, ◌↔◌, ◌<◌, ◌≤◌, ◌++◌, ◌∷◌, [], IfNone, IfOk, IfSome, IsTrue, length};
ghost use Rattle.std.specs.Cmp.{partial_equiv_from_equiv};
ghost use Rattle.std.specs.Hash as fed;
ghost use Rattle.std.specs.Hash.{same_Alike};
ghost use Rattle.layer_model.proofs.Names.{same_name_equiv, same_name-Decides};
ghost use Rattle.layer_model.specs.Name.{no_layer, part_limit, same_name};
ghost use Rattle.layer_order.specs.Chain.{IsIn, part_of};
ghost use Rattle.layer_order.specs.Key.{key_of};
ghost use Rattle.layer_order.specs.LinkView.{named_by};

use crate::{Part, key};
use std::alloc::Global;
use std::hash::{Hash, Hasher};
use std::marker::Model;
use std::sync::Arc;
use stylo_base::NoMemory;

/// The full name of a cascade layer: a chain that shares its front. Contracts see the steps from the outermost layer
/// inwards.
#[cycle(layer_name)]
#[derive(Debug, Drop)]
pub struct LayerName {
    last: Option<Arc<NameLink>>,
}

#[cycle(layer_name)]
#[derive(Debug, Drop)]
struct NameLink {
    outer: LayerName,
    depth: u32,
    key: u64,
    part: Part,
}

impl Model for LayerName {
    ghost use Rattle.std.specs.Prelude.{List, length};
    ghost use Rattle.layer_model.specs.Name.{Part};

    ghost Value = { List Part };

    ghost use Rattle.layer_order.specs.LinkView.{parts, IsKept};

    ghost view = { λ n. parts n.last };

    ghost invariant = { λ n. IsKept n.last };

    ghost size = { length };

    ghost use Rattle.std.proofs.Common.{arith, length-append};

    ghost size_decreases = { λ a h. Prim.grind (arith, length-append) };
}

impl LayerName {
    /// The name of what is in no layer. It takes no memory.
    pub fn none() -> LayerName
        ensures { result ≡ no_layer }
    {
        LayerName { last: None }
    }

    /// How many parts it has.
    pub fn len(&self) -> usize
        ensures count { result ≡ length self.now }
        ensures few { result ≤ part_limit }
    {
        match &self.last {
            None => 0,
            Some(link) => link.depth as usize,
        }
    }

    /// Whether it is the name of what is in no layer.
    pub fn is_empty(&self) -> bool
        ensures { IsTrue result ↔ (self.now ≡ no_layer) }
    {
        self.len() == 0
    }

    /// The name of the layer `part` in this one. It shares this name.
    pub fn within(&self, alloc: Global, part: Part) -> Result<LayerName, NoMemory>
        requires { length self.now < part_limit }
        ensures { IfOk result (λ n. n ≡ self.now ++ part_of part ∷ []) }
    {
        let link = NameLink {
            outer: self.share()?,
            depth: self.len() as u32 + 1,
            key: key::key_after(self.key(), &part),
            part,
        };
        Ok(LayerName {
            last: Some(Arc::new(alloc, link)?),
        })
    }

    /// The same name, whose parts are shared.
    pub fn share(&self) -> Result<LayerName, NoMemory>
        ensures { IfOk result (λ n. n ≡ self.now) }
    {
        match &self.last {
            None => Ok(LayerName::none()),
            Some(link) => Ok(LayerName {
                last: Some(Arc::try_clone(link)?),
            }),
        }
    }

    /// The name without its last part.
    pub(crate) fn outer(&self) -> Option<&LayerName>
        ensures none { IfNone result (self.now ≡ no_layer) }
        ensures some { IfSome result (λ outer. IsIn outer.now self.now) }
    {
        match &self.last {
            None => None,
            Some(link) => Some(&link.outer),
        }
    }

    /// The key, by which the name is compared first.
    #[tactic(auto, unfolding(crate::specs::Key::key_of))]
    pub(crate) fn key(&self) -> u64
        ensures { result ≡ key_of self.now }
    {
        match &self.last {
            None => 0,
            Some(link) => link.key,
        }
    }

    /// Whether both are one name. Most others are told apart by their keys.
    #[cycle(same_name)]
    pub fn is(&self, other: &LayerName) -> bool
        ensures { result ≡ same_name self.now other.now }
    {
        if self.key() != other.key() {
            return false;
        }
        match (&self.last, &other.last) {
            (None, None) => true,
            (Some(link), Some(other)) => link.is(other),
            _ => false,
        }
    }
}

impl NameLink {
    /// Whether both end one name.
    #[cycle(same_name)]
    fn is(&self, other: &NameLink) -> bool
        ensures { result ≡ same_name (named_by self.now) (named_by other.now) }
    {
        self.part.is(&other.part) && self.outer.is(&other.outer)
    }
}

impl PartialEq for LayerName {
    ghost eq = { same_name };

    ghost laws = { partial_equiv_from_equiv same_name_equiv };

    fn eq(&self, other: &LayerName) -> bool {
        self.is(other)
    }
}

impl Eq for LayerName {
    ghost laws = { same_name_equiv };
}

impl Hash for LayerName {
    ghost hash_input = { λ n. fed.u64 (key_of n) };

    ghost respects_eq = { (same_Alike (λ n. fed.u64 (key_of n)) same_name-Decides).fed };

    fn hash<H: Hasher>(&self, state: &mut H) {
        state.write_u64(self.key());
    }
}
