//! The order of cascade layers (css-cascade-5, section 6.4).

ghost use Rattle.std.specs.Prelude.{◌≡◌, [], IfOk, not};
ghost use Rattle.layer_model.specs.Order.{layer_order, layer_rank, layers_of, names_of, rank_in, with_names};
ghost use Rattle.layer_model.specs.Swapped.{swapped, swapped_in};
ghost use Rattle.layer_order.specs.Nested.{IsNesting, below_none};
ghost use Rattle.layer_order.specs.View.{declarations, origin_of};

use crate::known::declared_in;
use crate::nesting::{MOST, Nesting};
use crate::{LayerName, Origin};
use indexmap::IndexSet;
use std::alloc::Global;
use std::marker::Model;
use stylo_base::NoMemory;

/// The layers of each origin, lowest first. Contracts see the definition's.
#[derive(Drop)]
pub struct Layers {
    of_user_agent: Order,
    of_user: Order,
    of_author: Order,
}

impl Model for Layers {
    ghost use Rattle.layer_model.specs.Order.{Layers};

    ghost Value = { Layers };

    ghost view = { λ l. record { of_user_agent = l.of_user_agent; of_user = l.of_user; of_author = l.of_author } };
}

impl Layers {
    /// The layers that these names declare, each for its origin.
    pub fn of(alloc: Global, list: &[(Origin, LayerName)]) -> Result<Layers, NoMemory>
        ensures { IfOk result (λ layers. layers ≡ layers_of (declarations list.now)) }
    {
        Ok(Layers {
            of_user_agent: Order::of(alloc, list, Origin::UserAgent)?,
            of_user: Order::of(alloc, list, Origin::User)?,
            of_author: Order::of(alloc, list, Origin::Author)?,
        })
    }

    /// How high a layer of an origin is. It takes no memory.
    pub fn rank(&self, origin: Origin, name: &LayerName) -> u32
        ensures { result ≡ layer_rank self.now (origin_of origin) name.now }
    {
        match origin {
            Origin::UserAgent => self.of_user_agent.rank(name),
            Origin::User => self.of_user.rank(name),
            Origin::Author => self.of_author.rank(name),
        }
    }
}

/// Whether no two layers of one origin that are there before and after stand in another order. It takes no memory.
pub fn same_relative_order(before: &Layers, after: &Layers) -> bool
    ensures { result ≡ not (swapped before.now after.now) }
{
    before.of_user_agent.is_kept_in(&after.of_user_agent)
        && before.of_user.is_kept_in(&after.of_user)
        && before.of_author.is_kept_in(&after.of_author)
}

/// The layers of one origin, lowest first; what is in no layer is last.
#[derive(Drop)]
struct Order {
    names: IndexSet<LayerName>,
}

impl Model for Order {
    ghost use Rattle.std.specs.Prelude.{List};
    ghost use Rattle.layer_model.specs.Name.{LayerName};
    ghost use Rattle.layer_order.specs.Known.{IsOrder};

    ghost Value = { List LayerName };

    ghost view = { λ o. o.names.keys };

    ghost invariant = { λ o. IsOrder o.names.keys };
}

impl Order {
    fn of(alloc: Global, list: &[(Origin, LayerName)], origin: Origin) -> Result<Order, NoMemory>
        ensures { IfOk result (λ order. order ≡ layer_order (names_of (origin_of origin) (declarations list.now))) }
    {
        let nesting = Nesting::of(alloc, declared_in(alloc, list, origin)?)?;
        let names = in_order(alloc, &nesting)?;
        if names.len() > MOST {
            return Err(NoMemory);
        }
        Ok(Order { names })
    }

    fn rank(&self, name: &LayerName) -> u32
        ensures { result ≡ rank_in self.now name.now }
    {
        match self.names.get_index_of(name) {
            Some(place) => place as u32,
            None => self.names.len() as u32 - 1,
        }
    }

    /// Whether those of these layers that are in the other order too stand there as they do here: the places at which
    /// they are found rise.
    fn is_kept_in(&self, after: &Order) -> bool
        ensures { result ≡ not (swapped_in self.now after.now) }
    {
        let mut least = 0;
        for name in self.names.as_slice() {
            if let Some(place) = after.names.get_index_of(name) {
                if place < least {
                    return false;
                }
                least = place + 1;
            }
        }
        true
    }
}

/// All layers of a nesting, lowest first, and last what is in no layer.
fn in_order(alloc: Global, nesting: &Nesting) -> Result<IndexSet<LayerName>, NoMemory>
    requires { IsNesting nesting.now }
    ensures { IfOk result (λ order. order.keys ≡ with_names [] (below_none nesting.now)) }
{
    let count = nesting.layers.len();
    let mut order = IndexSet::new(alloc);
    nesting.add_below(&mut order, count, count)?;
    Ok(order)
}
