//! The names of cascade layers, as `@layer` has them (css-cascade-5, section 6.4).

ghost use Rattle.std.specs.Prelude.{◌≡◌, ◌∷◌, [], IfOk};
ghost use Rattle.std.specs.Option.{option_map};
ghost use Rattle.syntax_model.specs.LayersIn as model;
ghost use Rattle.layer_order.specs.Chain.{part_of};
ghost use Rattle.css_rules.specs.Layers as layers;
ghost use Rattle.css_rules.specs.View.{context_of, contexts_of, edition_of};

use crate::{Context, SheetEdition};
use css_tokens::{CommaSeparated, Cursor, Token, Wide, trimmed, without_white};
use layer_order::Part;
use std::alloc::Global;
use stylo_base::{Atom, NoMemory, Text};

/// How many parts the full name of a layer may have.
const PART_LIMIT: usize = 64;

/// The layer that an `@layer` with a block declares; so many anonymous layers come before it in the text.
pub(crate) fn block_layer(
    alloc: Global,
    edition: SheetEdition,
    place: u32,
    context: &Context,
    prelude: &[Token],
) -> Result<Option<Context>, NoMemory>
    ensures { IfOk result (λ found. option_map context_of found
        ≡ model.block_layer (edition_of edition) place (context_of context.now) prelude.now) }
{
    if is_anonymous(prelude) {
        let part = Part::Anonymous {
            sheet: edition.sheet,
            edition: edition.edition,
            place,
        };
        layer_within(alloc, context, part)
    } else {
        layer_named(alloc, context, trimmed(prelude))
    }
}

/// Whether an `@layer` has no name.
pub(crate) fn is_anonymous(prelude: &[Token]) -> bool
    ensures { result ≡ model.is_anonymous prelude.now }
{
    without_white(prelude).is_empty()
}

/// The layers that an `@layer` without a block declares.
pub(crate) fn layers_declared(
    alloc: Global,
    context: &Context,
    prelude: &[Token],
) -> Result<Option<Vec<Context>>, NoMemory>
    ensures { IfOk result (λ found. option_map (λ layers. contexts_of layers.items) found
        ≡ model.layers_declared (context_of context.now) prelude.now) }
{
    let mut names = CommaSeparated::new(prelude);
    let mut list = Vec::new(alloc);
    // The proof calls the loop by this label.
    'names: while let Some(name) = names.next(alloc)? {
        let Some(layer) = layer_named(alloc, context, trimmed(name))? else {
            return Ok(None);
        };
        list.push(layer)?;
    }
    Ok(Some(list))
}

/// The layer of the name that the tokens are, in a context.
fn layer_named(
    alloc: Global,
    context: &Context,
    tokens: &[Token],
) -> Result<Option<Context>, NoMemory>
    ensures { IfOk result (λ found.
        option_map context_of found ≡ layers.layer_named (context_of context.now) tokens.now) }
{
    let mut outer = context.share()?;
    let mut left = Cursor::new(tokens);
    while let Some(name) = left.take_ident() {
        let Some(layer) = named_within(alloc, &outer, name)? else {
            return Ok(None);
        };
        if left.is_at_end() {
            return Ok(Some(layer));
        }
        if !left.take_delim('.') {
            return Ok(None);
        }
        outer = layer;
    }
    Ok(None)
}

/// The layer of a name that is one step into a context, where the name is no CSS-wide keyword.
fn named_within(alloc: Global, context: &Context, name: &Text) -> Result<Option<Context>, NoMemory>
    ensures { IfOk result (λ found.
        option_map context_of found ≡ layers.named_within (context_of context.now) name.now) }
{
    if Wide::named(name.as_str()).is_some() {
        return Ok(None);
    }
    layer_within(
        alloc,
        context,
        Part::Named(Atom::of_text(name.copy(alloc)?)),
    )
}

/// The layer that is one step into a context, unless its full name has too many parts.
fn layer_within(alloc: Global, context: &Context, part: Part) -> Result<Option<Context>, NoMemory>
    ensures { IfOk result (λ found. option_map context_of found
        ≡ model.layer_within (context_of context.now) (part_of part ∷ [])) }
{
    if context.layer.len() >= PART_LIMIT {
        return Ok(None);
    }
    let layer = context.layer.within(alloc, part)?;
    Ok(Some(Context { layer }))
}
