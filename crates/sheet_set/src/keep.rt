//! How what a declaration gives is kept.

ghost use Rattle.std.specs.Prelude.{◌≡◌, ◌++◌, OnOk, flat_map};
ghost use Rattle.shorthands.specs.View.{declared_of};

use css_rules::RawDecl;
use shorthands::{Declared, Given, Target};
use stylo_base::NoMemory;

/// Adds what the declaration gives the target.
pub(crate) fn keep(
    kept: &mut Vec<Declared>,
    declaration: &RawDecl,
    target: Target,
    given: Given,
) -> Result<(), NoMemory>
    ensures { OnOk result (flat_map declared_of kept.new.items ≡ flat_map declared_of kept.old.items
        ++ declared_of (record {
          target = target;
          given = given;
          important = declaration.now.important;
        })) }
{
    kept.push(Declared {
        target,
        given,
        important: declaration.important,
    })?;
    Ok(())
}
