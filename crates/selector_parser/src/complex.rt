//! Compounds and what combines them.

ghost use Rattle.std.specs.Prelude.{◌≡◌, IfOk, option_map};
ghost use Rattle.selector_types.specs.ComplexView.{complex_of};
ghost use Rattle.sheet_model.specs.SelectorsIn.{complex_in, reader_of};

use crate::combinator::combinator;
use crate::compound::compound;
use crate::count::with_one_more;
use css_tokens::{Cursor, Token, trimmed};
use selector_types::Complex;
use std::alloc::Global;
use stylo_base::NoMemory;

/// Reads tokens as a selector in which lists may be nested so deep, with whitespace around it. None:
/// they are none.
#[cycle(selector)]
pub(crate) fn complex(
    alloc: Global,
    depth: u32,
    tokens: &[Token],
) -> Result<Option<Complex>, NoMemory>
    ensures { IfOk result (λ found. option_map complex_of found ≡ complex_in (reader_of depth) tokens.now) }
{
    let mut left = Cursor::new(trimmed(tokens));
    let Some(tests) = compound(alloc, depth, &mut left)? else {
        return Ok(None);
    };
    let Some(mut count) = with_one_more(0, &tests) else {
        return Ok(None);
    };
    let mut complex = Complex::alone(tests);
    // The proof calls the loop by this label.
    'compounds: while !left.is_at_end() {
        let Some(combinator) = combinator(&mut left) else {
            return Ok(None);
        };
        let Some(tests) = compound(alloc, depth, &mut left)? else {
            return Ok(None);
        };
        let Some(sum) = with_one_more(count, &tests) else {
            return Ok(None);
        };
        complex = Complex::combined(alloc, tests, combinator, complex)?;
        count = sum;
    }
    Ok(Some(complex))
}
