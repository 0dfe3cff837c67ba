//! What a restyle counts.

ghost use Rattle.std.specs.Prelude.{◌≡◌, length};
ghost use Rattle.std.specs.List.{count_by};

use crate::styled::Styled;

/// How many elements a restyle went to.
#[derive(Clone, Copy, Debug, PartialEq, Eq)]
pub struct Counts {
    /// Those whose rules were matched: marked or fresh since the last restyle.
    pub matched: u64,
    /// Those whose style was computed anew: the matched ones, those whose parent has another style than at
    /// the last restyle, and all elements where the font size of the root is another one.
    pub cascaded: u64,
}

impl Counts {
    /// Those of a restyle with nothing marked or fresh: it goes to no element.
    pub(crate) fn of_none() -> Counts
        ensures { result ≡ record { matched = 0; cascaded = 0 } }
    {
        Counts {
            matched: 0,
            cascaded: 0,
        }
    }

    /// Those of the first restyle, which goes to all elements.
    pub(crate) fn of_all(numbers: &[u32]) -> Counts
        ensures { result ≡ record { matched = length numbers.now; cascaded = length numbers.now } }
    {
        let all = numbers.len() as u64;
        Counts {
            matched: all,
            cascaded: all,
        }
    }

    /// Those of a list of cascaded elements.
    pub(crate) fn of(list: &[Styled]) -> Counts
        ensures { result ≡ record { matched = count_by (λ one. one.matched) list.now; cascaded = length list.now } }
    {
        let mut matched = 0;
        for one in list {
            if one.matched {
                matched += 1;
            }
        }
        Counts {
            matched,
            cascaded: list.len() as u64,
        }
    }
}
