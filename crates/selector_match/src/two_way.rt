//! Where a part first stands in a text, ignoring ASCII case: by the search of Crochemore and Perrin ("Two-way
//! string-matching", 1991), which takes time linear in both and no memory. It is the one of the kit's `memchr`, whose
//! lemmas it stands on, over bytes in lower case.

ghost use Rattle.std.specs.Prelude.{◌≡◌, ◌≢◌, ◌+◌, ◌<◌, ◌≤◌, ◌↔◌, ℕ, IsTrue, length};
ghost use Rattle.base_model.specs.Text.{ascii_lower};
ghost use Rattle.memchr.specs.Critical.{IsCutPlace, IsSuffixAt};
ghost use Rattle.memchr.specs.Find.{FindsNeedle, IsFirst};
ghost use Rattle.selector_match.specs.TwoWay.{IsCut, Precedes, StandsAt, lower_at};

/// The greatest end of a part, in some order of bytes: where it begins, and after how many bytes it repeats.
#[derive(Clone, Copy)]
struct Suffix {
    place: usize,
    period: usize,
}

/// Where a search cuts a part. It compares what follows that place first. Where this stands and what comes before
/// does not, it moves on by `shift`, and then the first `known` bytes of the part stand again.
#[derive(Clone, Copy)]
struct Cut {
    place: usize,
    shift: usize,
    known: usize,
}

/// The first place at which the part stands in the text, ignoring ASCII case.
pub(crate) fn find_ignoring_case(text: &[u8], part: &[u8]) -> Option<usize>
    ensures { FindsNeedle (ascii_lower text.now) (ascii_lower part.now) 0 result }
{
    if part.is_empty() {
        return Some(0);
    }
    if text.len() < part.len() {
        // (so a long part is not looked at for each short text)
        return None;
    }
    search(text, part, cut_of(part))
}

/// Compares the part with the text from place to place.
fn search(text: &[u8], part: &[u8], cut: Cut) -> Option<usize>
    requires { IsCut part.now cut }
    ensures { IsFirst (StandsAt text.now part.now) 0 (length text.now + 1) result }
{
    let (mut place, mut known) = (0, 0);
    while place + part.len() <= text.len() {
        let end = same_to(text, part, place, cut.place.max(known), part.len());
        if end < part.len() {
            // The cut is critical: where the part stands next, it is cut behind the byte that differs.
            place += end - cut.place + 1;
            known = 0;
        } else if same_to(text, part, place, known, cut.place) < cut.place {
            // All behind the cut is the same: the part stands no nearer than its least period.
            place += cut.shift;
            known = cut.known;
        } else {
            return Some(place);
        }
    }
    None
}

/// How far the part stands at this place of the text, of its bytes from `low` up to `high`.
fn same_to(text: &[u8], part: &[u8], place: usize, low: usize, high: usize) -> usize
    requires part { high ≤ length part.now }
    requires text { place + high ≤ length text.now }
    ensures low { low ≤ high → low ≤ result }
    ensures high { result ≤ high }
    ensures same { (k : ℕ) → low ≤ k → k < result → lower_at part.now k ≡ lower_at text.now (place + k) }
    ensures differs { result < high → lower_at part.now result ≢ lower_at text.now (place + result) }
{
    for k in low..high {
        if lower(part, k) != lower(text, place + k) {
            return k;
        }
    }
    high
}

/// Where to cut a part, and what follows from that.
fn cut_of(part: &[u8]) -> Cut
    requires { 0 < length part.now }
    ensures { IsCut part.now result }
{
    let Suffix { place, period } = later_suffix(part);
    if same_to(part, part, period, 0, place) < place {
        Cut {
            place,
            shift: place.max(part.len() - place),
            known: 0,
        }
    } else {
        Cut {
            place,
            shift: period,
            known: part.len() - period,
        }
    }
}

/// The later of the greatest ends of a part, by the order of bytes and by the reverse one.
fn later_suffix(part: &[u8]) -> Suffix
    requires { 0 < length part.now }
    ensures { IsCutPlace (lower_at part.now) (length part.now) result.place result.period }
{
    let least = greatest_suffix(part, true);
    let most = greatest_suffix(part, false);
    if most.place < least.place {
        least
    } else {
        most
    }
}

/// The greatest end of a part, by the order of bytes or by the reverse one.
fn greatest_suffix(part: &[u8], reversed: bool) -> Suffix
    requires { 0 < length part.now }
    ensures { IsSuffixAt (Precedes reversed) (lower_at part.now) (length part.now) result.place result.period }
{
    let (mut place, mut period) = (0, 1);
    let (mut other, mut offset) = (1, 0);
    while other + offset < part.len() {
        let (a, b) = (lower(part, place + offset), lower(part, other + offset));
        if a == b {
            offset += 1;
            if offset == period {
                other += period;
                offset = 0;
            }
        } else if precedes(reversed, a, b) {
            place = other;
            other += 1;
            offset = 0;
            period = 1;
        } else {
            other += offset + 1;
            offset = 0;
            period = other - place;
        }
    }
    Suffix { place, period }
}

/// Whether the first of two bytes comes before the second.
#[inline]
fn precedes(reversed: bool, a: u8, b: u8) -> bool
    ensures { IsTrue result ↔ Precedes reversed a b }
{
    if reversed { b < a } else { a < b }
}

/// The byte at a place, in lower case.
#[inline]
fn lower(text: &[u8], k: usize) -> u8
    requires { k < length text.now }
    ensures { result ≡ lower_at text.now k }
{
    text[k].to_ascii_lowercase()
}
