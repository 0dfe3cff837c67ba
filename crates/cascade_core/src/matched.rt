//! A declaration that applies to an element, and which of two wins.

ghost use Rattle.std.specs.Prelude.{◌≡◌};
ghost use Rattle.cascade_model.specs.Key.{band, key_cmp, layer_cmp};
ghost use Rattle.property_table.specs.View.{property_of};
ghost use Rattle.cascade_core.specs.View.{entry_of, head_of, is_of_custom, matched_placed};

use layer_order::Origin;
use property_table::PropId;
use shorthands::{Declared, Target};
use std::cmp::Ordering;
use stylo_base::Specificity;

/// What the cascade compares of a declaration that applies to an element (css-cascade-5, section 6.1), but
/// for whether it is `!important`.
#[derive(Clone, Copy, Debug)]
pub struct CascadePriority {
    /// The origin of its sheet.
    pub origin: Origin,
    /// Whether it is in a `style` attribute.
    pub attached: bool,
    /// The rank of its cascade layer, which is higher for a later layer.
    pub layer: u32,
    /// The greatest among the selectors of its rule that hold at the element.
    pub specificity: Specificity,
    /// The number of its sheet.
    pub sheet: u32,
    /// The position of that among the enabled sheets, from 0.
    pub position: u32,
    /// How many declarations come before it in the text of its own sheet, where a shorthand counts
    /// as one for each of its longhands.
    pub index: u64,
}

/// One declaration that applies to an element, with what the cascade compares. It borrows the
/// declaration from what it was read into: for a rule that is the sheet, and for a `style` attribute
/// the list that was read from it. A declaration of a shorthand stands for one of each of its
/// longhands (css-cascade-5, section 3).
#[derive(Clone, Copy, Debug)]
pub struct LentMatched<'a> {
    /// The property or the custom property, its declared value, and whether it is `!important`.
    pub declared: &'a Declared,
    /// What else the cascade compares.
    pub priority: CascadePriority,
}

/// Which of two declarations of one custom property wins: the greater one (css-cascade-5, section
/// 6.1).
pub(crate) fn compare(a: &LentMatched<'_>, b: &LentMatched<'_>) -> Ordering
    ensures { result ≡ key_cmp (head_of a.now) (head_of b.now) }
{
    compare_placed(
        a,
        b,
        u128::from(a.priority.index),
        u128::from(b.priority.index),
    )
}

/// Which of two declarations wins for a property that both set, each by itself or by a shorthand of
/// it: the greater one.
pub(crate) fn compare_for(id: PropId, a: &LentMatched<'_>, b: &LentMatched<'_>) -> Ordering
    ensures { result ≡ key_cmp (entry_of (property_of id) a.now) (entry_of (property_of id) b.now) }
{
    compare_placed(a, b, place_of(id, a), place_of(id, b))
}

/// How many declarations of longhands come before the one of this property.
fn place_of(id: PropId, d: &LentMatched<'_>) -> u128
    ensures { result ≡ (entry_of (property_of id) d.now).index }
{
    u128::from(d.priority.index) + u128::from(d.declared.offset(id))
}

/// Which of two is greater, where they stand at these places of their sheets' texts.
fn compare_placed(
    a: &LentMatched<'_>,
    b: &LentMatched<'_>,
    a_place: u128,
    b_place: u128,
) -> Ordering
    ensures { result ≡ key_cmp (matched_placed a_place a.now) (matched_placed b_place b.now) }
{
    band(a)
        .cmp(&band(b))
        .then(a.priority.attached.cmp(&b.priority.attached))
        .then(compare_layers(a, b))
        .then(a.priority.specificity.cmp(&b.priority.specificity))
        .then(a.priority.position.cmp(&b.priority.position))
        .then(a_place.cmp(&b_place))
}

/// Important declarations of the user agent are highest, normal ones of it lowest
/// (css-cascade-5, section 6.1).
fn band(d: &LentMatched<'_>) -> u32
    ensures { result ≡ band (head_of d.now).origin d.now.declared.now.important }
{
    match (d.declared.important, d.priority.origin) {
        (true, Origin::UserAgent) => 5,
        (true, Origin::User) => 4,
        (true, Origin::Author) => 3,
        (false, Origin::Author) => 2,
        (false, Origin::User) => 1,
        (false, Origin::UserAgent) => 0,
    }
}

/// The later layer wins, and among important declarations the earlier one (css-cascade-5, section
/// 6.4).
fn compare_layers(a: &LentMatched<'_>, b: &LentMatched<'_>) -> Ordering
    ensures { result ≡ layer_cmp a.now.declared.now.important a.now.priority.layer b.now.priority.layer }
{
    if a.declared.important {
        b.priority.layer.cmp(&a.priority.layer)
    } else {
        a.priority.layer.cmp(&b.priority.layer)
    }
}

/// Whether a declaration is of a custom property.
pub(crate) fn is_custom(d: &LentMatched<'_>) -> bool
    ensures { result ≡ is_of_custom d.now }
{
    matches!(d.declared.target, Target::Custom(_))
}
