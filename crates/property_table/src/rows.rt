//! The rows of the table, in the order in which they are printed. All that is known of a property is
//! written here once, and each constant below takes from the rows what it needs.

ghost use Rattle.std.specs.Prelude.{◌≡◌, map};
ghost use Rattle.property_table.specs.ValueParts.{initial_values, value_amount};

use crate::word::{COLOR, FIRST_KEYWORD, NUMBER, PIXELS};
use crate::{COUNT, Color, ComputeRule, Constant, Keyword, PropId, PropertyRow, ValueForm};
use stylo_base::Fixed;

/// The greatest number, in thousandths.
const MOST: i64 = 2_000_000_000_000;

/// Hands a row for each property to a macro, after what else is given to it. A row begins with whether
/// its property is inherited, a form of `row!`, and the property.
#[macro_export]
macro_rules! property_rows {
    ($to:ident $($with:tt)*) => {
        $to! {
            $($with)*
            [inherited value Color, "color", (Color 0 0 0 255), Color, (&[ValueForm::AnyColor])]
            [inherited words Direction, "direction", Ltr Rtl]
            [own words Display, "display", Inline Block InlineBlock Flex InlineFlex None]
            [own words Position, "position", Static Relative Absolute Fixed Sticky]
            [own words Float, "float", None Left Right]
            [own words Clear, "clear", None Left Right Both]
            [inherited words Visibility, "visibility", Visible Hidden Collapse]
            [own overflow OverflowX, "overflow-x"]
            [own overflow OverflowY, "overflow-y"]
            [own box_size Width, "width", Auto]
            [own box_size Height, "height", Auto]
            [own box_size MinWidth, "min-width", Auto]
            [own box_size MinHeight, "min-height", Auto]
            [own box_size MaxWidth, "max-width", None]
            [own box_size MaxHeight, "max-height", None]
            [own margin MarginTop, "margin-top"]
            [own margin MarginRight, "margin-right"]
            [own margin MarginBottom, "margin-bottom"]
            [own margin MarginLeft, "margin-left"]
            [own padding PaddingTop, "padding-top"]
            [own padding PaddingRight, "padding-right"]
            [own padding PaddingBottom, "padding-bottom"]
            [own padding PaddingLeft, "padding-left"]
            [own border_width BorderTopWidth, "border-top-width"]
            [own border_width BorderRightWidth, "border-right-width"]
            [own border_width BorderBottomWidth, "border-bottom-width"]
            [own border_width BorderLeftWidth, "border-left-width"]
            [own border_style BorderTopStyle, "border-top-style"]
            [own border_style BorderRightStyle, "border-right-style"]
            [own border_style BorderBottomStyle, "border-bottom-style"]
            [own border_style BorderLeftStyle, "border-left-style"]
            [own color BorderTopColor, "border-top-color", (Keyword CurrentColor)]
            [own color BorderRightColor, "border-right-color", (Keyword CurrentColor)]
            [own color BorderBottomColor, "border-bottom-color", (Keyword CurrentColor)]
            [own color BorderLeftColor, "border-left-color", (Keyword CurrentColor)]
            [own color BackgroundColor, "background-color", (Color 0 0 0 0)]
            [inherited value FontSize, "font-size", (Pixels 16_000), FontSize, (&[
                ValueForm::Named("xx-small", Constant::Pixels(9_000)),
                ValueForm::Named("x-small", Constant::Pixels(10_000)),
                ValueForm::Named("small", Constant::Pixels(13_000)),
                ValueForm::Named("medium", Constant::Pixels(16_000)),
                ValueForm::Named("large", Constant::Pixels(18_000)),
                ValueForm::Named("x-large", Constant::Pixels(24_000)),
                ValueForm::Named("xx-large", Constant::Pixels(32_000)),
                ValueForm::Word(Keyword::Larger),
                ValueForm::Word(Keyword::Smaller),
                ValueForm::Length { negative: false, zero: true },
                ValueForm::Percentage { negative: false },
            ])]
            [inherited value FontWeight, "font-weight", (Number 400_000), FontWeight, (&[
                ValueForm::Named("normal", Constant::Number(400_000)),
                ValueForm::Named("bold", Constant::Number(700_000)),
                ValueForm::Word(Keyword::Bolder),
                ValueForm::Word(Keyword::Lighter),
                ValueForm::Number { least: 1_000, most: 1_000_000 },
            ])]
            [inherited words FontStyle, "font-style", Normal Italic Oblique]
            [inherited value LineHeight, "line-height", (Keyword Normal), LineHeight, (&[
                ValueForm::Word(Keyword::Normal),
                ValueForm::Number { least: 0, most: MOST },
                ValueForm::Length { negative: false, zero: false },
                ValueForm::Percentage { negative: false },
            ])]
        }
    };
}

/// Hands a row to a macro in one form, after a word for it: whether it is inherited, the property, its
/// name, its initial value, the value that is not printed, how it is computed, and what it takes.
macro_rules! row {
    // The initial value is not printed.
    ($to:ident $with:ident $flow:ident value $id:ident, $name:literal, $initial:tt, $rule:ident, $forms:tt) => {
        $to!($with, $flow, $id, $name, $initial, $initial, $rule, $forms)
    };
    // A property that takes keywords alone, of which the first is the initial value.
    ($to:ident $with:ident $flow:ident words $id:ident, $name:literal, $initial:ident $($other:ident)*) => {
        row!($to $with $flow value $id, $name, (Keyword $initial), Plain, (&[
            ValueForm::Word(Keyword::$initial)
            $(, ValueForm::Word(Keyword::$other))*
        ]))
    };
    // The overflow on an axis.
    ($to:ident $with:ident $flow:ident overflow $id:ident, $name:literal) => {
        row!($to $with $flow words $id, $name, Visible Hidden Scroll Auto)
    };
    // A colour.
    ($to:ident $with:ident $flow:ident color $id:ident, $name:literal, $initial:tt) => {
        row!($to $with $flow value $id, $name, $initial, Plain, (&[ValueForm::AnyColor]))
    };
    // A size of a box, which takes a keyword, its initial value.
    ($to:ident $with:ident $flow:ident box_size $id:ident, $name:literal, $word:ident) => {
        row!($to $with $flow value $id, $name, (Keyword $word), Plain, (&[
            ValueForm::Word(Keyword::$word),
            ValueForm::Length { negative: false, zero: true },
            ValueForm::Percentage { negative: false },
        ]))
    };
    ($to:ident $with:ident $flow:ident margin $id:ident, $name:literal) => {
        row!($to $with $flow value $id, $name, (Pixels 0), Plain, (&[
            ValueForm::Word(Keyword::Auto),
            ValueForm::Length { negative: true, zero: true },
            ValueForm::Percentage { negative: true },
        ]))
    };
    ($to:ident $with:ident $flow:ident padding $id:ident, $name:literal) => {
        row!($to $with $flow value $id, $name, (Pixels 0), Plain, (&[
            ValueForm::Length { negative: false, zero: true },
            ValueForm::Percentage { negative: false },
        ]))
    };
    // The width of a border, of which nothing is printed where there is none.
    ($to:ident $with:ident $flow:ident border_width $id:ident, $name:literal) => {
        $to!($with, $flow, $id, $name, (Pixels 3_000), (Pixels 0), Plain, (&[
            ValueForm::Named("thin", Constant::Pixels(1_000)),
            ValueForm::Named("medium", Constant::Pixels(3_000)),
            ValueForm::Named("thick", Constant::Pixels(5_000)),
            ValueForm::Length { negative: false, zero: true },
        ]))
    };
    ($to:ident $with:ident $flow:ident border_style $id:ident, $name:literal) => {
        row!(
            $to $with $flow words $id, $name,
            None Hidden Dotted Dashed Solid Double Groove Ridge Inset Outset
        )
    };
}

/// What a macro makes of each row.
macro_rules! of_each {
    ($to:ident $with:ident $([$($row:tt)*])*) => {
        [$(row!($to $with $($row)*)),*]
    };
}

/// A value that the table names.
macro_rules! constant {
    (Keyword $word:ident) => {
        Constant::Keyword(Keyword::$word)
    };
    (Color $red:literal $green:literal $blue:literal $alpha:literal) => {
        Constant::Color(Color {
            red: $red,
            green: $green,
            blue: $blue,
            alpha: $alpha,
        })
    };
    ($kind:ident $amount:literal) => {
        Constant::$kind($amount)
    };
}

/// The word of a value that the table names.
macro_rules! word {
    (Keyword $word:ident) => {
        FIRST_KEYWORD + Keyword::$word as u8
    };
    (Color $($part:literal)*) => {
        COLOR
    };
    (Pixels $amount:literal) => {
        PIXELS
    };
    (Number $amount:literal) => {
        NUMBER
    };
}

/// Its amount.
macro_rules! amount {
    (Keyword $word:ident) => {
        0
    };
    (Color $red:literal $green:literal $blue:literal $alpha:literal) => {
        (($red * 256 + $green) * 256 + $blue) * 256 + $alpha
    };
    ($kind:ident $amount:literal) => {
        $amount
    };
}

macro_rules! is_inherited {
    (inherited) => {
        true
    };
    (own) => {
        false
    };
}

/// The row of the table, which is this struct.
macro_rules! table_row {
    (
        $row:ident, $flow:ident, $id:ident, $name:literal,
        ($($initial:tt)*), ($($standing:tt)*), $rule:ident, ($forms:expr)
    ) => {
        $row {
            id: PropId::$id,
            name: $name,
            label: concat!($name, ": "),
            inherited: is_inherited!($flow),
            initial: constant!($($initial)*),
            standing: constant!($($standing)*),
            forms: $forms,
            rule: ComputeRule::$rule,
        }
    };
}

/// What a macro makes of the initial value.
macro_rules! initial {
    ($of:ident, $flow:ident, $id:ident, $name:literal, ($($initial:tt)*), $($others:tt)*) => {
        $of!($($initial)*)
    };
}

/// What a macro makes of the value that is not printed.
macro_rules! standing {
    ($of:ident, $flow:ident, $id:ident, $name:literal, $initial:tt, ($($standing:tt)*), $($others:tt)*) => {
        $of!($($standing)*)
    };
}

/// The properties that are inherited, of rows, behind those that were found.
macro_rules! inherited_ids {
    ([$($id:ident)*]) => {
        &[$(PropId::$id),*]
    };
    ([$($found:ident)*] [inherited $form:ident $id:ident $($row:tt)*] $($rows:tt)*) => {
        inherited_ids!([$($found)* $id] $($rows)*)
    };
    ([$($found:ident)*] [own $($row:tt)*] $($rows:tt)*) => {
        inherited_ids!([$($found)*] $($rows)*)
    };
}

/// A row for each property.
pub(crate) const ROWS: &[PropertyRow] = &property_rows!(of_each table_row PropertyRow);

/// The properties that are inherited, in the order of the table.
pub(crate) const INHERITED: &[PropId] = property_rows!(inherited_ids []);

/// The initial value of each property. Contracts read it here, and in `STANDING_VALUES`.
pub const INITIAL_VALUES: [Constant; COUNT] = property_rows!(of_each initial constant);

/// The value of each property that is not printed.
pub const STANDING_VALUES: [Constant; COUNT] = property_rows!(of_each standing constant);

/// The word of the initial value of each property, which is that of its standing value too.
pub const WORDS: [u8; COUNT] = property_rows!(of_each initial word);

/// The amount of the standing value of each property.
pub const STANDING: [i64; COUNT] = property_rows!(of_each standing amount);

/// Gives the property of a row its initial amount, which is 0 before.
macro_rules! set_amount {
    ($amounts:ident $id:ident Keyword $word:ident) => {};
    ($amounts:ident $id:ident Color 0 0 0 0) => {};
    ($amounts:ident $id:ident Pixels 0) => {};
    ($amounts:ident $id:ident $($initial:tt)*) => {
        $amounts[PropId::$id.row()] = Fixed::clamp(amount!($($initial)*));
    };
}

macro_rules! set_initial {
    ($amounts:ident, $flow:ident, $id:ident, $name:literal, ($($initial:tt)*), $($others:tt)*) => {
        set_amount!($amounts $id $($initial)*)
    };
}

macro_rules! set_amounts {
    ($amounts:ident $([$($row:tt)*])*) => {
        $(row!(set_initial $amounts $($row)*);)*
    };
}

/// The amount of the initial value of each property.
#[inline]
pub fn initial_amounts() -> [Fixed; COUNT]
    ensures { result ≡ map value_amount initial_values }
{
    let mut amounts = [Fixed::zero(); COUNT];
    property_rows!(set_amounts amounts);
    amounts
}
