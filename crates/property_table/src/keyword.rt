//! The keywords that values are made of.

ghost use Rattle.std.specs.Prelude.{◌≡◌, true};
ghost use Rattle.stylo_base.specs.Ascii.{is_all_ascii};
ghost use Rattle.property_table.specs.View.{word_of};

/// A keyword of a value.
#[derive(Clone, Copy, Debug, PartialEq, Eq)]
pub enum Keyword {
    Inline,
    Block,
    InlineBlock,
    Flex,
    InlineFlex,
    None,
    Static,
    Relative,
    Absolute,
    Fixed,
    Sticky,
    Left,
    Right,
    Both,
    Visible,
    Hidden,
    Collapse,
    Scroll,
    Auto,
    Ltr,
    Rtl,
    Dotted,
    Dashed,
    Solid,
    Double,
    Groove,
    Ridge,
    Inset,
    Outset,
    Normal,
    Italic,
    Oblique,
    Larger,
    Smaller,
    Bolder,
    Lighter,
    CurrentColor,
}

/// All keywords, in the order of the variants.
pub const KEYWORDS: &[Keyword] = &[
    Keyword::Inline,
    Keyword::Block,
    Keyword::InlineBlock,
    Keyword::Flex,
    Keyword::InlineFlex,
    Keyword::None,
    Keyword::Static,
    Keyword::Relative,
    Keyword::Absolute,
    Keyword::Fixed,
    Keyword::Sticky,
    Keyword::Left,
    Keyword::Right,
    Keyword::Both,
    Keyword::Visible,
    Keyword::Hidden,
    Keyword::Collapse,
    Keyword::Scroll,
    Keyword::Auto,
    Keyword::Ltr,
    Keyword::Rtl,
    Keyword::Dotted,
    Keyword::Dashed,
    Keyword::Solid,
    Keyword::Double,
    Keyword::Groove,
    Keyword::Ridge,
    Keyword::Inset,
    Keyword::Outset,
    Keyword::Normal,
    Keyword::Italic,
    Keyword::Oblique,
    Keyword::Larger,
    Keyword::Smaller,
    Keyword::Bolder,
    Keyword::Lighter,
    Keyword::CurrentColor,
];

/// The text of each keyword, in the order of the variants. Contracts read it here, as `word_of`; which
/// texts a property takes is said by the definition of its row.
const WORDS: &[&str] = &[
    "inline",
    "block",
    "inline-block",
    "flex",
    "inline-flex",
    "none",
    "static",
    "relative",
    "absolute",
    "fixed",
    "sticky",
    "left",
    "right",
    "both",
    "visible",
    "hidden",
    "collapse",
    "scroll",
    "auto",
    "ltr",
    "rtl",
    "dotted",
    "dashed",
    "solid",
    "double",
    "groove",
    "ridge",
    "inset",
    "outset",
    "normal",
    "italic",
    "oblique",
    "larger",
    "smaller",
    "bolder",
    "lighter",
    "currentcolor",
];

impl Keyword {
    /// The keyword in lower case, as it is printed.
    pub fn text(self) -> &'static str
        ensures word { result.now ≡ word_of self }
        ensures ascii { is_all_ascii result.now ≡ true }
    {
        WORDS[self as usize]
    }
}
