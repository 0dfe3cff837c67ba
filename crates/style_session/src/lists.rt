//! What a restyle goes by.

ghost use Rattle.std.specs.Prelude.{◌≡◌, false, not};
ghost use Rattle.std.proofs.Props.{props};
ghost use Rattle.std.proofs.lemmas.Map.Keys.{IsDistinct-prop};
ghost use Rattle.scene_model.specs.Document.{Document};
ghost use Rattle.scene_model.specs.Lookups.{IsElement};
ghost use Rattle.change_model.specs.Sound.{IsSound};
ghost use Rattle.session_model.specs.Standing.{has_size, is_matched as model_is_matched, is_style};
ghost use Rattle.session_model.specs.StandingInvariant.{AllKeep};
ghost use Rattle.style_session.specs.KeptView.{style_at};
ghost use Rattle.style_session.specs.PendingView.{is_pending_in};
ghost use Rattle.style_session.specs.SessionView.{standing_seen};

use crate::kept_styles::KeptStyles;
use crate::pending::Pending;
use element_styler::Inputs;
use style_value::Style;
use stylo_base::Fixed;

/// The marks and the styles of a session, lent to a restyle that is not the first, with what styles are computed from.
#[derive(Clone, Copy)]
pub(crate) struct Lists<'a> {
    /// What styles are computed from.
    pub inputs: &'a Inputs<'a>,
    /// The marked and the fresh elements: the first restyle, for which all are fresh, has a walk of its own.
    pub pending: &'a Pending,
    /// The styles that elements had at the last restyle.
    pub kept: &'a KeptStyles,
    ghost later: { pending.now.all_fresh ≡ false },
    ghost sound: { IsSound inputs.now.doc.now } by { Prim.hlevel (props, IsDistinct-prop) },
    ghost keeps: { ∥ AllKeep (standing_seen inputs.now.doc.now inputs.now.sheets.now pending.now kept.now) ∥₁ },
}

impl Lists<'_> {
    ghost use Rattle.style_session.specs.Lent.{lent};

    /// Whether the rules of an element are to be matched: it is marked or fresh.
    pub(crate) fn is_matched(&self, x: u32) -> bool
        requires { IsElement self.now.inputs.now.doc.now.elements x }
        ensures { result ≡ model_is_matched (lent self.now) x }
    {
        self.pending.contains(x)
    }

    /// Whether no style is kept of an element, or one that is not equal to this.
    pub(crate) fn is_other_style(&self, x: u32, style: &Style) -> bool
        ensures { result ≡ not (is_style style.now (style_at self.now.kept.now x)) }
    {
        match self.kept.style(x) {
            Some(kept) => !kept.is_same(style),
            None => true,
        }
    }

    /// Whether no style is kept of an element, or one with another font size than this.
    pub(crate) fn is_other_size(&self, x: u32, size: Fixed) -> bool
        ensures { result ≡ not (has_size size (style_at self.now.kept.now x)) }
    {
        match self.kept.style(x) {
            Some(kept) => kept.font_size() != size,
            None => true,
        }
    }
}
