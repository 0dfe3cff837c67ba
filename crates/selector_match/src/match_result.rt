//! The answer of the matcher: whether a selector matches an element, and if not, where the search may go on.

ghost use Rattle.std.specs.Prelude.{◌≡◌};
ghost use Rattle.selector_match.specs.Results.{told_of, weakest as model_weakest};

/// Whether a selector matches an element. Where it does not, the case says how far back the search has to go before it
/// can succeed, so that nothing is tried twice for the same reason. The cases are those of Servo's matcher.
#[derive(Clone, Copy, PartialEq, Eq)]
pub(crate) enum MatchResult {
    /// The selector matches (Servo's `Matched`).
    Matched,
    /// It does not match this element. The closest `~` to the right goes on with the sibling before, a descendant
    /// combinator with the parent (Servo's `NotMatchedAndRestartFromClosestLaterSibling`).
    RestartFromSibling,
    /// It matches neither this element nor a sibling before it. So a `~` to the right has nothing more to try, and the
    /// closest descendant combinator goes on with the parent (Servo's `NotMatchedAndRestartFromClosestDescendant`).
    RestartFromDescendant,
    /// It matches neither this element nor any other whose ancestors are among those of this one. So no combinator
    /// to the right has anything more to try (Servo's `NotMatchedGlobally`).
    NotMatchedGlobally,
}

impl MatchResult {
    /// The result of a test that tells of one element alone.
    pub fn told(holds: bool) -> MatchResult
        ensures { result ≡ told_of holds }
    {
        if holds {
            MatchResult::Matched
        } else {
            MatchResult::RestartFromSibling
        }
    }

    /// What two results tell of a try of either selector: that one holds, or no more than both tell.
    pub fn weakest(self, other: MatchResult) -> MatchResult
        ensures { result ≡ model_weakest self other }
    {
        match (self, other) {
            (MatchResult::Matched, _) | (_, MatchResult::Matched) => MatchResult::Matched,
            (MatchResult::NotMatchedGlobally, told) | (told, MatchResult::NotMatchedGlobally) =>
                told,
            (MatchResult::RestartFromDescendant, told) => told,
            (MatchResult::RestartFromSibling, _) => MatchResult::RestartFromSibling,
        }
    }
}
