//! What is true of the definitions that the contracts cite, as the contracts of functions that do
//! nothing.

ghost use Rattle.std.specs.Prelude.{◌≡◌, ◌↔◌, ℕ, [], List, is_some, true};
ghost use Rattle.base_model.specs.LineFeeds.{line_feeds};
ghost use Rattle.clap.specs.Words.{Text, fault_of};
ghost use Rattle.job_json.specs.Gen.{generated};
ghost use Rattle.style_lines.specs.Commands.{app};
ghost use Rattle.style_cli.specs.Sums.{sums_of};
ghost use Rattle.style_cli.specs.Text.{text_of};
ghost use Rattle.style_lines.specs.Words.{line_of};

/// Words ask for something exactly where clap finds no fault with them.
#[tactic(auto, using(style_lines::proofs::WordLemmas::line_is_faultless))]
pub(crate) fn lines_are_faultless()
    ensures { (words : List Text) → (is_some (line_of words) ≡ true) ↔ (fault_of app words ≡ []) }
{}

/// The lines that are counted of a generated job are the line feeds of the text that a run of it
/// writes.
#[tactic(auto, using(crate::proofs::LineLemmas::generated_lines))]
pub(crate) fn lines_are_line_feeds()
    ensures { (seed nodes batches : ℕ)
        → (sums_of (generated seed nodes batches)).lines
        ≡ line_feeds (text_of (generated seed nodes batches)) }
{}
