//! Draws of the numbers that a generated job is made of, and the texts that they choose.

ghost use Rattle.std.specs.Prelude.{◌≡◌, ◌<◌, IfOk, OnOk};
ghost use Rattle.std.specs.Str.{chars};
ghost use Rattle.job_json.specs.Draws.{draw};
ghost use Rattle.job_json.specs.Gen.{tag_text, class_text, id_text};

use rand_core::utils::NextWord;
use rand_xoshiro::SplitMix64;
use stylo_base::{NoMemory, Text};

/// Draws a number below `n`.
#[inline]
#[tactic(auto, unfolding(crate::specs::Draws::draw))]
pub(crate) fn draw(rng: &mut SplitMix64, n: u64) -> u64
    requires { 0 < n }
    ensures number { result ≡ (draw n rng.old).0 }
    ensures state { rng.new ≡ (draw n rng.old).1 }
    ensures below { result < n }
{
    rng.next_word() % n
}

/// The tag that a number below 4 chooses.
#[tactic(auto, using(crate::proofs::TagLaws::tag_characters))]
pub(crate) fn tag_text(k: u64) -> &'static str
    ensures { chars result.now ≡ tag_text k }
{
    match k {
        0 => "p",
        1 => "i",
        2 => "b",
        _ => "u",
    }
}

/// Makes `text` the class that a number below 16 chooses.
pub(crate) fn write_class(text: &mut Text, k: u64) -> Result<(), NoMemory>
    ensures { OnOk result (text.new ≡ class_text k) }
{
    text.clear();
    text.push_str("c")?;
    text.push_number(k)
}

/// Makes `text` the id of the node at an index.
pub(crate) fn write_id(text: &mut Text, index: u64) -> Result<(), NoMemory>
    ensures { OnOk result (text.new ≡ id_text index) }
{
    text.clear();
    text.push_str("n")?;
    text.push_number(index)
}
