//! The words of the command line.

ghost use Rattle.std.specs.Prelude.{◌≡◌, ◌≢◌, ◌≤◌, IfOk, IfSome, Err, None, Some, map, option_map, string_bytes};
ghost use Rattle.clap.specs.Words.{found_of, rows_of, subcommand_rows_of};
ghost use Rattle.style_lines.specs.Commands.{worker_limit};
ghost use Rattle.style_lines.specs.Words.{IsInRange, gen_line, line_in, line_of, number_in, number_of};
ghost use Rattle.style_lines.specs.Words.{run_line, workers_in};

use crate::commands::{SHARE_LIMIT, WORKER_LIMIT, style_command, style_command_is_simple};
use clap::ArgMatches;
use clap::error::ErrorKind;
use std::alloc::Global;
use stylo_base::limits::{BATCH_LIMIT, ELEMENT_LIMIT};

/// What a command line asks for.
#[derive(Clone, Copy)]
pub enum Line {
    /// Style the job on standard input.
    Run {
        workers: u32,
        share: u32,
    },
    /// Make a large job from a number, style it, and tell sums of its text.
    Gen {
        seed: u64,
        nodes: u32,
        batches: u32,
        workers: u32,
    },
}

/// Why words are no line that can be followed.
#[derive(Clone, Copy)]
pub enum WordsError {
    /// They are no command line.
    NoLine,
    /// There was no memory to read them.
    NoMemory,
}

/// Reads the words, of which the first is the program's name.
pub fn read_line(alloc: Global, words: &[String]) -> Result<Line, WordsError>
    ensures line { IfOk result (λ line. line_of (map string_bytes words.now) ≡ Some line) }
    ensures none { result ≡ Err WordsError.NoLine → line_of (map string_bytes words.now) ≡ None }
    ensures ranges { IfOk result IsInRange }
{
    style_command_is_simple();
    let Ok(command) = style_command(alloc) else {
        return Err(WordsError::NoMemory);
    };
    match command.try_get_matches_from(words) {
        Ok(matches) => line_in(&matches).ok_or(WordsError::NoLine),
        Err(error) => Err(words_error(error.kind())),
    }
}

/// Why there is no line, by the kind of what clap found: it was out of memory, or else it finds fault with the words.
fn words_error(kind: ErrorKind) -> WordsError
    ensures memory { kind ≡ ErrorKind.OutOfMemory → result ≡ WordsError.NoMemory }
    ensures words { kind ≢ ErrorKind.OutOfMemory → result ≡ WordsError.NoLine }
{
    match kind {
        ErrorKind::OutOfMemory => WordsError::NoMemory,
        _ => WordsError::NoLine,
    }
}

/// What the words that were taken ask for.
fn line_in(matches: &ArgMatches<'_>) -> Option<Line>
    ensures line { result ≡ option_map (λ taken. line_in taken.0 taken.1) (subcommand_rows_of matches.now) }
    ensures ranges { IfSome result IsInRange }
{
    match matches.subcommand() {
        Some(("run", found)) => Some(run_line(found)),
        Some((_, found)) => Some(gen_line(found)),
        None => None,
    }
}

fn run_line(found: &ArgMatches<'_>) -> Line
    ensures line { result ≡ run_line (rows_of (found_of found.now)) }
    ensures ranges { IsInRange result }
{
    Line::Run {
        workers: workers_in(found),
        share: number_in(found, "share", 0, SHARE_LIMIT) as u32,
    }
}

fn gen_line(found: &ArgMatches<'_>) -> Line
    ensures line { result ≡ gen_line (rows_of (found_of found.now)) }
    ensures ranges { IsInRange result }
{
    Line::Gen {
        seed: number_in(found, "seed", 0, u64::MAX),
        nodes: number_in(found, "nodes", 1, ELEMENT_LIMIT as u64) as u32,
        batches: number_in(found, "batches", 0, BATCH_LIMIT as u64) as u32,
        workers: workers_in(found),
    }
}

fn workers_in(found: &ArgMatches<'_>) -> u32
    ensures number { result ≡ workers_in (rows_of (found_of found.now)) }
    ensures range { (1 ≤ result) × (result ≤ worker_limit) }
{
    number_in(found, "workers", 1, WORKER_LIMIT) as u32
}

/// The number of the option of this name, moved into its range. clap has tested that it lies there,
/// but doesn't say so of a subcommand.
#[tactic(auto, using(crate::proofs::WordLemmas::first_given))]
fn number_in(found: &ArgMatches<'_>, name: &str, least: u64, most: u64) -> u64
    requires { least ≤ most }
    ensures number { result ≡ number_in least most name.now (rows_of (found_of found.now)) }
    ensures range { (least ≤ result) × (result ≤ most) }
{
    number_of(found.get_str(name)).clamp(least, most)
}

/// The number that a value spells, or 0 where there is none.
#[tactic(auto, using(crate::proofs::WordLemmas::spelled))]
fn number_of(value: Option<&str>) -> u64
    ensures { result ≡ number_of (option_map (λ text. text.now) value.entry) }
{
    match value {
        Some(text) => text.parse().unwrap_or(0),
        None => 0,
    }
}
