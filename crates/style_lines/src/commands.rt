//! The commands of the program, as the crate clap takes them.

ghost use Rattle.std.specs.Prelude.{◌≡◌, IfOk, codes, false, true};
ghost use Rattle.clap.specs.Simple.{new_app, on_top, with_rule, with_subcommand};
ghost use Rattle.clap.specs.Words.{app_of, is_simple, is_simple_and_free, rule_of};
ghost use Rattle.clap.specs.declared.builder.command.Command.TheViews.{out-Command};
ghost use Rattle.style_lines.specs.Commands.{app, batches_rule, gen_app, nodes_rule, run_app, seed_rule};
ghost use Rattle.style_lines.specs.Commands.{share_rule, workers_rule};

use clap::{Arg, Command, value_parser};
use std::alloc::{AllocError, Global};
use stylo_base::limits::{BATCH_LIMIT, ELEMENT_LIMIT};

/// The most threads that a restyle may use.
pub(crate) const WORKER_LIMIT: u64 = 64;

/// The most elements for which styles are shared.
pub(crate) const SHARE_LIMIT: u64 = 64;

/// The program's command, which asks for one of its two subcommands.
#[tactic(auto, unfolding(crate::specs::Commands::app))]
pub(crate) fn style_command<'a>(alloc: Global) -> Result<Command<'a>, AllocError>
    ensures { IfOk result (λ command. app_of command ≡ app) }
{
    command_with_run(alloc)?.subcommand(gen_command(alloc)?)
}

/// The program's command with the first of its subcommands.
fn command_with_run<'a>(alloc: Global) -> Result<Command<'a>, AllocError>
    ensures { IfOk result (λ command. app_of command ≡ with_subcommand
        (on_top (λ top. record top { subcommand_required = true }) (new_app (codes "style"))) run_app.top) }
{
    Command::new(alloc, "style")
        .subcommand_required(true)
        .subcommand(run_command(alloc)?)
}

/// Of such a command clap says what it makes of any words, and why it refuses words.
#[tactic(auto, unfolding(crate::specs::Commands::app))]
pub(crate) fn style_command_is_simple()
    ensures matches { is_simple app ≡ true }
    ensures faults { is_simple_and_free app ≡ true }
{}

/// Styles the job on standard input.
fn run_command<'a>(alloc: Global) -> Result<Command<'a>, AllocError>
    ensures app { IfOk result (λ command. app_of command ≡ run_app) }
    ensures local { IfOk result (λ command. (out-Command command).has_globals ≡ false) }
{
    Command::new(alloc, "run")
        .arg(workers_arg(alloc))?
        .arg(share_arg(alloc))
}

/// Makes a large job and styles it.
fn gen_command<'a>(alloc: Global) -> Result<Command<'a>, AllocError>
    ensures app { IfOk result (λ command. app_of command ≡ gen_app) }
    ensures local { IfOk result (λ command. (out-Command command).has_globals ≡ false) }
{
    gen_command_of_size(alloc)?
        .arg(batches_arg(alloc))?
        .arg(workers_arg(alloc))
}

/// The same with the first of its options alone: the number, and how many elements.
fn gen_command_of_size<'a>(alloc: Global) -> Result<Command<'a>, AllocError>
    ensures app { IfOk result (λ command. app_of command
        ≡ with_rule (with_rule (new_app (codes "gen")) seed_rule) nodes_rule) }
    ensures local { IfOk result (λ command. (out-Command command).has_globals ≡ false) }
{
    Command::new(alloc, "gen")
        .arg(seed_arg(alloc))?
        .arg(nodes_arg(alloc))
}

/// How many threads a restyle may use.
fn workers_arg<'a>(alloc: Global) -> Arg<'a>
    ensures rule { rule_of result ≡ workers_rule }
    ensures local { result.global ≡ false }
{
    Arg::new(alloc, "workers")
        .long("workers")
        .value_parser(value_parser!(u64).range(1..=WORKER_LIMIT as i64))
        .default_value("4")
}

/// For how many elements styles are shared.
fn share_arg<'a>(alloc: Global) -> Arg<'a>
    ensures rule { rule_of result ≡ share_rule }
    ensures local { result.global ≡ false }
{
    Arg::new(alloc, "share")
        .long("share")
        .value_parser(value_parser!(u64).range(0..=SHARE_LIMIT as i64))
        .default_value("32")
}

/// The number that a job is made from.
fn seed_arg<'a>(alloc: Global) -> Arg<'a>
    ensures rule { rule_of result ≡ seed_rule }
    ensures local { result.global ≡ false }
{
    Arg::new(alloc, "seed")
        .long("seed")
        .value_parser(value_parser!(u64))
        .required(true)
}

/// How many elements the job has.
fn nodes_arg<'a>(alloc: Global) -> Arg<'a>
    ensures rule { rule_of result ≡ nodes_rule }
    ensures local { result.global ≡ false }
{
    Arg::new(alloc, "nodes")
        .long("nodes")
        .value_parser(value_parser!(u64).range(1..=ELEMENT_LIMIT as i64))
        .required(true)
}

/// How many batches of edits the job has.
fn batches_arg<'a>(alloc: Global) -> Arg<'a>
    ensures rule { rule_of result ≡ batches_rule }
    ensures local { result.global ≡ false }
{
    Arg::new(alloc, "batches")
        .long("batches")
        .value_parser(value_parser!(u64).range(0..=BATCH_LIMIT as i64))
        .required(true)
}
