//! The command line: the commands, and the arguments of each.

ghost use Rattle.std.specs.Prelude.{◌≡◌, Some, false, IfOk};
ghost use Rattle.clap.specs.Simple.{App, app_of, new_app, with_rule, with_subcommand};
ghost use Rattle.clap.specs.Walk.{rule_of};
ghost use Rattle.clap.specs.declared.builder.command.Command.TheViews.{out-Command};
ghost use Rattle.pcc_words.specs.App as apps;

use clap::builder::ValueParser;
use clap::{Arg, ArgAction, Command, value_parser};
use std::alloc::{AllocError, Global};

/// An argument that has to be there.
fn wanted<'a>(alloc: Global, id: &'a str, action: ArgAction, help: &'a str) -> Arg<'a>
    ensures { (rule_of result ≡ record (apps.wanted id.entry.now) { action = Some action }) × (result.global ≡ false) }
{
    Arg::new(alloc, id).action(action).required(true).help(help)
}

/// `-o NAME`
fn name<'a>(alloc: Global) -> Arg<'a>
    ensures { (rule_of result ≡ apps.name) × (result.global ≡ false) }
{
    wanted(
        alloc,
        "NAME",
        ArgAction::Set,
        "The image that is written; its map is NAME.map",
    )
    .short('o')
}

/// `SRC..`
fn sources<'a>(alloc: Global) -> Arg<'a>
    ensures { (rule_of result ≡ apps.sources) × (result.global ≡ false) }
{
    wanted(alloc, "SRC", ArgAction::Append, "The C files, 16 at most").num_args(1..)
}

/// An option whose value is a number of 64 bits.
fn number<'a>(alloc: Global, option: &'a str, standard: &'a str, help: &'a str) -> Arg<'a>
    ensures { (rule_of result ≡ apps.number option.entry.now standard.entry.now) × (result.global ≡ false) }
{
    Arg::new(alloc, "N")
        .long(option)
        .action(ArgAction::Set)
        .default_value(standard)
        .value_parser(value_parser!(u64))
        .help(help)
}

/// `N`, a number of 32 bits.
fn seed<'a>(alloc: Global) -> Arg<'a>
    ensures { (rule_of result ≡ apps.seed) × (result.global ≡ false) }
{
    wanted(
        alloc,
        "N",
        ArgAction::Set,
        "The number of the program, 4294967295 at most",
    )
    .value_parser(ValueParser::unsigned(0, u64::from(u32::MAX)))
}

/// A command with its first argument.
fn begun<'a>(
    alloc: Global,
    name: &'a str,
    about: &'a str,
    first: Arg<'a>,
) -> Result<Command<'a>, AllocError>
    requires local { first.global ≡ false }
    ensures { IfOk result (λ c. (app_of c ≡ with_rule (new_app name.entry.now) (rule_of first.entry))
        × ((out-Command c).has_globals ≡ false)) }
{
    Command::new(alloc, name).about(about).arg(first)
}

/// `compile -o NAME SRC..`
fn compile<'a>(alloc: Global) -> Result<Command<'a>, AllocError>
    ensures { IfOk result (λ c. (app_of c ≡ apps.compile) × ((out-Command c).has_globals ≡ false)) }
{
    match begun(
        alloc,
        "compile",
        "Compiles C files to an image, with a map of where its variables are",
        name(alloc),
    ) {
        Ok(command) => command.arg(sources(alloc)),
        Err(error) => Err(error),
    }
}

/// `run [--steps N] IMAGE`
fn run<'a>(alloc: Global) -> Result<Command<'a>, AllocError>
    ensures { IfOk result (λ c. (app_of c ≡ apps.run) × ((out-Command c).has_globals ≡ false)) }
{
    match begun(
        alloc,
        "run",
        "Runs an image in the machine",
        number(alloc, "steps", "1000000000", "The most steps that are made"),
    ) {
        Ok(command) => command.arg(wanted(alloc, "IMAGE", ArgAction::Set, "An ELF image for i386")),
        Err(error) => Err(error),
    }
}

/// `eval [--turns N] SRC..`
fn eval<'a>(alloc: Global) -> Result<Command<'a>, AllocError>
    ensures { IfOk result (λ c. (app_of c ≡ apps.eval) × ((out-Command c).has_globals ≡ false)) }
{
    match begun(
        alloc,
        "eval",
        "Evaluates C files",
        number(alloc, "turns", "100000000", "The most turns that are taken"),
    ) {
        Ok(command) => command.arg(sources(alloc)),
        Err(error) => Err(error),
    }
}

/// `solve FILE`
fn solve<'a>(alloc: Global) -> Result<Command<'a>, AllocError>
    ensures { IfOk result (λ c. (app_of c ≡ apps.solve) × ((out-Command c).has_globals ≡ false)) }
{
    begun(
        alloc,
        "solve",
        "Prints a legal placement of a board's pieces, or `none`",
        wanted(alloc, "FILE", ArgAction::Set, "The text of a board"),
    )
}

/// `gen N`
fn generate<'a>(alloc: Global) -> Result<Command<'a>, AllocError>
    ensures { IfOk result (λ c. (app_of c ≡ apps.generate) × ((out-Command c).has_globals ≡ false)) }
{
    begun(
        alloc,
        "gen",
        "Prints the generated C program of a number",
        seed(alloc),
    )
}

/// `selftest -o NAME N`
fn selftest<'a>(alloc: Global) -> Result<Command<'a>, AllocError>
    ensures { IfOk result (λ c. (app_of c ≡ apps.selftest) × ((out-Command c).has_globals ≡ false)) }
{
    match begun(
        alloc,
        "selftest",
        "Evaluates and compiles the generated C program of a number, and runs its image",
        name(alloc),
    ) {
        Ok(command) => command.arg(seed(alloc)),
        Err(error) => Err(error),
    }
}

/// `least FILE`
fn least<'a>(alloc: Global) -> Result<Command<'a>, AllocError>
    ensures { IfOk result (λ c. (app_of c ≡ apps.least) × ((out-Command c).has_globals ≡ false)) }
{
    begun(
        alloc,
        "least",
        "Prints the fewest pieces without which a board is solvable, and a placement of the others",
        wanted(alloc, "FILE", ArgAction::Set, "The text of a board"),
    )
}

/// `board SRC..`
fn board<'a>(alloc: Global) -> Result<Command<'a>, AllocError>
    ensures { IfOk result (λ c. (app_of c ≡ apps.board) × ((out-Command c).has_globals ≡ false)) }
{
    begun(
        alloc,
        "board",
        "Prints the map of C files: the board of each point, and where variables are",
        sources(alloc),
    )
}

/// The version that `--version` tells.
const VERSION: &str = "0.1.0";

/// The program without its commands, of which one is required.
fn top<'a>(alloc: Global) -> Result<Command<'a>, AllocError>
    ensures { IfOk result (λ c. app_of c ≡ apps.top) }
{
    Command::new(alloc, "pcc")
        .about("A compiler of a subset of C99 to static i386 ELF")
        .version(VERSION)
        .no_binary_name(true)
        .subcommand_required(true)
        .bin_name("pcc")
}

/// The program with one more command, where both are there.
fn with_command<'a>(
    program: Result<Command<'a>, AllocError>,
    command: Result<Command<'a>, AllocError>,
) -> Result<Command<'a>, AllocError>
    ensures { (some more : App) → IfOk program.entry (λ c. app_of c ≡ some)
        → IfOk command.entry (λ k. (app_of k ≡ more) × ((out-Command k).has_globals ≡ false))
        → IfOk result (λ r. app_of r ≡ with_subcommand some more.top) }
{
    program?.subcommand(command?)
}

/// All commands.
pub(crate) fn app<'a>(alloc: Global) -> Result<Command<'a>, AllocError>
    ensures { IfOk result (λ c. app_of c ≡ apps.app) }
{
    let with_compile = with_command(top(alloc), compile(alloc));
    let with_run = with_command(with_compile, run(alloc));
    let with_eval = with_command(with_run, eval(alloc));
    let with_solve = with_command(with_eval, solve(alloc));
    let with_generate = with_command(with_solve, generate(alloc));
    let with_selftest = with_command(with_generate, selftest(alloc));
    let with_least = with_command(with_selftest, least(alloc));
    with_command(with_least, board(alloc))
}
