//! The command that the matches mean.

ghost use Rattle.std.specs.Prelude.{
  ◌≡◌,
  ◌≢◌,
  ◌||◌,
  ⊤,
  IfOk,
  MatchResult,
  Some,
  map,
  length,
  nat_lt,
  string_bytes,
  bytes_eq,
  codes,
};
ghost use Rattle.clap.specs.Values.{kind_of};
ghost use Rattle.clap.specs.Words.{all_of, first_of, found_of, rows_of, subcommand_rows_of};
ghost use Rattle.clap.specs.declared.error.kind.ErrorKind.TheVariants.{OutOfMemory};
ghost use Rattle.pcc_words.specs.Asked.{
  asked_by,
  asked_in,
  board_asked,
  board_command,
  clashes,
  command_of,
  compile_asked,
  compile_command,
  eval_asked,
  eval_command,
  file_count_limit,
  gen_asked,
  gen_command,
  least_asked,
  map_name,
  number_of,
  run_asked,
  run_command,
  selftest_asked,
  selftest_command,
  solve_asked,
  Usage,
};
ghost use Rattle.pcc_words.specs.App.{u32_max, u64_max};
ghost use Rattle.pcc_words.specs.Words.{meaning};

use crate::app::app;
use crate::command::Command;
use clap::error::ErrorKind;
use clap::{ArgMatches, Error};
use pcc_base::NoMemory;
use std::alloc::{AllocError, Global};

/// The most sources of one command.
pub(crate) const FILE_COUNT_LIMIT: usize = 16;

/// The source is NAME.map.
fn is_map_of(source: &str, name: &str) -> bool
    ensures { result ≡ bytes_eq (map_name name.now) source.now }
{
    match source.as_bytes().strip_suffix(b".map") {
        Some(front) => front == name.as_bytes(),
        None => false,
    }
}

/// The source is NAME or NAME.map.
fn is_written(name: &str, source: &str) -> bool
    ensures { result ≡ (bytes_eq name.now source.now || bytes_eq (map_name name.now) source.now) }
{
    name == source || is_map_of(source, name)
}

/// The commands with their options, told of words that mean none.
const COMMANDS: &str = "\
Commands:
  pcc compile -o NAME SRC..   compiles C files to the image NAME and its map NAME.map
  pcc run [--steps N] IMAGE   runs an image in the machine
  pcc eval [--turns N] SRC..  evaluates C files
  pcc solve FILE              prints a legal placement of a board's pieces, or `none`
  pcc gen N                   prints the generated C program of the number N
  pcc selftest -o NAME N      evaluates and compiles that program, and runs its image, NAME
  pcc least FILE              prints the fewest pieces without which a board is solvable, and places the others
  pcc board SRC..             prints the map of C files, with the board of each point
";

/// No command, and what is told instead.
fn told<'a>(text: Result<String, AllocError>) -> Result<Command<'a>, NoMemory>
    ensures { IfOk result (λ c. meaning c ≡ Usage) }
{
    match text {
        Ok(text) => Ok(Command::Usage(text)),
        Err(_) => Err(NoMemory),
    }
}

/// No command, and why.
fn usage<'a>(alloc: Global, text: &str) -> Result<Command<'a>, NoMemory>
    ensures { IfOk result (λ c. meaning c ≡ Usage) }
{
    told(format!(in alloc; "error: {text}\n\n{COMMANDS}"))
}

/// The same sources.
fn copied<'a>(alloc: Global, sources: &[&'a str]) -> Result<Vec<&'a str>, NoMemory>
    ensures { IfOk result (λ copies. copies.items ≡ sources.now) }
{
    Ok(Vec::from_slice(alloc, sources)?)
}

/// There are more sources than are read.
fn are_many(sources: &[&str]) -> bool
    ensures { result ≡ nat_lt file_count_limit (length sources.now) }
{
    sources.len() > FILE_COUNT_LIMIT
}

/// Some source is what is written.
fn is_any_written(name: &str, sources: &[&str]) -> bool
    ensures { result ≡ clashes name.now (map (λ s. s.now) sources.now) }
{
    sources.iter().any(|source| is_written(name, source))
}

/// `compile`, where NAME and NAME.map are other names than each SRC.
fn compile_of<'a>(
    alloc: Global,
    name: &'a str,
    sources: &[&'a str],
) -> Result<Command<'a>, NoMemory>
    ensures { IfOk result (λ c. meaning c ≡ compile_command name.now (map (λ s. s.now) sources.now)) }
{
    if are_many(sources) {
        return Ok(Command::ManyFiles(sources.len()));
    }
    if is_any_written(name, sources) {
        return usage(
            alloc,
            "NAME and NAME.map are written, so no SRC has these names",
        );
    }
    let sources = copied(alloc, sources)?;
    Ok(Command::Compile { name, sources })
}

/// `run`, where the number of steps has 64 bits.
#[tactic(auto, using(crate::proofs::Numbers::number_is, crate::proofs::Numbers::no_number))]
fn run_of<'a>(alloc: Global, steps: &str, image: &'a str) -> Result<Command<'a>, NoMemory>
    ensures { IfOk result (λ c. meaning c ≡ run_command (number_of u64_max steps.now) image.now) }
{
    match steps.parse::<u64>() {
        Ok(steps) => Ok(Command::Run { steps, image }),
        Err(_) => usage(alloc, "N is a number of 64 bits"),
    }
}

/// `eval` for so many turns.
fn eval_for<'a>(alloc: Global, turns: u64, sources: &[&'a str]) -> Result<Command<'a>, NoMemory>
    ensures { IfOk result (λ c. meaning c ≡ eval_command (Some turns) (map (λ s. s.now) sources.now)) }
{
    if are_many(sources) {
        return Ok(Command::ManyFiles(sources.len()));
    }
    let sources = copied(alloc, sources)?;
    Ok(Command::Eval { turns, sources })
}

/// `eval`, where the number of turns has 64 bits.
#[tactic(auto, using(crate::proofs::Numbers::number_is, crate::proofs::Numbers::no_number))]
fn eval_of<'a>(alloc: Global, turns: &str, sources: &[&'a str]) -> Result<Command<'a>, NoMemory>
    ensures { IfOk result (λ c. meaning c ≡ eval_command (number_of u64_max turns.now) (map (λ s. s.now) sources.now)) }
{
    match turns.parse::<u64>() {
        Ok(turns) => eval_for(alloc, turns, sources),
        Err(_) => usage(alloc, "N is a number of 64 bits"),
    }
}

/// The matches of `compile`.
#[tactic(auto, using(crate::proofs::Rows::str_row, crate::proofs::Rows::strs_row))]
fn compile_asked<'a>(alloc: Global, matches: &ArgMatches<'a>) -> Result<Command<'a>, NoMemory>
    ensures { IfOk result (λ c. meaning c ≡ compile_asked (first_of (codes "NAME") (rows_of (found_of matches.now)))
        (all_of (codes "SRC") (rows_of (found_of matches.now)))) }
{
    match (matches.get_str("NAME"), matches.get_strs("SRC")) {
        (Some(name), Some(sources)) => compile_of(alloc, name, sources),
        _ => usage(alloc, "NAME and SRC are wanted"),
    }
}

/// The matches of `run`.
#[tactic(auto, using(crate::proofs::Rows::str_row, crate::proofs::Rows::strs_row))]
fn run_asked<'a>(alloc: Global, matches: &ArgMatches<'a>) -> Result<Command<'a>, NoMemory>
    ensures { IfOk result (λ c. meaning c ≡ run_asked (first_of (codes "N") (rows_of (found_of matches.now)))
        (first_of (codes "IMAGE") (rows_of (found_of matches.now)))) }
{
    match (matches.get_str("N"), matches.get_str("IMAGE")) {
        (Some(steps), Some(image)) => run_of(alloc, steps, image),
        _ => usage(alloc, "IMAGE is wanted"),
    }
}

/// The matches of `eval`.
#[tactic(auto, using(crate::proofs::Rows::str_row, crate::proofs::Rows::strs_row))]
fn eval_asked<'a>(alloc: Global, matches: &ArgMatches<'a>) -> Result<Command<'a>, NoMemory>
    ensures { IfOk result (λ c. meaning c ≡ eval_asked (first_of (codes "N") (rows_of (found_of matches.now)))
        (all_of (codes "SRC") (rows_of (found_of matches.now)))) }
{
    match (matches.get_str("N"), matches.get_strs("SRC")) {
        (Some(turns), Some(sources)) => eval_of(alloc, turns, sources),
        _ => usage(alloc, "SRC is wanted"),
    }
}

/// The matches of `solve`.
#[tactic(auto, using(crate::proofs::Rows::str_row, crate::proofs::Rows::strs_row))]
fn solve_asked<'a>(alloc: Global, matches: &ArgMatches<'a>) -> Result<Command<'a>, NoMemory>
    ensures { IfOk result (λ c. meaning c ≡ solve_asked (first_of (codes "FILE") (rows_of (found_of matches.now)))) }
{
    match matches.get_str("FILE") {
        Some(file) => Ok(Command::Solve { file }),
        None => usage(alloc, "FILE is wanted"),
    }
}

/// `gen`, where the number has 32 bits.
#[tactic(auto, using(crate::proofs::Numbers::word_is, crate::proofs::Numbers::no_word))]
fn gen_of<'a>(alloc: Global, number: &str) -> Result<Command<'a>, NoMemory>
    ensures { IfOk result (λ c. meaning c ≡ gen_command (number_of u32_max number.now)) }
{
    match number.parse::<u32>() {
        Ok(number) => Ok(Command::Gen { number }),
        Err(_) => usage(alloc, "N is a number of 32 bits"),
    }
}

/// The matches of `gen`.
#[tactic(auto, using(crate::proofs::Rows::str_row, crate::proofs::Rows::strs_row))]
fn gen_asked<'a>(alloc: Global, matches: &ArgMatches<'a>) -> Result<Command<'a>, NoMemory>
    ensures { IfOk result (λ c. meaning c ≡ gen_asked (first_of (codes "N") (rows_of (found_of matches.now)))) }
{
    match matches.get_str("N") {
        Some(number) => gen_of(alloc, number),
        None => usage(alloc, "N is wanted"),
    }
}

/// `selftest`, where the number has 32 bits.
#[tactic(auto, using(crate::proofs::Numbers::word_is, crate::proofs::Numbers::no_word))]
fn selftest_of<'a>(alloc: Global, name: &'a str, number: &str) -> Result<Command<'a>, NoMemory>
    ensures { IfOk result (λ c. meaning c ≡ selftest_command name.now (number_of u32_max number.now)) }
{
    match number.parse::<u32>() {
        Ok(number) => Ok(Command::Selftest { name, number }),
        Err(_) => usage(alloc, "N is a number of 32 bits"),
    }
}

/// The matches of `selftest`.
#[tactic(auto, using(crate::proofs::Rows::str_row, crate::proofs::Rows::strs_row))]
fn selftest_asked<'a>(alloc: Global, matches: &ArgMatches<'a>) -> Result<Command<'a>, NoMemory>
    ensures { IfOk result (λ c. meaning c ≡ selftest_asked (first_of (codes "NAME") (rows_of (found_of matches.now)))
        (first_of (codes "N") (rows_of (found_of matches.now)))) }
{
    match (matches.get_str("NAME"), matches.get_str("N")) {
        (Some(name), Some(number)) => selftest_of(alloc, name, number),
        _ => usage(alloc, "NAME and N are wanted"),
    }
}

/// The matches of `least`.
#[tactic(auto, using(crate::proofs::Rows::str_row, crate::proofs::Rows::strs_row))]
fn least_asked<'a>(alloc: Global, matches: &ArgMatches<'a>) -> Result<Command<'a>, NoMemory>
    ensures { IfOk result (λ c. meaning c ≡ least_asked (first_of (codes "FILE") (rows_of (found_of matches.now)))) }
{
    match matches.get_str("FILE") {
        Some(file) => Ok(Command::Least { file }),
        None => usage(alloc, "FILE is wanted"),
    }
}

/// `board`.
fn board_of<'a>(alloc: Global, sources: &[&'a str]) -> Result<Command<'a>, NoMemory>
    ensures { IfOk result (λ c. meaning c ≡ board_command (map (λ s. s.now) sources.now)) }
{
    if are_many(sources) {
        return Ok(Command::ManyFiles(sources.len()));
    }
    let sources = copied(alloc, sources)?;
    Ok(Command::Board { sources })
}

/// The matches of `board`.
#[tactic(auto, using(crate::proofs::Rows::str_row, crate::proofs::Rows::strs_row))]
fn board_asked<'a>(alloc: Global, matches: &ArgMatches<'a>) -> Result<Command<'a>, NoMemory>
    ensures { IfOk result (λ c. meaning c ≡ board_asked (all_of (codes "SRC") (rows_of (found_of matches.now)))) }
{
    match matches.get_strs("SRC") {
        Some(sources) => board_of(alloc, sources),
        None => usage(alloc, "SRC is wanted"),
    }
}

/// The command of this name, by the matches of its arguments.
fn asked_by<'a>(
    alloc: Global,
    command: &str,
    matches: &ArgMatches<'a>,
) -> Result<Command<'a>, NoMemory>
    ensures { IfOk result (λ c. meaning c ≡ asked_by command.now (rows_of (found_of matches.now))) }
{
    match command {
        "compile" => compile_asked(alloc, matches),
        "run" => run_asked(alloc, matches),
        "eval" => eval_asked(alloc, matches),
        "solve" => solve_asked(alloc, matches),
        "gen" => gen_asked(alloc, matches),
        "selftest" => selftest_asked(alloc, matches),
        "least" => least_asked(alloc, matches),
        "board" => board_asked(alloc, matches),
        _ => usage(alloc, "a command is wanted"),
    }
}

/// What the matches ask for.
fn asked_in<'a>(alloc: Global, matches: &ArgMatches<'a>) -> Result<Command<'a>, NoMemory>
    ensures { IfOk result (λ c. meaning c ≡ asked_in (subcommand_rows_of matches.now)) }
{
    match matches.subcommand() {
        Some((command, matches)) => asked_by(alloc, command, matches),
        None => usage(alloc, "a command is wanted"),
    }
}

/// What is told of words that mean no command: what is wrong with them, or the help or the version that they ask for.
fn refused<'a>(alloc: Global, error: &Error) -> Result<Command<'a>, NoMemory>
    ensures { MatchResult result (λ c. (meaning c ≡ Usage) × (kind_of error.now ≢ OutOfMemory)) (λ e. ⊤) }
{
    match error.kind() {
        ErrorKind::OutOfMemory => Err(NoMemory),
        ErrorKind::DisplayHelp | ErrorKind::DisplayVersion => told(format!(in alloc; "{error}")),
        _ => told(format!(in alloc; "{error}\n{COMMANDS}")),
    }
}

/// The command that the words behind the program's name mean.
pub fn command_of(alloc: Global, words: &[String]) -> Result<Command<'_>, NoMemory>
    ensures { IfOk result (λ c. meaning c ≡ command_of (map string_bytes words.now)) }
{
    let Ok(app) = app(alloc) else {
        return Err(NoMemory);
    };
    match app.try_get_matches_from(words) {
        Ok(matches) => asked_in(alloc, &matches),
        Err(error) => refused(alloc, &error),
    }
}
