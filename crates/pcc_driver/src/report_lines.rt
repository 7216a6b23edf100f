//! The line of a report, and what is shown of it.

ghost use Rattle.std.specs.Prelude.{
  ◌≡◌,
  ◌++◌,
  ℕ,
  List,
  [],
  IfOk,
  OnOk,
  decimal,
  get_or,
  map,
  if◌then◌else◌,
};
ghost use Rattle.pcc_driver.specs.Reports.{
  fault_text,
  frame_text,
  is_usage,
  kind_text,
  name_in,
  report_line,
  report_text,
  sizes_text,
  stop_text,
  trap_text,
  word_text,
  IsShownAs,
};
ghost use Rattle.pcc_words.specs.Words.{meaning};
ghost use Rattle.map_text.specs.Words.{address_text};

use crate::report::{Named, Report};
use c_lex::spelling;
use map_text::{push_address, push_number};
use pcc_base::{Fault, FaultKind, NoMemory, Stop, Trap};
use pcc_words::Command;
use std::alloc::Global;

/// Puts the name of the source at this position at the end. The only refusal is want of memory.
fn push_source(out: &mut Vec<u8>, sources: &[&str], position: u32) -> Result<(), NoMemory>
    ensures { OnOk result (out.new.items ≡ out.old.items ++ get_or (map (λ s. s.now) sources.now) position []) }
{
    if let Some(source) = sources.get(position as usize) {
        out.extend_from_slice(source.as_bytes())?;
    }
    Ok(())
}

/// Puts a file's name at the end. The only refusal is want of memory.
fn push_name(out: &mut Vec<u8>, command: &Command<'_>, file: Named) -> Result<(), NoMemory>
    ensures { OnOk result (out.new.items ≡ out.old.items ++ name_in (meaning command.now) file) }
{
    match command {
        Command::Compile { name, sources } => match file {
            Named::Source(position) => push_source(out, sources.as_slice(), position)?,
            Named::Map => {
                out.extend_from_slice(name.as_bytes())?;
                out.extend_from_slice(b".map")?;
            }
            Named::Image => out.extend_from_slice(name.as_bytes())?,
            Named::Board => {}
        },
        Command::Eval { sources, .. } | Command::Board { sources } => match file {
            Named::Source(position) => push_source(out, sources.as_slice(), position)?,
            Named::Map | Named::Image | Named::Board => {}
        },
        Command::Selftest { name, .. } => match file {
            Named::Source(_) => out.extend_from_slice(b"gen")?,
            Named::Map => {
                out.extend_from_slice(name.as_bytes())?;
                out.extend_from_slice(b".map")?;
            }
            Named::Image => out.extend_from_slice(name.as_bytes())?,
            Named::Board => {}
        },
        Command::Run { image, .. } => out.extend_from_slice(image.as_bytes())?,
        Command::Solve { file } | Command::Least { file } => out.extend_from_slice(
            file.as_bytes(),
        )?,
        Command::Gen { .. } | Command::ManyFiles(_) | Command::Usage(_) => {}
    }
    Ok(())
}

/// Puts words and a file's name at the end. The only refusal is want of memory.
fn push_about(
    out: &mut Vec<u8>,
    words: &[u8],
    command: &Command<'_>,
    file: Named,
) -> Result<(), NoMemory>
    ensures { OnOk result (out.new.items ≡ out.old.items ++ (words.now ++ name_in (meaning command.now) file)) }
{
    out.extend_from_slice(words)?;
    push_name(out, command, file)
}

/// Puts the keyword that is unsupported at the end, and nothing for another fault. The only refusal is want of
/// memory.
fn push_word(out: &mut Vec<u8>, kind: FaultKind) -> Result<(), NoMemory>
    ensures { OnOk result (out.new.items ≡ out.old.items ++ word_text kind) }
{
    if let FaultKind::Unsupported(keyword) = kind {
        out.extend_from_slice(b" ")?;
        out.extend_from_slice(spelling(keyword))?;
    }
    Ok(())
}

/// Puts the number and the name of a kind of fault at the end. The only refusal is want of memory.
fn push_kind(out: &mut Vec<u8>, kind: FaultKind) -> Result<(), NoMemory>
    ensures { OnOk result (out.new.items ≡ out.old.items ++ kind_text kind) }
{
    push_number(out, u64::from(kind.number()))?;
    out.extend_from_slice(b" ")?;
    out.extend_from_slice(kind.name().as_bytes())?;
    push_word(out, kind)
}

/// Puts where and what a fault is at the end, behind the source's name. The only refusal is want of memory.
fn push_fault(out: &mut Vec<u8>, fault: Fault) -> Result<(), NoMemory>
    ensures { OnOk result (out.new.items ≡ out.old.items ++ fault_text fault) }
{
    out.extend_from_slice(b":")?;
    push_number(out, u64::from(fault.at.line))?;
    out.extend_from_slice(b":")?;
    push_number(out, u64::from(fault.at.col))?;
    out.extend_from_slice(b": ")?;
    push_kind(out, fault.kind)
}

/// Puts the kind of a trap at the end. The only refusal is want of memory.
fn push_trap(out: &mut Vec<u8>, trap: Trap) -> Result<(), NoMemory>
    ensures { OnOk result (out.new.items ≡ out.old.items ++ trap_text trap) }
{
    match trap {
        Trap::Divide => out.extend_from_slice(b"divide")?,
        Trap::Check => out.extend_from_slice(b"check")?,
    }
    Ok(())
}

/// Puts words and an address at the end. The only refusal is want of memory.
fn push_place(out: &mut Vec<u8>, words: &[u8], address: u32) -> Result<(), NoMemory>
    ensures { OnOk result (out.new.items ≡ out.old.items ++ (words.now ++ address_text address)) }
{
    out.extend_from_slice(words)?;
    push_address(out, address)
}

/// Puts the cause of a stop and its address at the end, that of an access for an access. The only refusal
/// is want of memory.
fn push_stop(out: &mut Vec<u8>, cause: Stop, address: u32) -> Result<(), NoMemory>
    ensures { OnOk result (out.new.items ≡ out.old.items ++ stop_text cause address) }
{
    match cause {
        Stop::Instruction => push_place(out, b"instruction 0x", address),
        Stop::Access(at) => push_place(out, b"access 0x", at),
        Stop::Flags => push_place(out, b"flags 0x", address),
        Stop::Call => push_place(out, b"call 0x", address),
    }
}

/// Puts words and a number at the end. The only refusal is want of memory.
fn push_count(out: &mut Vec<u8>, words: &[u8], number: u64) -> Result<(), NoMemory>
    ensures { OnOk result (out.new.items ≡ out.old.items ++ (words.now ++ decimal number)) }
{
    out.extend_from_slice(words)?;
    push_number(out, number)
}

/// Puts words at the end. The only refusal is want of memory.
fn push_words(out: &mut Vec<u8>, words: &[u8]) -> Result<(), NoMemory>
    ensures { OnOk result (out.new.items ≡ out.old.items ++ words.now) }
{
    out.extend_from_slice(words)?;
    Ok(())
}

/// Puts the name of a function and the bytes of its frame at the end. The only refusal is want of memory.
fn push_frame(out: &mut Vec<u8>, name: &[u8], bytes: u64) -> Result<(), NoMemory>
    ensures { OnOk result (out.new.items ≡ out.old.items ++ frame_text name.now bytes) }
{
    out.extend_from_slice(name)?;
    push_count(out, b" ", bytes)
}

/// Puts the numbers of areas and pieces of a board at the end. The only refusal is want of memory.
fn push_sizes(out: &mut Vec<u8>, areas: u32, pieces: u32) -> Result<(), NoMemory>
    ensures { OnOk result (out.new.items ≡ out.old.items ++ sizes_text areas pieces) }
{
    push_number(out, u64::from(areas))?;
    push_count(out, b" ", u64::from(pieces))
}

/// Puts a report's text at the end, without a newline. The only refusal is want of memory.
fn push_report(out: &mut Vec<u8>, command: &Command<'_>, report: &Report) -> Result<(), NoMemory>
    ensures { OnOk result (out.new.items ≡ out.old.items ++ report_text (meaning command.now) report.now) }
{
    match report {
        Report::Compiled | Report::Answered => Ok(()),
        Report::Exited(status) => push_count(out, b"exit ", u64::from(*status)),
        Report::SourceFault(fault) => {
            push_name(out, command, Named::Source(fault.at.file))?;
            push_fault(out, *fault)
        }
        Report::Usage => push_words(out, b"usage"),
        Report::TooLong(file) => push_about(out, b"limit 24 FileBytes ", command, *file),
        Report::TooManyTokens(tokens) => push_count(out, b"limit 20 Tokens ", *tokens),
        Report::LargeArrays(bytes) => push_count(out, b"limit 21 Arrays ", *bytes),
        Report::LargeFrame { name, bytes } => {
            push_words(out, b"limit 22 Frame ")?;
            push_frame(out, name.as_slice(), *bytes)
        }
        Report::TooManyFiles(count) => push_count(out, b"limit 23 Files ", *count),
        Report::LargeBoard { areas, pieces } => {
            push_words(out, b"limit 32 Board ")?;
            push_sizes(out, *areas, *pieces)
        }
        Report::ReadFault(file) => push_about(out, b"read fault ", command, *file),
        Report::InputFault => push_words(out, b"read fault input"),
        Report::WriteFault(file) => push_about(out, b"write fault ", command, *file),
        Report::OutputFault => push_words(out, b"write fault output"),
        Report::NoFile(file) => push_about(out, b"no file ", command, *file),
        Report::NotImage => push_words(out, b"not an image"),
        Report::Trapped(trap) => {
            push_words(out, b"trap ")?;
            push_trap(out, *trap)
        }
        Report::Stopped(cause, address) => {
            push_words(out, b"stopped ")?;
            push_stop(out, *cause, *address)
        }
        Report::BudgetSpent(steps) => push_count(out, b"budget ", *steps),
        Report::BadBoard => {
            push_name(out, command, Named::Board)?;
            push_words(out, b": ")?;
            push_kind(out, FaultKind::BadBoard)
        }
        Report::NoMemory => push_words(out, b"no memory"),
    }
}

/// Puts what helps at the end, behind the line of a usage fault. The only refusal is want of memory.
fn push_help(out: &mut Vec<u8>, command: &Command<'_>, report: &Report) -> Result<(), NoMemory>
    ensures { OnOk result ((help : List ℕ) × (out.new.items ≡ out.old.items
        ++ (if is_usage report.now then help else []))) }
{
    if report.is_usage() {
        if let Command::Usage(help) = command {
            out.extend_from_slice(help.as_bytes())?;
        }
    }
    Ok(())
}

/// The line of a report, with its newline. The only refusal is want of memory.
fn line_of(alloc: Global, command: &Command<'_>, report: &Report) -> Result<Vec<u8>, NoMemory>
    ensures { IfOk result (λ line. line.items ≡ report_line (meaning command.now) report.now) }
{
    let mut line = Vec::new(alloc);
    if !report.is_silent() {
        push_report(&mut line, command, report)?;
        line.push(b'\n')?;
    }
    Ok(line)
}

/// What is shown of a report: its line, and what helps behind it. The only refusal is want of memory.
pub fn text_of(alloc: Global, command: &Command<'_>, report: &Report) -> Result<Vec<u8>, NoMemory>
    ensures { IfOk result (λ text. IsShownAs (meaning command.now) report.now text.items) }
{
    let mut text = line_of(alloc, command, report)?;
    push_help(&mut text, command, report)?;
    Ok(text)
}
