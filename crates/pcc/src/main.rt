//! The program `pcc`: hands the words of the command line, the files and the standard streams of the
//! system to the top call of `pcc_driver`, and ends with its answer.
#![tactic(auto)]

ghost use Rattle.std.specs.Prelude.{◌≡◌, ◌⊎◌, IfErr};

use pcc_driver::pcc;
use pcc_outside::{HostFiles, HostInput, HostOutput};
use std::env;
use std::io::{BufReader, ErrorKind};
use std::process::ExitCode;
use std::rt::Env;

/// The status where the words are no text.
const USAGE: u8 = 2;

/// The status for want of memory.
const NO_MEMORY: u8 = 11;

/// The words after the program's name. The error is the exit status: 2 where a word is no text, 11 for
/// want of memory.
fn words_of<R: Env + AllocGlobal>(rt: &R) -> Result<Vec<String>, u8>
    ensures { IfErr result (λ status. (status ≡ 2) ⊎ (status ≡ 11)) }
{
    let mut args = match env::args(rt) {
        Ok(args) => args,
        Err(e) => {
            return Err(match e.kind() {
                ErrorKind::OutOfMemory => NO_MEMORY,
                _ => USAGE,
            });
        }
    };
    let _ = args.next();
    match args.collect(rt.alloc()) {
        Ok(words) => Ok(words),
        Err(_) => Err(NO_MEMORY),
    }
}

fn main(rt: HostRuntime) -> ExitCode {
    let words = match words_of(&rt) {
        Ok(words) => words,
        Err(status) => return ExitCode::from(status),
    };
    let mut input = match BufReader::new(rt.alloc(), rt.stdin()) {
        Ok(reader) => HostInput::new(reader),
        Err(_) => return ExitCode::from(NO_MEMORY),
    };
    let mut files = HostFiles::new(&rt);
    let mut out = HostOutput::new(rt.stdout());
    let mut err = HostOutput::new(rt.stderr());
    ExitCode::from(pcc(
        rt.alloc(),
        &words,
        &mut files,
        &mut input,
        &mut out,
        &mut err,
    ))
}
