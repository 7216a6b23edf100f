//! The two lines that `selftest` puts on the output.

ghost use Rattle.std.specs.Prelude.{◌≡◌, ◌++◌, IfOk, OnOk, codes, decimal};
ghost use Rattle.std.specs.Io.BufRead.{strip_last};
ghost use Rattle.pcc_base.specs.Ascii.{newline};
ghost use Rattle.pcc_driver.specs.Selftests.{eval_line, run_line};

use map_text::push_number;
use pcc_base::NoMemory;
use std::alloc::Global;

/// The bytes without a newline at their end.
fn without_newline(bytes: &[u8]) -> &[u8]
    ensures { result.now ≡ strip_last newline bytes.now }
{
    let length = bytes.len();
    if length > 0 && bytes[length - 1] == b'\n' {
        return &bytes[..length - 1];
    }
    bytes
}

/// Puts what was written, without a newline at its end, and the exit status at the end. The only refusal is want of memory.
fn push_end(line: &mut Vec<u8>, written: &[u8], status: u8) -> Result<(), NoMemory>
    ensures { OnOk result (line.new.items
        ≡ line.old.items ++ strip_last newline written.now ++ codes " exit " ++ decimal status) }
{
    line.extend_from_slice(without_newline(written))?;
    line.extend_from_slice(b" exit ")?;
    push_number(line, u64::from(status))
}

/// The line of an evaluation that ended with this status. The only refusal is want of memory.
pub(crate) fn eval_line(alloc: Global, written: &[u8], status: u8) -> Result<Vec<u8>, NoMemory>
    ensures { IfOk result (λ line. line.items ≡ eval_line written.now status) }
{
    let mut line = Vec::new(alloc);
    line.extend_from_slice(b"eval ")?;
    push_end(&mut line, written, status)?;
    line.push(b'\n')?;
    Ok(line)
}

/// The line of a run that ended with this status after so many steps. The only refusal is want of memory.
pub fn run_line(alloc: Global, written: &[u8], status: u8, steps: u64) -> Result<Vec<u8>, NoMemory>
    ensures { IfOk result (λ line. line.items ≡ run_line written.now status steps) }
{
    let mut line = Vec::new(alloc);
    line.extend_from_slice(b"run ")?;
    push_end(&mut line, written, status)?;
    line.extend_from_slice(b" steps ")?;
    push_number(&mut line, steps)?;
    line.push(b'\n')?;
    Ok(line)
}
