//! The end of a command: the line of its report is put on standard error, and the status is answered.

ghost use Rattle.std.specs.Prelude.{◌≡◌, false};
ghost use Rattle.pcc_words.specs.Asked as asked;
ghost use Rattle.pcc_words.specs.Words.{meaning};
ghost use Rattle.pcc_driver.specs.Ends.{Ends, IsPut};
ghost use Rattle.pcc_driver.specs.Outside.{output_of};
ghost use Rattle.pcc_driver.specs.Reports.{is_silent};
ghost use Rattle.pcc_driver.specs.declared.report.Report.{Report};

use crate::report::Report;
use crate::report_lines::text_of;
use pcc_base::NoMemory;
use pcc_outside::{Sink, WriteRefusal};
use pcc_words::Command;
use std::alloc::Global;

/// Puts a line on standard error, and answers the status: 5 where standard error fails, and 11 where it
/// has no memory.
fn put_line<E: Sink>(line: &[u8], status: u8, err: &mut E) -> u8
    ensures put { IsPut line.now status (output_of E.Sink err.old) (output_of E.Sink err.new) result }
    ensures telling { E.tells err.old → E.tells err.new }
{
    match err.put_all(line) {
        Ok(()) => status,
        Err(WriteRefusal::Failed) => 5,
        Err(WriteRefusal::NoMemory) => 11,
    }
}

/// Puts the line of want of memory on standard error, and answers the status, whatever the command, in place of any
/// report that has a line.
pub(crate) fn finish_wanting<E: Sink>(err: &mut E) -> u8
    ensures ends { (command : asked.Command) (report : Report) → is_silent report ≡ false
        → Ends command report (output_of E.Sink err.old) (output_of E.Sink err.new) result }
    ensures telling { E.tells err.old → E.tells err.new }
{
    put_line(b"no memory\n", Report::NoMemory.status(), err)
}

/// Puts the report's line on standard error, and answers its status: 5 where standard error fails, and
/// 11 where there is no memory for the line or for putting it. A report without a line asks nothing of standard error.
pub fn finish<E: Sink>(alloc: Global, command: &Command<'_>, report: &Report, err: &mut E) -> u8
    ensures ends { Ends (meaning command.now) report.now (output_of E.Sink err.old) (output_of E.Sink err.new) result }
    ensures telling { E.tells err.old → E.tells err.new }
{
    if report.is_silent() {
        return report.status();
    }
    match text_of(alloc, command, report) {
        Ok(text) => put_line(text.as_slice(), report.status(), err),
        Err(NoMemory) => finish_wanting(err),
    }
}
