//! The row of a call.

ghost use Rattle.std.specs.Prelude.{◌≡◌, ◌<◌, ◌^◌, ◌++◌, OnOk, length, map, option_map};
ghost use Rattle.ia32_rows.specs.Rows.{pass_all, before_call, behind_call, call_row};
ghost use Rattle.ia32_emit.specs.Locations.{place_of};

use crate::argument_words::{emit_drop_words, emit_write_any};
use crate::instructions::emit_all;
use crate::locations::Location;
use crate::moves::emit_pass;
use crate::returns::{emit_deepen, emit_undeepen};
use ia32_insn::Item;
use pcc_base::NoMemory;

/// The words of places onto the stack, the last one first.
fn emit_pass_all(out: &mut Vec<Item>, arguments: &[Location]) -> Result<(), NoMemory>
    ensures { OnOk result (out.new.items ≡ out.old.items ++ pass_all (map place_of arguments.now)) }
{
    for done in 0..arguments.len() {
        emit_pass(out, arguments[arguments.len() - 1 - done])?;
    }
    Ok(())
}

/// What stands before a call.
fn emit_before_call(out: &mut Vec<Item>, arguments: &[Location]) -> Result<(), NoMemory>
    ensures { OnOk result (out.new.items ≡ out.old.items ++ before_call (map place_of arguments.now)) }
{
    emit_deepen(out)?;
    emit_pass_all(out, arguments)
}

/// What stands behind a call.
fn emit_behind_call(out: &mut Vec<Item>, to: Option<Location>, words: usize) -> Result<(), NoMemory>
    requires { words < 2 ^ 29 }
    ensures { OnOk result (out.new.items ≡ out.old.items ++ behind_call (option_map place_of to) words) }
{
    emit_drop_words(out, words)?;
    emit_undeepen(out)?;
    emit_write_any(out, to)
}

/// Calls a function with the words of places.
pub fn emit_call(
    out: &mut Vec<Item>,
    to: Option<Location>,
    function: u32,
    arguments: &[Location],
) -> Result<(), NoMemory>
    requires { length arguments.now < 2 ^ 29 }
    ensures { OnOk result (out.new.items
        ≡ out.old.items ++ call_row (option_map place_of to) function (map place_of arguments.now)) }
{
    emit_before_call(out, arguments)?;
    emit_all(out, &[Item::CallFunction(function)])?;
    emit_behind_call(out, to, arguments.len())
}
