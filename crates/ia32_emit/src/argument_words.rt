//! The rows of argument words and of the routines, and what stands behind a call but its count.

ghost use Rattle.std.specs.Prelude.{◌≡◌, ◌<◌, ◌^◌, ◌++◌, OnOk, option_map};
ghost use Rattle.ia32_rows.specs.Rows.{putchar_row, getchar_row, exit_row, argument_word, param_row, drop_words};
ghost use Rattle.ia32_rows.specs.Rows.{write_any};
ghost use Rattle.ia32_emit.specs.Locations.{place_of};

use crate::instructions::{emit, emit_all};
use crate::locations::{Location, target_of};
use crate::moves::{emit_pass, emit_write};
use ia32_insn::{Insn, Item, Mem, Reg32, Stub};
use pcc_base::NoMemory;

/// Calls `putchar` with the argument on the stack.
pub fn emit_putchar(out: &mut Vec<Item>, to: Location, argument: Location) -> Result<(), NoMemory>
    ensures { OnOk result (out.new.items ≡ out.old.items ++ putchar_row (place_of to) (place_of argument)) }
{
    emit_pass(out, argument)?;
    emit_all(
        out,
        &[
            Item::CallStub(Stub::Putchar),
            Item::Plain(Insn::Pop(Reg32::Edi)),
        ],
    )?;
    emit_write(out, to, Reg32::Eax)
}

/// Calls `getchar`.
pub fn emit_getchar(out: &mut Vec<Item>, to: Location) -> Result<(), NoMemory>
    ensures { OnOk result (out.new.items ≡ out.old.items ++ getchar_row (place_of to)) }
{
    emit_all(out, &[Item::CallStub(Stub::Getchar)])?;
    emit_write(out, to, Reg32::Eax)
}

/// Calls `exit` with the argument on the stack.
pub fn emit_exit(out: &mut Vec<Item>, argument: Location) -> Result<(), NoMemory>
    ensures { OnOk result (out.new.items ≡ out.old.items ++ exit_row (place_of argument)) }
{
    emit_pass(out, argument)?;
    emit_all(out, &[Item::CallStub(Stub::Exit)])
}

/// The memory of an argument word.
fn argument_word(number: u32) -> Mem
    ensures { result ≡ argument_word number }
{
    let distance = (8 + 4 * u64::from(number)) % 4294967296;
    Mem {
        base: Some(Reg32::Ebp),
        index: None,
        disp: (distance as u32).cast_signed(),
    }
}

/// An argument word to a place.
pub fn emit_param(out: &mut Vec<Item>, to: Location, number: u32) -> Result<(), NoMemory>
    ensures { OnOk result (out.new.items ≡ out.old.items ++ param_row (place_of to) number) }
{
    let register = target_of(to);
    emit(out, Insn::MovLoad(register, argument_word(number)))?;
    emit_write(out, to, register)
}

/// Some argument words off the stack.
fn emit_drop_some(out: &mut Vec<Item>, words: usize) -> Result<(), NoMemory>
    requires some { 0 < words }
    requires few { words < 2 ^ 29 }
    ensures { OnOk result (out.new.items ≡ out.old.items ++ drop_words words) }
{
    let top = Mem {
        base: Some(Reg32::Esp),
        index: None,
        disp: 4 * words as i32,
    };
    emit(out, Insn::Lea(Reg32::Esp, top))
}

/// So many argument words off the stack.
pub(crate) fn emit_drop_words(out: &mut Vec<Item>, words: usize) -> Result<(), NoMemory>
    requires { words < 2 ^ 29 }
    ensures { OnOk result (out.new.items ≡ out.old.items ++ drop_words words) }
{
    if words == 0 {
        Ok(())
    } else {
        emit_drop_some(out, words)
    }
}

/// The result to its place, where it is wanted.
pub(crate) fn emit_write_any(out: &mut Vec<Item>, to: Option<Location>) -> Result<(), NoMemory>
    ensures { OnOk result (out.new.items ≡ out.old.items ++ write_any (option_map place_of to)) }
{
    match to {
        None => Ok(()),
        Some(location) => emit_write(out, location, Reg32::Eax),
    }
}
