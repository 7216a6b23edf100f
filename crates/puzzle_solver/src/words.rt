//! Words of pieces and columns, and numbers.

ghost use Rattle.std.specs.Prelude.{◌≡◌, ◌++◌, OnOk, decimal};
ghost use Rattle.puzzle_solver.specs.Texts.{columns_word, kind_letter, width_digit};

use pcc_base::{NoMemory, Width};
use puzzle_board::{Columns, Kind};
use std::alloc::Global;

/// The letter of a kind.
pub(crate) fn letter(kind: Kind) -> u8
    ensures { result ≡ kind_letter kind }
{
    match kind {
        Kind::X => b'X',
        Kind::Y => b'Y',
        Kind::Z => b'Z',
    }
}

/// The digit of a width.
pub(crate) fn digit(width: Width) -> u8
    ensures { result ≡ width_digit width }
{
    match width {
        Width::One => b'1',
        Width::Two => b'2',
    }
}

/// The word of the columns that a piece takes.
pub(crate) fn columns(columns: Columns) -> &'static str
    ensures { result.now ≡ columns_word columns }
{
    match columns {
        Columns::Low => "low",
        Columns::High => "high",
        Columns::All => "all",
    }
}

/// Puts a number at the end, in decimal.
pub(crate) fn push_number(alloc: Global, out: &mut Vec<u8>, number: u32) -> Result<(), NoMemory>
    ensures { OnOk result (out.new.items ≡ out.old.items ++ decimal number) }
{
    let digits = number.to_string(alloc)?;
    out.extend_from_slice(digits.as_bytes())?;
    Ok(())
}
