//! The lines of a map besides those of blocks and points: its first and its last, its objects and functions, and a
//! function's arrays and variables.

ghost use Rattle.std.specs.Prelude.{◌≡◌, ◌∷◌, [], ◌++◌, OnOk, decimal};
ghost use Rattle.pcc_base.specs.Ascii.{minus};
ghost use Rattle.map_text.specs.Views.{named_of};
ghost use Rattle.map_text.specs.Words.{
  ArrayLine,
  EndLine,
  FunctionLine,
  ObjectLine,
  TitleLine,
  VariableLine,
  address_text,
  each_spaced,
  line_text,
  named_text,
  width_text,
};

use crate::digits::{push_address, push_number};
use crate::names::Named;
use crate::op_words::{push_next, push_word};
use pcc_base::{Name, NoMemory, Width};

/// Puts an address at the end, behind a space.
#[tactic(auto, using(crate::proofs::Printed::word_pushed))]
pub(crate) fn push_next_address(out: &mut Vec<u8>, address: u32) -> Result<(), NoMemory>
    ensures { OnOk result (out.new.items ≡ out.old.items ++ each_spaced (address_text address ∷ [])) }
{
    out.extend_from_slice(b" ")?;
    push_address(out, address)?;
    Ok(())
}

/// Puts the first line of a map at the end. The only refusal is want of memory.
pub fn push_title(out: &mut Vec<u8>) -> Result<(), NoMemory>
    ensures { OnOk result (out.new.items ≡ out.old.items ++ line_text TitleLine) }
{
    out.extend_from_slice(b"pcc map 1\n")?;
    Ok(())
}

/// Puts the last line of a map at the end. The only refusal is want of memory.
pub fn push_end(out: &mut Vec<u8>) -> Result<(), NoMemory>
    ensures { OnOk result (out.new.items ≡ out.old.items ++ line_text EndLine) }
{
    out.extend_from_slice(b"end\n")?;
    Ok(())
}

/// Puts the line of a static object at the end: the address of its element 0, its elements, and the bytes of one. The
/// only refusal is want of memory.
#[tactic(auto, using(crate::proofs::PrintedHeads::object_pushed))]
pub fn push_object(
    out: &mut Vec<u8>,
    number: u32,
    address: u32,
    count: u32,
    bytes: u32,
) -> Result<(), NoMemory>
    ensures { OnOk result (out.new.items ≡ out.old.items ++ line_text (ObjectLine number address count bytes)) }
{
    out.extend_from_slice(b"object")?;
    push_next(out, number)?;
    push_next_address(out, address)?;
    push_next(out, count)?;
    push_next(out, bytes)?;
    out.extend_from_slice(b"\n")?;
    Ok(())
}

/// Puts the line of a function at the end: its name, and the bytes of its frame. The only refusal is want of memory.
#[tactic(auto, using(crate::proofs::PrintedHeads::function_pushed))]
pub fn push_function(
    out: &mut Vec<u8>,
    number: u32,
    name: &Name,
    frame: u32,
) -> Result<(), NoMemory>
    ensures { OnOk result (out.new.items ≡ out.old.items ++ line_text (FunctionLine number name.now frame)) }
{
    out.extend_from_slice(b"function")?;
    push_next(out, number)?;
    push_word(out, name.as_bytes())?;
    push_word(out, b"frame")?;
    push_next(out, frame)?;
    out.extend_from_slice(b"\n")?;
    Ok(())
}

/// Puts an offset from EBP at the end, which is so far below 0, behind a space.
#[tactic(auto, using(crate::proofs::PrintedHeads::offset_pushed))]
fn push_offset(out: &mut Vec<u8>, below: u32) -> Result<(), NoMemory>
    ensures { OnOk result (out.new.items ≡ out.old.items ++ each_spaced ((minus ∷ decimal below) ∷ [])) }
{
    out.extend_from_slice(b" -")?;
    push_number(out, u64::from(below))?;
    Ok(())
}

/// Puts the line of a frame array at the end: how far below EBP its element 0 is, its elements, and the bytes of one.
/// The only refusal is want of memory.
#[tactic(auto, using(crate::proofs::PrintedHeads::array_pushed))]
pub fn push_array(
    out: &mut Vec<u8>,
    number: u32,
    below: u32,
    count: u32,
    bytes: u32,
) -> Result<(), NoMemory>
    ensures { OnOk result (out.new.items ≡ out.old.items ++ line_text (ArrayLine number below count bytes)) }
{
    out.extend_from_slice(b"array")?;
    push_next(out, number)?;
    push_offset(out, below)?;
    push_next(out, count)?;
    push_next(out, bytes)?;
    out.extend_from_slice(b"\n")?;
    Ok(())
}

/// Puts a width at the end, behind a space.
fn push_width(out: &mut Vec<u8>, width: Width) -> Result<(), NoMemory>
    ensures { OnOk result (out.new.items ≡ out.old.items ++ each_spaced (width_text width ∷ [])) }
{
    match width {
        Width::One => push_word(out, b"1")?,
        Width::Two => push_word(out, b"2")?,
    }
    Ok(())
}

/// Puts the name of a variable at the end.
fn push_name(out: &mut Vec<u8>, name: &Named) -> Result<(), NoMemory>
    ensures { OnOk result (out.new.items ≡ out.old.items ++ named_text (named_of name.now)) }
{
    match name {
        Named::Scalar(name) => out.extend_from_slice(name.as_bytes())?,
        Named::Array(name) => {
            out.extend_from_slice(name.as_bytes())?;
            out.extend_from_slice(b".base")?;
        }
        Named::Index(name) => {
            out.extend_from_slice(name.as_bytes())?;
            out.extend_from_slice(b".index")?;
        }
        Named::Temporary => out.extend_from_slice(b"-")?,
    }
    Ok(())
}

/// Puts the line of a variable at the end: its width, and what it is. The only refusal is want of memory.
#[tactic(auto, using(crate::proofs::PrintedHeads::variable_pushed))]
pub fn push_variable(
    out: &mut Vec<u8>,
    number: u32,
    width: Width,
    name: &Named,
) -> Result<(), NoMemory>
    ensures { OnOk result (out.new.items ≡ out.old.items ++ line_text (VariableLine number width (named_of name.now))) }
{
    out.extend_from_slice(b"var")?;
    push_next(out, number)?;
    push_width(out, width)?;
    out.extend_from_slice(b" ")?;
    push_name(out, name)?;
    out.extend_from_slice(b"\n")?;
    Ok(())
}
