//! The functions of a program.

ghost use Rattle.std.specs.Prelude.{◌≡◌, ◌++◌, OnOk};
ghost use Rattle.pcc_gen.specs.Generated.{
  after_function,
  after_functions,
  closing,
  function,
  functions,
  next,
  opening,
};

use crate::draws::{Draws, push_number};
use crate::statements::push_statements;
use pcc_base::NoMemory;

/// Puts the lines of a function before the drawn ones at the end.
fn push_opening(out: &mut Vec<u8>, draws: &mut Draws, number: u32) -> Result<(), NoMemory>
    ensures text { OnOk result (out.new.items ≡ out.old.items ++ opening number draws.old.x) }
    ensures next { OnOk result (draws.new.x ≡ next draws.old.x) }
{
    out.extend_from_slice(b"int f")?;
    push_number(out, number)?;
    out.extend_from_slice(b"(int a, int b) {\n")?;
    out.extend_from_slice(b"  char c = a;\n")?;
    out.extend_from_slice(b"  short d = b;\n")?;
    out.extend_from_slice(b"  int e = ")?;
    push_number(out, draws.below(1000))?;
    out.extend_from_slice(b";\n")?;
    Ok(())
}

/// Puts the lines of a function behind the drawn ones at the end.
fn push_closing(out: &mut Vec<u8>, draws: &mut Draws) -> Result<(), NoMemory>
    ensures text { OnOk result (out.new.items ≡ out.old.items ++ closing draws.old.x) }
    ensures next { OnOk result (draws.new.x ≡ next draws.old.x) }
{
    out.extend_from_slice(b"  for (e = 0; e < ")?;
    push_number(out, 1 + draws.below(8))?;
    out.extend_from_slice(b"; e++) t[(a + e) & 63] += b ^ d;\n")?;
    out.extend_from_slice(b"  return a + b + c + d + e;\n")?;
    out.extend_from_slice(b"}\n")?;
    Ok(())
}

/// Draws the function with this number, and puts it at the end.
fn push_function(out: &mut Vec<u8>, draws: &mut Draws, number: u32) -> Result<(), NoMemory>
    ensures text { OnOk result (out.new.items ≡ out.old.items ++ function number draws.old.x) }
    ensures next { OnOk result (draws.new.x ≡ after_function draws.old.x) }
{
    push_opening(out, draws, number)?;
    push_statements(out, draws)?;
    push_closing(out, draws)?;
    Ok(())
}

/// Draws so many functions, and puts them at the end.
pub(crate) fn push_functions(
    out: &mut Vec<u8>,
    draws: &mut Draws,
    count: u32,
) -> Result<(), NoMemory>
    ensures text { OnOk result (out.new.items ≡ out.old.items ++ functions count 0 draws.old.x) }
{
    for number in 0..count {
        push_function(out, draws, number)?;
    }
    Ok(())
}
