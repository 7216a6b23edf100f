//! The drawn lines of a function.

ghost use Rattle.std.specs.Prelude.{◌≡◌, ◌<◌, ◌++◌, OnOk};
ghost use Rattle.pcc_gen.specs.Generated.{
  after_operation,
  after_statement,
  after_statements,
  draw,
  next,
  operation,
  statement,
  statements,
  variable,
};

use crate::draws::Draws;
use pcc_base::NoMemory;

/// The operators of lines with two variables, by the number that is drawn.
const OPERATORS: [&[u8]; 8] = [b"+", b"-", b"*", b"&", b"|", b"^", b"<<", b">>"];

/// How many drawn lines a function has.
const STATEMENTS: u32 = 30;

/// Draws one of the variables `a` to `e`, and puts its name at the end.
fn push_variable(out: &mut Vec<u8>, draws: &mut Draws) -> Result<(), NoMemory>
    ensures text { OnOk result (out.new.items ≡ out.old.items ++ variable (draw 5 draws.old.x)) }
    ensures next { OnOk result (draws.new.x ≡ next draws.old.x) }
{
    let number = draws.below(5);
    out.push(b'a' + number as u8)?;
    Ok(())
}

/// Puts the operator and the right operand of a line of this kind, one of ten, at the end. The right operand of the first
/// eight is drawn.
fn push_operation(out: &mut Vec<u8>, draws: &mut Draws, kind: u32) -> Result<(), NoMemory>
    ensures text { OnOk result (out.new.items ≡ out.old.items ++ operation kind draws.old.x) }
    ensures next { OnOk result (draws.new.x ≡ after_operation kind draws.old.x) }
{
    match OPERATORS.get(kind as usize) {
        Some(operator) => {
            out.extend_from_slice(operator)?;
            out.extend_from_slice(b" ")?;
            push_variable(out, draws)?;
        }
        None if kind == 8 => out.extend_from_slice(b"/ 7")?,
        None => out.extend_from_slice(b"% 9")?,
    }
    Ok(())
}

/// Draws a line, and puts it at the end.
fn push_statement(out: &mut Vec<u8>, draws: &mut Draws) -> Result<(), NoMemory>
    ensures text { OnOk result (out.new.items ≡ out.old.items ++ statement draws.old.x) }
    ensures next { OnOk result (draws.new.x ≡ after_statement draws.old.x) }
{
    let kind = draws.below(10);
    out.extend_from_slice(b"  ")?;
    push_variable(out, draws)?;
    out.extend_from_slice(b" = ")?;
    push_variable(out, draws)?;
    out.extend_from_slice(b" ")?;
    push_operation(out, draws, kind)?;
    out.extend_from_slice(b";\n")?;
    Ok(())
}

/// Draws the lines of a function, and puts them at the end.
pub(crate) fn push_statements(out: &mut Vec<u8>, draws: &mut Draws) -> Result<(), NoMemory>
    ensures text { OnOk result (out.new.items ≡ out.old.items ++ statements 30 draws.old.x) }
    ensures next { OnOk result (draws.new.x ≡ after_statements 30 draws.old.x) }
{
    for _line in 0..STATEMENTS {
        push_statement(out, draws)?;
    }
    Ok(())
}
