//! The text of a program.

ghost use Rattle.std.specs.Prelude.{◌≡◌, ◌++◌, OnOk, IfOk};
ghost use Rattle.pcc_gen.specs.Generated.{call, calls, generated, main_function, program};

use crate::draws::{Draws, push_number};
use crate::functions::push_functions;
use pcc_base::NoMemory;
use std::alloc::Global;

/// Puts the call of the function with this number at the end.
fn push_call(out: &mut Vec<u8>, number: u32) -> Result<(), NoMemory>
    ensures { OnOk result (out.new.items ≡ out.old.items ++ call number) }
{
    out.extend_from_slice(b"    s = s * 31 + f")?;
    push_number(out, number)?;
    out.extend_from_slice(b"(i, s);\n")?;
    Ok(())
}

/// Puts the calls of the first so many functions at the end.
fn push_calls(out: &mut Vec<u8>, count: u32) -> Result<(), NoMemory>
    ensures { OnOk result (out.new.items ≡ out.old.items ++ calls count 0) }
{
    for number in 0..count {
        push_call(out, number)?;
    }
    Ok(())
}

/// Puts `main`, which calls each of the first so many functions, at the end.
fn push_main(out: &mut Vec<u8>, count: u32) -> Result<(), NoMemory>
    ensures { OnOk result (out.new.items ≡ out.old.items ++ main_function count) }
{
    out.extend_from_slice(b"int main(void) {\n")?;
    out.extend_from_slice(b"  int s = 0;\n")?;
    out.extend_from_slice(b"  int i;\n")?;
    out.extend_from_slice(b"  for (i = 0; i < 10; i++) {\n")?;
    push_calls(out, count)?;
    out.extend_from_slice(b"  }\n")?;
    out.extend_from_slice(b"  for (i = 0; i < 64; i++) s = s * 31 + t[i];\n")?;
    out.extend_from_slice(
        b"  for (i = 28; i >= 0; i -= 4) putchar(\"0123456789abcdef\"[(s >> i) & 15]);\n",
    )?;
    out.extend_from_slice(b"  putchar('\\n');\n")?;
    out.extend_from_slice(b"  return 0;\n")?;
    out.extend_from_slice(b"}\n")?;
    Ok(())
}

/// The text of the program of a number, with `count` functions in place of 40: a larger or a smaller one of the same kind.
/// The only refusal is want of memory.
pub fn gen_program(alloc: Global, count: u32, number: u32) -> Result<Vec<u8>, NoMemory>
    ensures { IfOk result (λ text. text.items ≡ program count number) }
{
    let mut out = Vec::new(alloc);
    let mut draws = Draws { x: number };
    out.extend_from_slice(b"int t[64];\n")?;
    push_functions(&mut out, &mut draws, count)?;
    push_main(&mut out, count)?;
    Ok(out)
}

/// The text of the generated program of a number: 40 functions, and a `main` that calls each of them. The only refusal is
/// want of memory.
pub fn gen_text(alloc: Global, number: u32) -> Result<Vec<u8>, NoMemory>
    ensures { IfOk result (λ text. text.items ≡ generated number) }
{
    gen_program(alloc, 40, number)
}
