//! The items of the routines that stand behind the functions.

ghost use Rattle.std.specs.Prelude.{◌≡◌, IfOk};
ghost use Rattle.ia32_insn.specs.Items.{check_items, exit_items, getchar_items, putchar_items};

use crate::start::{EXIT, SYSTEM};
use ia32_insn::{AluOp, Insn, Item, Mem, Reg32, Rm8, Rm32};
use pcc_base::NoMemory;
use std::alloc::Global;

/// The numbers of the calls `read` and `write` (Linux on i386).
const READ: i32 = 3;

const WRITE: i32 = 4;

/// The numbers of the standard input and output.
const INPUT: i32 = 0;

const OUTPUT: i32 = 1;

/// `putchar`: `write` of the lowest byte of the argument word, which is also the result.
pub(crate) fn putchar_items(alloc: Global) -> Result<Vec<Item>, NoMemory>
    ensures { IfOk result (λ items. items.items ≡ putchar_items) }
{
    let argument = Mem {
        base: Some(Reg32::Esp),
        index: None,
        disp: 8,
    };
    Ok(vec![in alloc;
        Item::Plain(Insn::Push(Rm32::Reg(Reg32::Ebx))),
        Item::Plain(Insn::MovImm(Rm32::Reg(Reg32::Eax), WRITE)),
        Item::Plain(Insn::MovImm(Rm32::Reg(Reg32::Ebx), OUTPUT)),
        Item::Plain(Insn::Lea(Reg32::Ecx, argument)),
        Item::Plain(Insn::MovImm(Rm32::Reg(Reg32::Edx), 1)),
        Item::Plain(Insn::Int(SYSTEM)),
        Item::Plain(Insn::MovZx8(Reg32::Eax, Rm8::Mem(argument))),
        Item::Plain(Insn::Pop(Reg32::Ebx)),
        Item::Plain(Insn::Ret),
    ]?)
}

/// `getchar`: `read` of one byte to a word of 0 on the stack, and the word or, at the input's end, -1.
pub(crate) fn getchar_items(alloc: Global) -> Result<Vec<Item>, NoMemory>
    ensures { IfOk result (λ items. items.items ≡ getchar_items) }
{
    Ok(vec![in alloc;
        Item::Plain(Insn::Push(Rm32::Reg(Reg32::Ebx))),
        Item::Plain(Insn::PushImm(0)),
        Item::Plain(Insn::MovImm(Rm32::Reg(Reg32::Eax), READ)),
        Item::Plain(Insn::MovImm(Rm32::Reg(Reg32::Ebx), INPUT)),
        Item::Plain(Insn::Mov(Rm32::Reg(Reg32::Ecx), Reg32::Esp)),
        Item::Plain(Insn::MovImm(Rm32::Reg(Reg32::Edx), 1)),
        Item::Plain(Insn::Int(SYSTEM)),
        Item::Plain(Insn::AluImm(AluOp::Sub, Rm32::Reg(Reg32::Eax), 1)),
        Item::Plain(Insn::Pop(Reg32::Ecx)),
        Item::Plain(Insn::Alu(AluOp::Or, Rm32::Reg(Reg32::Eax), Reg32::Ecx)),
        Item::Plain(Insn::Pop(Reg32::Ebx)),
        Item::Plain(Insn::Ret),
    ]?)
}

/// `exit` with the argument word.
pub(crate) fn exit_items(alloc: Global) -> Result<Vec<Item>, NoMemory>
    ensures { IfOk result (λ items. items.items ≡ exit_items) }
{
    let argument = Mem {
        base: Some(Reg32::Esp),
        index: None,
        disp: 4,
    };
    Ok(vec![in alloc;
        Item::Plain(Insn::MovLoad(Reg32::Ebx, argument)),
        Item::Plain(Insn::MovImm(Rm32::Reg(Reg32::Eax), EXIT)),
        Item::Plain(Insn::Int(SYSTEM)),
    ]?)
}

/// The trap of a failed check.
pub(crate) fn check_items(alloc: Global) -> Result<Vec<Item>, NoMemory>
    ensures { IfOk result (λ items. items.items ≡ check_items) }
{
    Ok(vec![in alloc; Item::Plain(Insn::Ud2)]?)
}
