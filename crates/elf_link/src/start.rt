ghost use Rattle.std.specs.Prelude.{◌≡◌, IfOk};
ghost use Rattle.ia32_insn.specs.Items.{start_items};

use ia32_insn::{Insn, Item, Mem, Reg32, Rm32};
use pcc_base::NoMemory;
use std::alloc::Global;

/// The number of the interrupt by which a program calls the system (Linux on i386).
pub(crate) const SYSTEM: u8 = 0x80;

/// The number of the call `exit` (Linux on i386).
pub const EXIT: i32 = 1;

/// The start: the stack's end to ESP, 1 to the depth word, the call of `main`, and `exit` with its result.
pub fn start_items(alloc: Global, stack: u32, depth: u32, main: u32) -> Result<Vec<Item>, NoMemory>
    ensures { IfOk result (λ items. items.items ≡ start_items stack depth main) }
{
    let depth_word = Mem {
        base: None,
        index: None,
        disp: depth.cast_signed(),
    };
    Ok(vec![in alloc;
        Item::Plain(Insn::MovImm(Rm32::Reg(Reg32::Esp), stack.cast_signed())),
        Item::Plain(Insn::MovImm(Rm32::Mem(depth_word), 1)),
        Item::CallFunction(main),
        Item::Plain(Insn::Mov(Rm32::Reg(Reg32::Ebx), Reg32::Eax)),
        Item::Plain(Insn::MovImm(Rm32::Reg(Reg32::Eax), EXIT)),
        Item::Plain(Insn::Int(SYSTEM)),
    ]?)
}
