//! The items of ops whose operands stand where a row needs fewer moves, and of ops of numbers without sign, by hand.

use crate::expected::expect;
use crate::rows::expect_printed;
use flow_graph::{Bits, Order};
use ia32_emit::{
    Location, cond_of_order, emit_branch, emit_half, emit_low, emit_operation, emit_product,
    emit_set, emit_shift, emit_store, emit_sum, emit_unsigned_division, emit_zero,
};
use ia32_insn::{AluOp, Item, Reg8, Reg32, ShiftOp};
use pcc_base::NoMemory;

const EAX: Location = Location::Word(Reg32::Eax);

const ECX: Location = Location::Word(Reg32::Ecx);

const EBX: Location = Location::Word(Reg32::Ebx);

const CL: Location = Location::Byte(Reg8::Cl);

const SLOT: Location = Location::Slot(-20);

const OTHER: Location = Location::Slot(-24);

/// Two registers are added by LEA, to a slot by ESI, and without it where the result stands in one of them.
const SUMS: &str = "\
Plain(Lea(Ebx, Mem { base: Some(Eax), index: Some((Ecx, 1)), disp: 0 }))
Plain(Lea(Esi, Mem { base: Some(Eax), index: Some((Ecx, 1)), disp: 0 }))
Plain(Mov(Mem(Mem { base: Some(Ebp), index: None, disp: -20 }), Esi))
Plain(Alu(Add, Reg(Ecx), Eax))
Plain(Alu(Add, Mem(Mem { base: Some(Ebp), index: None, disp: -20 }), Ecx))
";

/// A difference is made on the slot of its first operand, and not on that of its second; a product of two registers is
/// one instruction in either.
const OPERATIONS: &str = "\
Plain(Alu(Sub, Mem(Mem { base: Some(Ebp), index: None, disp: -20 }), Eax))
Plain(MovLoad(Esi, Mem { base: Some(Ebp), index: None, disp: -24 }))
Plain(Alu(Sub, Mem(Mem { base: Some(Ebp), index: None, disp: -20 }), Esi))
Plain(Mov(Reg(Esi), Eax))
Plain(AluLoad(Sub, Esi, Mem { base: Some(Ebp), index: None, disp: -20 }))
Plain(Mov(Mem(Mem { base: Some(Ebp), index: None, disp: -20 }), Esi))
Plain(IMul(Ecx, Reg(Eax)))
";

/// Behind the checks a value in a register goes straight to its element, a byte by the register's lowest one; a byte in
/// a slot goes by EDI, ESI and AL.
const STORES: &str = "\
Plain(Test(Reg(Eax), Eax))
JumpTrap(Some(E))
Plain(AluLoad(Cmp, Ecx, Mem { base: Some(Eax), index: None, disp: -4 }))
JumpTrap(Some(Ae))
Plain(Mov16(Mem(Mem { base: Some(Eax), index: Some((Ecx, 2)), disp: 0 }), Ebx))
Plain(Test(Reg(Eax), Eax))
JumpTrap(Some(E))
Plain(AluLoad(Cmp, Ecx, Mem { base: Some(Eax), index: None, disp: -4 }))
JumpTrap(Some(Ae))
Plain(Mov8(Mem(Mem { base: Some(Eax), index: Some((Ecx, 1)), disp: 0 }), Bl))
Plain(Test(Reg(Eax), Eax))
JumpTrap(Some(E))
Plain(AluLoad(Cmp, Ecx, Mem { base: Some(Eax), index: None, disp: -4 }))
JumpTrap(Some(Ae))
Plain(Lea(Edi, Mem { base: Some(Eax), index: Some((Ecx, 1)), disp: 0 }))
Plain(MovLoad(Esi, Mem { base: Some(Ebp), index: None, disp: -20 }))
Plain(Xchg(Reg(Esi), Eax))
Plain(Mov8(Mem(Mem { base: Some(Edi), index: None, disp: 0 }), Al))
Plain(Xchg(Reg(Esi), Eax))
";

/// A byte with zero bits above it, from a slot and to one; the low byte and half of a word in a slot, where it stands.
const BYTES: &str = "\
Plain(MovZx8(Ebx, Mem(Mem { base: Some(Ebp), index: None, disp: -20 })))
Plain(MovZx8(Esi, Reg(Cl)))
Plain(Mov(Mem(Mem { base: Some(Ebp), index: None, disp: -20 }), Esi))
Plain(Mov8Load(Cl, Mem { base: Some(Ebp), index: None, disp: -20 }))
Plain(MovSx16(Ebx, Mem(Mem { base: Some(Ebp), index: None, disp: -20 })))
";

/// A quotient and a remainder without sign, the latter with its divisor in EDX, which is cleared; a shift that fills with
/// zeros; and an order without sign, as a number and by a branch.
const UNSIGNED: &str = "\
Plain(Alu(Xor, Reg(Edx), Edx))
Plain(Div(Mem(Mem { base: Some(Ebp), index: None, disp: -20 })))
Plain(Mov(Reg(Esi), Edx))
Plain(Mov(Reg(Eax), Ecx))
Plain(Alu(Xor, Reg(Edx), Edx))
Plain(Div(Reg(Esi)))
Plain(Mov(Reg(Ebx), Edx))
Plain(ShiftCl(Shr, Reg(Ebx)))
Plain(Alu(Cmp, Reg(Eax), Ecx))
Plain(SetCc(B, Reg(Bl)))
Plain(MovZx8(Ebx, Reg(Bl)))
Plain(Alu(Cmp, Reg(Eax), Ecx))
JumpIf(Ae, 1)
JumpTo(2)
";

fn put_sums(out: &mut Vec<Item>) -> Result<(), NoMemory> {
    emit_sum(out, EBX, EAX, ECX)?;
    emit_sum(out, SLOT, EAX, ECX)?;
    emit_sum(out, ECX, EAX, ECX)?;
    emit_sum(out, SLOT, ECX, SLOT)
}

fn put_operations(out: &mut Vec<Item>) -> Result<(), NoMemory> {
    emit_operation(out, AluOp::Sub, SLOT, SLOT, EAX)?;
    emit_operation(out, AluOp::Sub, SLOT, SLOT, OTHER)?;
    emit_operation(out, AluOp::Sub, SLOT, EAX, SLOT)?;
    emit_product(out, ECX, EAX, ECX)
}

fn put_stores(out: &mut Vec<Item>) -> Result<(), NoMemory> {
    emit_store(out, Bits::Sixteen, EAX, ECX, EBX)?;
    emit_store(out, Bits::Eight, EAX, ECX, EBX)?;
    emit_store(out, Bits::Eight, EAX, ECX, SLOT)
}

fn put_bytes(out: &mut Vec<Item>) -> Result<(), NoMemory> {
    emit_zero(out, EBX, SLOT)?;
    emit_zero(out, SLOT, CL)?;
    emit_low(out, CL, SLOT)?;
    emit_half(out, EBX, SLOT)
}

fn put_unsigned(out: &mut Vec<Item>) -> Result<(), NoMemory> {
    emit_unsigned_division(out, Reg32::Eax, EAX, EAX, SLOT)?;
    emit_unsigned_division(out, Reg32::Edx, EBX, ECX, Location::Word(Reg32::Edx))?;
    emit_shift(out, ShiftOp::Shr, EBX, EBX, CL)?;
    emit_set(out, cond_of_order(Order::Lt), EBX, EAX, ECX)?;
    emit_branch(out, cond_of_order(Order::Ge), 3, EAX, ECX, &[], &[], 1, 2)
}

#[test]
fn operands_where_they_stand(rt: HostRuntime) {
    let mut out = Vec::new(rt.alloc());
    put_sums(&mut out).expect(&rt, "the items of sums");
    put_operations(&mut out).expect(&rt, "the items of operations");
    put_stores(&mut out).expect(&rt, "the items of stores");
    let rows = SUMS.lines().chain(OPERATIONS.lines()).chain(STORES.lines());
    expect(&rt, &out.len(), &31, "how many items");
    for (item, row) in out.iter().zip(rows) {
        expect_printed(&rt, rt.alloc(), item, row);
    }
}

#[test]
fn numbers_without_sign(rt: HostRuntime) {
    let mut out = Vec::new(rt.alloc());
    put_bytes(&mut out).expect(&rt, "the items of bytes");
    put_unsigned(&mut out).expect(&rt, "the items of numbers without sign");
    expect(&rt, &out.len(), &19, "how many items");
    for (item, row) in out.iter().zip(BYTES.lines().chain(UNSIGNED.lines())) {
        expect_printed(&rt, rt.alloc(), item, row);
    }
}
