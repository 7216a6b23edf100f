//! The items of one op, over a map.

ghost use Rattle.std.specs.Prelude.{◌≡◌, ◌<◌, ◌^◌, ◌++◌, OnOk};
ghost use Rattle.flow_graph.specs.Sizes.{words_of};
ghost use Rattle.ia32_rows.specs.Rows.{loop_label, row};
ghost use Rattle.ia32_select.specs.Sites.{HasPoint, flow_of, placement_of};

use crate::branches::{branch, jump};
use crate::operands::{
    call, clear, commuting, difference, division, load, product, set, shift, store, sum,
    unsigned_division,
};
use crate::site::{Site, after, array_at, before};
use flow_graph::Op;
use ia32_emit::{
    cond_of, cond_of_order, emit, emit_complement, emit_copy, emit_exit, emit_frame_array,
    emit_get, emit_getchar, emit_half, emit_leave, emit_low, emit_negation, emit_number,
    emit_param, emit_put, emit_putchar, emit_return, emit_same, emit_static, emit_wide, emit_zero,
};
use ia32_insn::{AluOp, Insn, Item, Reg32, ShiftOp};
use pcc_base::NoMemory;

/// The items of the op of a point.
pub(crate) fn emit_op(
    out: &mut Vec<Item>,
    site: &Site<'_>,
    point: u32,
    op: &Op,
) -> Result<(), NoMemory>
    requires point { HasPoint site.now point }
    requires few_words { words_of op.now < 2 ^ 29 }
    requires few_labels { loop_label (flow_of site.now) point < 2 ^ 32 }
    ensures { OnOk result (out.new.items
        ≡ out.old.items ++ row (flow_of site.now) (placement_of site.now) point op.now) }
{
    match op {
        Op::Const(to, number) => emit_number(out, after(site, point, to), *number),
        Op::Copy(to, from) => emit_copy(out, before(site, point, from), after(site, point, to)),
        Op::Wide(to, from) => emit_wide(out, after(site, point, to), before(site, point, from)),
        Op::Zero(to, from) => emit_zero(out, after(site, point, to), before(site, point, from)),
        Op::Low(to, from) => emit_low(out, after(site, point, to), before(site, point, from)),
        Op::Low16(to, from) => emit_half(out, after(site, point, to), before(site, point, from)),
        Op::Neg(to, from) => emit_negation(out, after(site, point, to), before(site, point, from)),
        Op::Not(to, from) => emit_complement(
            out,
            after(site, point, to),
            before(site, point, from),
        ),
        Op::Add(to, first, second) => sum(out, site, point, to, first, second),
        Op::Sub(to, first, second) => difference(out, site, point, to, first, second),
        Op::Mul(to, first, second) => product(out, site, point, to, first, second),
        Op::And(to, first, second) => commuting(out, site, point, AluOp::And, to, first, second),
        Op::Or(to, first, second) => commuting(out, site, point, AluOp::Or, to, first, second),
        Op::Xor(to, first, second) => commuting(out, site, point, AluOp::Xor, to, first, second),
        Op::Shl(to, first, count) => shift(out, site, point, ShiftOp::Shl, to, first, count),
        Op::Sar(to, first, count) => shift(out, site, point, ShiftOp::Sar, to, first, count),
        Op::Shr(to, first, count) => shift(out, site, point, ShiftOp::Shr, to, first, count),
        Op::Div(to, first, second) => division(out, site, point, Reg32::Eax, to, first, second),
        Op::Rem(to, first, second) => division(out, site, point, Reg32::Edx, to, first, second),
        Op::Udiv(to, first, second) => {
            unsigned_division(out, site, point, Reg32::Eax, to, first, second)
        }
        Op::Urem(to, first, second) => {
            unsigned_division(out, site, point, Reg32::Edx, to, first, second)
        }
        Op::Set(how, to, first, second) => set(out, site, point, cond_of(*how), to, first, second),
        Op::Setu(how, to, first, second) => {
            let condition = cond_of_order(*how);
            set(out, site, point, condition, to, first, second)
        }
        Op::Frame(to, array) => emit_frame_array(
            out,
            after(site, point, to),
            array_at(site, *array),
        ),
        Op::Static(to, object) => emit_static(out, after(site, point, to), *object),
        Op::Load(bits, to, array, index) => load(out, site, point, *bits, to, array, index),
        Op::Store(bits, array, index, from) => store(out, site, point, *bits, array, index, from),
        Op::Get(bits, to, object) => emit_get(out, *bits, after(site, point, to), *object),
        Op::Put(bits, object, from) => emit_put(out, *bits, *object, before(site, point, from)),
        Op::Clear(array) => clear(out, site, point, *array),
        Op::Param(to, word) => emit_param(out, after(site, point, to), *word),
        Op::Call(to, function, arguments) => call(out, site, point, to, *function, arguments),
        Op::Putchar(to, from) => emit_putchar(
            out,
            after(site, point, to),
            before(site, point, from),
        ),
        Op::Getchar(to) => emit_getchar(out, after(site, point, to)),
        Op::Exit(status) => emit_exit(out, before(site, point, status)),
        Op::Same(first, second) => emit_same(
            out,
            before(site, point, first),
            before(site, point, second),
        ),
        Op::Mark(_) | Op::Turn => emit(out, Insn::Nop),
        Op::Jump(block) => jump(out, site, point, *block),
        Op::Branch(how, first, second, taken, other) => {
            let condition = cond_of(*how);
            branch(out, site, point, condition, first, second, *taken, *other)
        }
        Op::Branchu(how, first, second, taken, other) => {
            let condition = cond_of_order(*how);
            branch(out, site, point, condition, first, second, *taken, *other)
        }
        Op::Return(Some(from)) => emit_return(out, before(site, point, from)),
        Op::Return(None) => emit_leave(out),
    }
}
