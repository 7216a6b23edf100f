//! The rows of ops on several variables, by their numbers, over a map.

ghost use Rattle.std.specs.Prelude.{◌≡◌, ◌<◌, ◌^◌, ◌++◌, OnOk, length, map, option_map, slice_index_or};
ghost use Rattle.ia32_insn.specs.declared.insn.AluOp.TheVariants as alu;
ghost use Rattle.ia32_insn.specs.declared.insn.Insn.TheVariants as insn;
ghost use Rattle.ia32_rows.specs.Rows.{adding, call_row, clear_row, commuting, dividing, load_row, loop_label};
ghost use Rattle.ia32_rows.specs.Rows.{multiplying, operation, setting, shifting, size_of, store_row, zero_edx};
ghost use Rattle.ia32_emit.specs.Locations.{slots_of};
ghost use Rattle.ia32_select.specs.Sites.{HasPoint, after_at, before_at, flow_of};

use crate::arrays::emit_clear;
use crate::site::{Site, after, all_before, any_after, array_at, array_of, before, loop_label};
use flow_graph::{Bits, Words};
use ia32_emit::{
    emit_call, emit_commuting, emit_division, emit_load, emit_operation, emit_product, emit_set,
    emit_shift, emit_store, emit_sum, emit_unsigned_division,
};
use ia32_insn::{AluOp, Cond, Item, Reg32, ShiftOp};
use pcc_base::NoMemory;

/// The sum of two variables.
pub fn sum(
    out: &mut Vec<Item>,
    site: &Site<'_>,
    point: u32,
    to: &u32,
    first: &u32,
    second: &u32,
) -> Result<(), NoMemory>
    requires { HasPoint site.now point }
    ensures { OnOk result (out.new.items ≡ out.old.items
        ++ adding (after_at site.now point to.now) (before_at site.now point first.now)
        (before_at site.now point second.now)) }
{
    emit_sum(
        out,
        after(site, point, to),
        before(site, point, first),
        before(site, point, second),
    )
}

/// An operation on two variables that commute.
pub fn commuting(
    out: &mut Vec<Item>,
    site: &Site<'_>,
    point: u32,
    how: AluOp,
    to: &u32,
    first: &u32,
    second: &u32,
) -> Result<(), NoMemory>
    requires { HasPoint site.now point }
    ensures { OnOk result (out.new.items ≡ out.old.items
        ++ commuting how (after_at site.now point to.now) (before_at site.now point first.now)
        (before_at site.now point second.now)) }
{
    emit_commuting(
        out,
        how,
        after(site, point, to),
        before(site, point, first),
        before(site, point, second),
    )
}

/// A difference of two variables.
pub fn difference(
    out: &mut Vec<Item>,
    site: &Site<'_>,
    point: u32,
    to: &u32,
    first: &u32,
    second: &u32,
) -> Result<(), NoMemory>
    requires { HasPoint site.now point }
    ensures { OnOk result (out.new.items ≡ out.old.items
        ++ operation alu.Sub (after_at site.now point to.now) (before_at site.now point first.now)
        (before_at site.now point second.now)) }
{
    emit_operation(
        out,
        AluOp::Sub,
        after(site, point, to),
        before(site, point, first),
        before(site, point, second),
    )
}

/// A product of two variables.
pub fn product(
    out: &mut Vec<Item>,
    site: &Site<'_>,
    point: u32,
    to: &u32,
    first: &u32,
    second: &u32,
) -> Result<(), NoMemory>
    requires { HasPoint site.now point }
    ensures { OnOk result (out.new.items ≡ out.old.items
        ++ multiplying (after_at site.now point to.now) (before_at site.now point first.now)
        (before_at site.now point second.now)) }
{
    emit_product(
        out,
        after(site, point, to),
        before(site, point, first),
        before(site, point, second),
    )
}

/// A quotient or a remainder of two variables: what a division leaves in EAX or EDX.
pub fn division(
    out: &mut Vec<Item>,
    site: &Site<'_>,
    point: u32,
    part: Reg32,
    to: &u32,
    first: &u32,
    second: &u32,
) -> Result<(), NoMemory>
    requires { HasPoint site.now point }
    ensures { OnOk result (out.new.items ≡ out.old.items
        ++ dividing insn.Cdq insn.IDiv part (after_at site.now point to.now) (before_at site.now point first.now)
        (before_at site.now point second.now)) }
{
    emit_division(
        out,
        part,
        after(site, point, to),
        before(site, point, first),
        before(site, point, second),
    )
}

/// The same, of numbers without sign.
pub fn unsigned_division(
    out: &mut Vec<Item>,
    site: &Site<'_>,
    point: u32,
    part: Reg32,
    to: &u32,
    first: &u32,
    second: &u32,
) -> Result<(), NoMemory>
    requires { HasPoint site.now point }
    ensures { OnOk result (out.new.items ≡ out.old.items
        ++ dividing zero_edx insn.Div part (after_at site.now point to.now) (before_at site.now point first.now)
        (before_at site.now point second.now)) }
{
    emit_unsigned_division(
        out,
        part,
        after(site, point, to),
        before(site, point, first),
        before(site, point, second),
    )
}

/// A shift of a variable by another.
pub fn shift(
    out: &mut Vec<Item>,
    site: &Site<'_>,
    point: u32,
    how: ShiftOp,
    to: &u32,
    first: &u32,
    count: &u32,
) -> Result<(), NoMemory>
    requires { HasPoint site.now point }
    ensures { OnOk result (out.new.items ≡ out.old.items
        ++ shifting how (after_at site.now point to.now) (before_at site.now point first.now)
        (before_at site.now point count.now)) }
{
    emit_shift(
        out,
        how,
        after(site, point, to),
        before(site, point, first),
        before(site, point, count),
    )
}

/// Whether two variables compare so that the flags meet a condition.
pub fn set(
    out: &mut Vec<Item>,
    site: &Site<'_>,
    point: u32,
    condition: Cond,
    to: &u32,
    first: &u32,
    second: &u32,
) -> Result<(), NoMemory>
    requires { HasPoint site.now point }
    ensures { OnOk result (out.new.items ≡ out.old.items
        ++ setting condition (after_at site.now point to.now) (before_at site.now point first.now)
        (before_at site.now point second.now)) }
{
    emit_set(
        out,
        condition,
        after(site, point, to),
        before(site, point, first),
        before(site, point, second),
    )
}

/// An element of an array to a variable.
pub fn load(
    out: &mut Vec<Item>,
    site: &Site<'_>,
    point: u32,
    bits: Bits,
    to: &u32,
    array: &u32,
    index: &u32,
) -> Result<(), NoMemory>
    requires { HasPoint site.now point }
    ensures { OnOk result (out.new.items ≡ out.old.items
        ++ load_row bits (after_at site.now point to.now) (before_at site.now point array.now)
        (before_at site.now point index.now)) }
{
    emit_load(
        out,
        bits,
        after(site, point, to),
        before(site, point, array),
        before(site, point, index),
    )
}

/// A variable's value to an element of an array.
pub fn store(
    out: &mut Vec<Item>,
    site: &Site<'_>,
    point: u32,
    bits: Bits,
    array: &u32,
    index: &u32,
    value: &u32,
) -> Result<(), NoMemory>
    requires { HasPoint site.now point }
    ensures { OnOk result (out.new.items ≡ out.old.items
        ++ store_row bits (before_at site.now point array.now) (before_at site.now point index.now)
        (before_at site.now point value.now)) }
{
    emit_store(
        out,
        bits,
        before(site, point, array),
        before(site, point, index),
        before(site, point, value),
    )
}

/// Makes every element of a frame array 0, by the loop of a point.
pub fn clear(out: &mut Vec<Item>, site: &Site<'_>, point: u32, array: u32) -> Result<(), NoMemory>
    requires { loop_label (flow_of site.now) point < 2 ^ 32 }
    ensures { OnOk result (out.new.items ≡ out.old.items
        ++ clear_row (loop_label (flow_of site.now) point) (slice_index_or (slots_of site.now.arrays.now) array 0)
        (size_of (slice_index_or (flow_of site.now).arrays array (0, 0)))) }
{
    emit_clear(
        out,
        loop_label(site, point),
        array_at(site, array),
        array_of(site, array),
    )
}

/// A call of a function with the values of variables.
pub fn call(
    out: &mut Vec<Item>,
    site: &Site<'_>,
    point: u32,
    to: &Option<u32>,
    function: u32,
    arguments: &Words,
) -> Result<(), NoMemory>
    requires point { HasPoint site.now point }
    requires few { length arguments.now < 2 ^ 29 }
    ensures { OnOk result (out.new.items ≡ out.old.items
        ++ call_row (option_map (after_at site.now point) to.now) function
        (map (before_at site.now point) arguments.now)) }
{
    let locations = all_before(site, point, arguments.as_slice())?;
    emit_call(
        out,
        any_after(site, point, to),
        function,
        locations.as_slice(),
    )
}
