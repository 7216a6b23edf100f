//! The rows of ops that go by a comparison.

ghost use Rattle.std.specs.Prelude.{◌≡◌, ◌++◌, ◌∷◌, [], OnOk, map};
ghost use Rattle.ia32_insn.specs.declared.item.Item.TheVariants as item;
ghost use Rattle.ia32_rows.specs.Rows.{branching, choosing, cond_of, cond_of_order, jumping, setting};
ghost use Rattle.ia32_emit.specs.Locations.{place_of};

use crate::compared_words::{emit_compare, emit_jump, emit_truth};
use crate::instructions::emit_all;
use crate::locations::Location;
use flow_graph::{Comparison, Order};
use ia32_insn::{Cond, Insn, Item};
use pcc_base::NoMemory;

/// The condition of a signed comparison.
pub fn cond_of(how: Comparison) -> Cond
    ensures { result ≡ cond_of how }
{
    match how {
        Comparison::Eq => Cond::E,
        Comparison::Ne => Cond::Ne,
        Comparison::Lt => Cond::L,
        Comparison::Le => Cond::Le,
        Comparison::Gt => Cond::G,
        Comparison::Ge => Cond::Ge,
    }
}

/// The condition of a comparison of numbers without sign.
pub fn cond_of_order(how: Order) -> Cond
    ensures { result ≡ cond_of_order how }
{
    match how {
        Order::Lt => Cond::B,
        Order::Le => Cond::Be,
        Order::Gt => Cond::A,
        Order::Ge => Cond::Ae,
    }
}

/// Whether two words compare so that the flags meet a condition.
pub fn emit_set(
    out: &mut Vec<Item>,
    condition: Cond,
    to: Location,
    first: Location,
    second: Location,
) -> Result<(), NoMemory>
    ensures { OnOk result (out.new.items
        ≡ out.old.items ++ setting condition (place_of to) (place_of first) (place_of second)) }
{
    emit_compare(out, first, second)?;
    emit_truth(out, condition, to)
}

/// To one label where the flags meet a condition, to the other where they don't, through the moves on the way there.
fn emit_straight_choice(
    out: &mut Vec<Item>,
    condition: Cond,
    to_other: &[Insn],
    taken: u32,
    other: u32,
) -> Result<(), NoMemory>
    ensures { OnOk result (out.new.items
        ≡ out.old.items ++ item.JumpIf condition taken ∷ jumping (map item.Plain to_other.now) other) }
{
    emit_all(out, &[Item::JumpIf(condition, taken)])?;
    emit_jump(out, to_other, other)
}

/// The same, with moves on the way to the first label too, behind a label of their own.
fn emit_choice_with_detour(
    out: &mut Vec<Item>,
    condition: Cond,
    detour: u32,
    to_taken: &[Insn],
    to_other: &[Insn],
    taken: u32,
    other: u32,
) -> Result<(), NoMemory>
    ensures { OnOk result (out.new.items
        ≡ out.old.items ++ item.JumpIf condition detour ∷ jumping (map item.Plain to_other.now) other
        ++ item.Label detour ∷ jumping (map item.Plain to_taken.now) taken) }
{
    emit_straight_choice(out, condition, to_other, detour, other)?;
    emit_all(out, &[Item::Label(detour)])?;
    emit_jump(out, to_taken, taken)
}

/// To one label where the flags meet a condition, to the other where they don't, each through the moves on its way.
fn emit_choice(
    out: &mut Vec<Item>,
    condition: Cond,
    detour: u32,
    to_taken: &[Insn],
    to_other: &[Insn],
    taken: u32,
    other: u32,
) -> Result<(), NoMemory>
    ensures { OnOk result (out.new.items
        ≡ out.old.items ++ choosing condition detour (map item.Plain to_taken.now) (map item.Plain to_other.now)
        taken other) }
{
    match to_taken {
        [] => emit_straight_choice(out, condition, to_other, taken, other),
        [_, ..] => emit_choice_with_detour(
            out, condition, detour, to_taken, to_other, taken, other,
        ),
    }
}

/// To one label where two words compare so that the flags meet a condition, to the other where they don't, each through
/// the moves on its way; those on the way to the first, where there are any, stand behind a label of their own.
pub fn emit_branch(
    out: &mut Vec<Item>,
    condition: Cond,
    detour: u32,
    first: Location,
    second: Location,
    to_taken: &[Insn],
    to_other: &[Insn],
    taken: u32,
    other: u32,
) -> Result<(), NoMemory>
    ensures { OnOk result (out.new.items
        ≡ out.old.items ++ branching condition detour (place_of first) (place_of second) (map item.Plain to_taken.now)
        (map item.Plain to_other.now) taken other) }
{
    emit_compare(out, first, second)?;
    emit_choice(out, condition, detour, to_taken, to_other, taken, other)
}
