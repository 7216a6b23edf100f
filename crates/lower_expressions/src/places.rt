//! Places that were found (C99 6.3.2.1).

ghost use Rattle.std.specs.Prelude.{◌≡◌, ℕ, suc, pos, [], ◌∷◌, true, IfOk, OnOk, option_map};
ghost use Rattle.c_tree.specs.declared.types.ValueType.TheVariants.{Integer};
ghost use Rattle.flow_graph.specs.declared.op.Op.TheVariants as op;
ghost use Rattle.lower_lines.specs.Lines.{Emit};
ghost use Rattle.lower_lines.specs.Parts.{delivered};
ghost use Rattle.lower_lines.specs.Variables.{temporary, ForNumber};
ghost use Rattle.lower_builder.specs.Built.{Adds, Built};
ghost use Rattle.lower_lines.specs.Expressions.{old_value, read_part, step_part, step_value, Located};
ghost use Rattle.lower_builder.specs.Sites.{context_of};
ghost use Rattle.lower_builder.specs.Spots.{spot_of};
ghost use Rattle.lower_builder.specs.MoveViews.{wanted_of};
ghost use Rattle.lower_builder.specs.Views.{AddsPart};
ghost use Rattle.lower_expressions.specs.Finding.{Finds};
ghost use Rattle.lower_expressions.specs.Rows.{element_at, element_lines, stepping};

use crate::found::Found;
use crate::kinds::number_type;
use crate::leaves::local;
use crate::names::{step_local, step_object, step_operator};
use crate::operands::{converted, element_sum, load_old, loaded, renewed};
use c_tree::{IntegerType, StepOp, ValueType};
use flow_graph::Op;
use lower_builder::{Lines, Site, Spot, Wanted, delivered, object, plus};
use pcc_base::NoMemory;

/// The value of a place that was found.
pub(crate) fn read_found(
    lines: &mut Lines,
    site: &Site<'_>,
    level: u32,
    wanted: Wanted,
    of: ValueType,
    found: Found,
) -> Result<(), NoMemory>
    ensures { OnOk result ((located : Located) (s : Built) → Finds located true level s lines.old found
        → AddsPart (read_part (context_of site.now) of located) level (wanted_of wanted) s lines.new) }
{
    match found {
        Found::Local(v) => local(lines, site, level, wanted, of, v),
        Found::Object(k) => object(lines, site, level, wanted, number_type(of), k),
        Found::Element(t, at) => loaded(lines, site, level, wanted, t, at),
    }
}

/// Where the address of `a[i]` stands, by the type of `a`, and the variables of `a` where its array may be used.
pub fn element_at(
    lines: &mut Lines,
    site: &Site<'_>,
    level: u32,
    of: ValueType,
    kept: Option<Spot>,
    x: Spot,
    y: Spot,
) -> Result<Spot, NoMemory>
    ensures adds { IfOk result (λ _. Adds lines.old lines.new 0 (element_lines (context_of site.now) level of
        (option_map spot_of kept) (spot_of x) (spot_of y))) }
    ensures spot { IfOk result (λ spot. spot_of spot
        ≡ element_at (context_of site.now) level of (option_map spot_of kept) (spot_of x)) }
{
    let own = site.own(level)?;
    match of {
        ValueType::Pointer(_) => {
            let to = Spot {
                array: match kept {
                    Some(_) => x.array,
                    None => own.array,
                },
                number: own.number,
            };
            element_sum(lines, to, x, y.number)?;
            Ok(to)
        }
        ValueType::Void | ValueType::Integer(_) => {
            element_sum(lines, own, y, x.number)?;
            Ok(own)
        }
    }
}

/// The number 1 in the number's temporary of a level.
fn one(lines: &mut Lines, site: &Site<'_>, level: u32) -> Result<u32, NoMemory>
    ensures adds { IfOk result (λ _. Adds lines.old lines.new 0
        (Emit (op.Const (temporary (context_of site.now) (suc level) ForNumber) (pos 1)) ∷ [])) }
    ensures number { IfOk result (λ v. v ≡ temporary (context_of site.now) (suc level) ForNumber) }
{
    let above = plus(level, 1)?;
    let to = site.number(above)?;
    lines.emit(Op::Const(to, 1))?;
    Ok(to)
}

/// The old value of an element, for what is wanted of it.
fn old_delivered(
    lines: &mut Lines,
    site: &Site<'_>,
    level: u32,
    wanted: Wanted,
    t: IntegerType,
) -> Result<(), NoMemory>
    ensures { OnOk result (Adds lines.old lines.new 0
        (delivered (context_of site.now) lines.old.next level (wanted_of wanted) (Integer t)
        (record { array = old_value (context_of site.now) level; number = old_value (context_of site.now) level }))) }
{
    let old = site.old(level)?;
    let from = Spot {
        array: old,
        number: old,
    };
    delivered_number(lines, site, level, wanted, t, from)
}

/// A number that stands in a spot, for what is wanted of it.
fn delivered_number(
    lines: &mut Lines,
    site: &Site<'_>,
    level: u32,
    wanted: Wanted,
    t: IntegerType,
    from: Spot,
) -> Result<(), NoMemory>
    ensures { OnOk result (Adds lines.old lines.new 0
        (delivered (context_of site.now) lines.old.next level (wanted_of wanted) (Integer t) (spot_of from))) }
{
    match wanted {
        Wanted::Dropped => delivered(lines, site, level, wanted, ValueType::Integer(t), from),
        Wanted::Own => delivered(lines, site, level, wanted, ValueType::Integer(t), from),
        Wanted::ToLocal(_) => delivered(lines, site, level, wanted, ValueType::Integer(t), from),
        Wanted::Tests(_, _) => delivered(lines, site, level, wanted, ValueType::Integer(t), from),
    }
}

/// The value of an element's step: the new one before, the old one after.
fn step_value(
    lines: &mut Lines,
    site: &Site<'_>,
    level: u32,
    wanted: Wanted,
    t: IntegerType,
    operator: StepOp,
) -> Result<(), NoMemory>
    ensures { OnOk result (Adds lines.old lines.new 0
        (step_value (context_of site.now) operator lines.old.next level (wanted_of wanted) t)) }
{
    let above = plus(level, 1)?;
    let new = site.old(above)?;
    match operator {
        StepOp::PreIncrement | StepOp::PreDecrement => {
            converted(lines, site, level, wanted, t, new)
        }
        StepOp::PostIncrement | StepOp::PostDecrement => {
            old_delivered(lines, site, level, wanted, t)
        }
    }
}

/// An element is stepped.
pub(crate) fn step_element(
    lines: &mut Lines,
    site: &Site<'_>,
    level: u32,
    wanted: Wanted,
    t: IntegerType,
    at: Spot,
    operator: StepOp,
) -> Result<(), NoMemory>
    ensures { OnOk result (Adds lines.old lines.new 0 (stepping (context_of site.now) operator lines.old.next level
        (wanted_of wanted) t (spot_of at))) }
{
    load_old(lines, site, level, t, at)?;
    let y = one(lines, site, level)?;
    renewed(lines, site, level, t, step_operator(operator, t), at, y)?;
    step_value(lines, site, level, wanted, t, operator)
}

/// A place that was found is stepped (C99 6.5.2.4 and 6.5.3.1).
pub(crate) fn step_found(
    lines: &mut Lines,
    site: &Site<'_>,
    level: u32,
    wanted: Wanted,
    of: ValueType,
    operator: StepOp,
    found: Found,
) -> Result<(), NoMemory>
    ensures { OnOk result ((located : Located) (s : Built) → Finds located true level s lines.old found
        → AddsPart (step_part (context_of site.now) of operator located) level (wanted_of wanted) s lines.new) }
{
    match found {
        Found::Local(v) => step_local(lines, site, level, wanted, of, v, operator),
        Found::Object(k) => step_object(lines, site, level, wanted, of, k, operator),
        Found::Element(t, at) => step_element(lines, site, level, wanted, t, at, operator),
    }
}
