//! Declared items and their initialisers (C99 6.7.8).

ghost use Rattle.std.specs.Prelude.{◌∷◌, [], ◌++◌, OnOk, map, option_map, pos, true, Some};
ghost use Rattle.c_tree.specs.Erased.{boxed_of, expression_of, first_of, initialiser_of, item_of};
ghost use Rattle.flow_graph.specs.declared.op.Op.TheVariants as op;
ghost use Rattle.lower_builder.specs.Built.{Adds};
ghost use Rattle.lower_lines.specs.Expressions.{part_of};
ghost use Rattle.lower_lines.specs.Lines.{Emit};
ghost use Rattle.lower_lines.specs.Parts.{bits_of, operand};
ghost use Rattle.lower_lines.specs.Statements.{array_blocks, array_lines, elements_blocks, elements_lines};
ghost use Rattle.lower_lines.specs.Statements.{first_blocks};
ghost use Rattle.lower_lines.specs.Statements.{first_lines, item_blocks, item_lines, items_blocks, items_lines};
ghost use Rattle.lower_lines.specs.Statements.{local_blocks, local_lines};
ghost use Rattle.lower_lines.specs.Variables.{own};
ghost use Rattle.lower_builder.specs.Sites.{context_of};

use c_tree::{Expression, First, Initialiser, IntegerType, Item};
use flow_graph::Op;
use lower_builder::{Lines, Site, Wanted};
use lower_expressions::{
    assign_local, clear_array, copy_text, emit, reads_none, stood, store_element, zero,
};
use pcc_base::NoMemory;

/// A local takes the value of its initialiser.
fn initialised(
    lines: &mut Lines,
    site: &Site<'_>,
    local: u32,
    e: &Expression,
) -> Result<(), NoMemory>
    ensures { OnOk result (Adds lines.old lines.new
        (local_blocks (context_of site.now) local (Some (expression_of e.now)))
        (local_lines (context_of site.now) local (Some (expression_of e.now)) lines.old.next)) }
{
    let of = site.local_type(local);
    if reads_none(e) {
        return assign_local(lines, site, 0, Wanted::Dropped, of, local, e);
    }
    zero(lines, site, local)?;
    assign_local(lines, site, 0, Wanted::Dropped, of, local, e)
}

/// A local is declared.
fn scalar(
    lines: &mut Lines,
    site: &Site<'_>,
    local: u32,
    value: &Option<Box<Expression>>,
) -> Result<(), NoMemory>
    ensures { OnOk result (Adds lines.old lines.new
        (local_blocks (context_of site.now) local (option_map boxed_of value.now))
        (local_lines (context_of site.now) local (option_map boxed_of value.now) lines.old.next)) }
{
    match value {
        None => zero(lines, site, local),
        Some(e) => initialised(lines, site, local, e),
    }
}

/// An element of an array, which is in the temporaries of level 0.
fn element(
    lines: &mut Lines,
    site: &Site<'_>,
    t: IntegerType,
    place: usize,
    e: &Expression,
) -> Result<(), NoMemory>
    ensures { OnOk result (Adds lines.old lines.new
        (operand (context_of site.now) true (part_of (context_of site.now) (expression_of e.now))).blocks
        ((operand (context_of site.now) true (part_of (context_of site.now) (expression_of e.now))).lines
        lines.old.next 1
        ++ (Emit (op.Const (own (context_of site.now) 0).number (pos place))
        ∷ Emit (op.Store (bits_of t) (own (context_of site.now) 0).array (own (context_of site.now) 0).number
        ((operand (context_of site.now) true (part_of (context_of site.now) (expression_of e.now))).spot 1).number)
        ∷ []))) }
{
    // This number is never refused: an array in a frame has at most 16,384 elements.
    let at = i32::try_from(place).map_err(|_| NoMemory)?;
    let x = stood(lines, site, 1, true, e)?;
    store_element(lines, site, t, at, x.number)
}

/// The first elements of an array.
fn elements(
    lines: &mut Lines,
    site: &Site<'_>,
    t: IntegerType,
    values: &[Expression],
) -> Result<(), NoMemory>
    ensures { OnOk result (Adds lines.old lines.new
        (elements_blocks (context_of site.now) (map expression_of values.now))
        (elements_lines (context_of site.now) t 0 (map expression_of values.now) lines.old.next)) }
{
    let mut place = 0;
    'values: while place < values.len() {
        element(lines, site, t, place, &values[place])?;
        place += 1;
    }
    Ok(())
}

/// An array is declared.
fn array(
    lines: &mut Lines,
    site: &Site<'_>,
    k: u32,
    t: IntegerType,
    value: &Initialiser,
) -> Result<(), NoMemory>
    ensures { OnOk result (Adds lines.old lines.new
        (array_blocks (context_of site.now) (initialiser_of value.now))
        (array_lines (context_of site.now) k t (initialiser_of value.now) lines.old.next)) }
{
    clear_array(lines, site, k)?;
    match value {
        Initialiser::List(values) => elements(lines, site, t, values.as_slice()),
        Initialiser::Text(object) => {
            copy_text(lines, site, k, t, *object)?;
            Ok(())
        }
    }
}

/// A declared item, which begins with its mark.
pub fn item(lines: &mut Lines, site: &Site<'_>, of: &Item) -> Result<(), NoMemory>
    ensures { OnOk result (Adds lines.old lines.new (item_blocks (context_of site.now) (item_of of.now))
        (item_lines (context_of site.now) (item_of of.now) lines.old.next)) }
{
    match of {
        Item::Scalar(n, local, value) => {
            lines.emit(Op::Mark(*n))?;
            scalar(lines, site, *local, value)
        }
        Item::Array(n, k, t, value) => {
            lines.emit(Op::Mark(*n))?;
            array(lines, site, *k, *t, value)
        }
    }
}

/// Declared items in order.
fn items(lines: &mut Lines, site: &Site<'_>, of: &[Item]) -> Result<(), NoMemory>
    ensures { OnOk result (Adds lines.old lines.new (items_blocks (context_of site.now) (map item_of of.now))
        (items_lines (context_of site.now) (map item_of of.now) lines.old.next)) }
{
    let mut place = 0;
    'items: while place < of.len() {
        item(lines, site, &of[place])?;
        place += 1;
    }
    Ok(())
}

/// The first part of a `for` (C99 6.8.5.3).
pub fn first_part(lines: &mut Lines, site: &Site<'_>, first: &First) -> Result<(), NoMemory>
    ensures { OnOk result (Adds lines.old lines.new (first_blocks (context_of site.now) (first_of first.now))
        (first_lines (context_of site.now) (first_of first.now) lines.old.next)) }
{
    match first {
        First::Nothing => Ok(()),
        First::Expression(e) => emit(lines, site, 0, Wanted::Dropped, e),
        First::Items(of) => items(lines, site, of.as_slice()),
    }
}
