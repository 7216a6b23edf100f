//! Parameters and results of calls (C99 6.5.2.2).

ghost use Rattle.std.specs.Prelude.{◌≡◌, ◌∷◌, [], None, Some, OnOk, map, slice_get};
ghost use Rattle.c_tree.specs.Erased.{local_of};
ghost use Rattle.c_tree.specs.declared.types.ValueType.TheVariants.{Integer};
ghost use Rattle.flow_graph.specs.declared.op.Op.TheVariants as op;
ghost use Rattle.lower_builder.specs.Built.{Adds};
ghost use Rattle.lower_lines.specs.Expressions.{parameters_of, result_lines};
ghost use Rattle.lower_lines.specs.Lines.{Emit};
ghost use Rattle.lower_lines.specs.Parts.{made, target};
ghost use Rattle.lower_builder.specs.Sites.{context_of};
ghost use Rattle.lower_builder.specs.MoveViews.{wanted_of};
ghost use Rattle.lower_expressions.specs.Rows.{parameter_type};

use c_tree::{IntegerType, Local, ValueType};
use flow_graph::{Op, Words};
use lower_builder::{Lines, Site, Wanted, target, tested_number};
use pcc_base::NoMemory;

/// The type of a local at a place of a list.
fn type_in_list(locals: &[Local], place: usize) -> Option<ValueType>
    ensures { result ≡ parameter_type (map local_of locals.now) place }
{
    match locals.get(place) {
        Some(local) => Some(local.of),
        None => None,
    }
}

/// The type of the parameter at a place, of a function of the program by its number.
pub(crate) fn parameter_type(site: &Site<'_>, f: u32, place: usize) -> Option<ValueType>
    ensures { result ≡ parameter_type (parameters_of (slice_get (context_of site.now).program.functions f)) place }
{
    match site.program.functions.get(f as usize) {
        Some(function) => {
            if place < function.parameters as usize {
                return type_in_list(function.locals.as_slice(), place);
            }
            None
        }
        None => None,
    }
}

/// A call whose result is taken.
fn taken(
    lines: &mut Lines,
    site: &Site<'_>,
    level: u32,
    wanted: Wanted,
    f: u32,
    words: Words,
) -> Result<(), NoMemory>
    ensures { OnOk result (Adds lines.old lines.new 0
        (Emit (op.Call (Some (target (context_of site.now) level (wanted_of wanted)).number) f words) ∷ [])) }
{
    let to = target(site, level, wanted)?;
    lines.emit(Op::Call(Some(to.number), f, words))
}

/// A call whose result is a number, and is tested.
fn taken_tested(
    lines: &mut Lines,
    site: &Site<'_>,
    level: u32,
    wanted: Wanted,
    t: IntegerType,
    f: u32,
    words: Words,
) -> Result<(), NoMemory>
    ensures { OnOk result (Adds lines.old lines.new 0
        (made (context_of site.now) lines.old.next level (wanted_of wanted) (Integer t)
        (λ to. Emit (op.Call (Some to.number) f words) ∷ []))) }
{
    taken(lines, site, level, wanted, f, words)?;
    tested_number(lines, site, level, wanted, t)
}

/// The call behind its arguments; its result is taken where it is wanted and there is one. No function of a typed
/// program gives a pointer, and none is tested.
pub(crate) fn call_made(
    lines: &mut Lines,
    site: &Site<'_>,
    level: u32,
    wanted: Wanted,
    of: ValueType,
    f: u32,
    words: Words,
) -> Result<(), NoMemory>
    ensures { OnOk result (Adds lines.old lines.new 0
        (result_lines (context_of site.now) lines.old.next level (wanted_of wanted) of f words)) }
{
    match wanted {
        Wanted::Dropped => lines.emit(Op::Call(None, f, words)),
        Wanted::Own | Wanted::ToLocal(_) => match of {
            ValueType::Void => lines.emit(Op::Call(None, f, words)),
            ValueType::Integer(_) | ValueType::Pointer(_) => {
                taken(lines, site, level, wanted, f, words)
            }
        },
        Wanted::Tests(_, _) => match of {
            ValueType::Void => lines.emit(Op::Call(None, f, words)),
            ValueType::Integer(t) => taken_tested(lines, site, level, wanted, t, f, words),
            // No caller meets this: no function of a typed program has a pointer as its result.
            ValueType::Pointer(_) => Err(NoMemory),
        },
    }
}
