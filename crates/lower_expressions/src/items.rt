//! Declared items, but for the expressions of their initialisers (C99 6.7.8).

ghost use Rattle.std.specs.Prelude.{◌≡◌, ◌∷◌, [], OnOk, pos, suc};
ghost use Rattle.c_tree.specs.Erased.{expression_of};
ghost use Rattle.flow_graph.specs.declared.op.Comparison.TheVariants.{Lt};
ghost use Rattle.flow_graph.specs.declared.op.Op.TheVariants as op;
ghost use Rattle.lower_builder.specs.Built.{Adds};
ghost use Rattle.lower_lines.specs.Lines.{Emit, Start};
ghost use Rattle.lower_lines.specs.Parts.{bits_of};
ghost use Rattle.lower_lines.specs.Statements.{reads_none, zeroing};
ghost use Rattle.lower_lines.specs.Variables.{own, temporary, ForOld, ForScratch};
ghost use Rattle.lower_builder.specs.Sites.{context_of};
ghost use Rattle.lower_expressions.specs.Copies.{copy_lines, text_lines};

use c_tree::{Expression, IntegerType, ValueType};
use flow_graph::{Comparison, Op};
use lower_builder::{Lines, Site, bits_of, plus, text_count};
use pcc_base::NoMemory;

/// A local becomes 0 or null.
pub fn zero(lines: &mut Lines, site: &Site<'_>, local: u32) -> Result<(), NoMemory>
    ensures { OnOk result (Adds lines.old lines.new 0 (zeroing (context_of site.now) local)) }
{
    let spot = site.spot(local);
    match site.local_type(local) {
        ValueType::Void => Ok(()),
        ValueType::Integer(_) => lines.emit(Op::Const(spot.number, 0)),
        ValueType::Pointer(_) => {
            lines.emit(Op::Const(spot.array, 0))?;
            lines.emit(Op::Const(spot.number, 0))
        }
    }
}

/// A number or a string, which reads no local.
pub fn reads_none(e: &Expression) -> bool
    ensures { result ≡ reads_none (expression_of e.now) }
{
    match e {
        Expression::Constant(_, _) => true,
        Expression::Start(_, _) => true,
        _ => false,
    }
}

/// An array is cleared, and stands in the temporaries of level 0.
pub fn clear_array(lines: &mut Lines, site: &Site<'_>, k: u32) -> Result<(), NoMemory>
    ensures { OnOk result (Adds lines.old lines.new 0
        (Emit (op.Clear k) ∷ Emit (op.Frame (own (context_of site.now) 0).array k) ∷ [])) }
{
    let to = site.array(0)?;
    lines.emit(Op::Clear(k))?;
    lines.emit(Op::Frame(to, k))
}

/// A number in a variable is stored at a place of that array.
pub fn store_element(
    lines: &mut Lines,
    site: &Site<'_>,
    t: IntegerType,
    place: i32,
    x: u32,
) -> Result<(), NoMemory>
    ensures { OnOk result (Adds lines.old lines.new 0
        (Emit (op.Const (own (context_of site.now) 0).number place)
        ∷ Emit (op.Store (bits_of t) (own (context_of site.now) 0).array (own (context_of site.now) 0).number x)
        ∷ [])) }
{
    let to = site.own(0)?;
    lines.emit(Op::Const(to.number, place))?;
    lines.emit(Op::Store(bits_of(t), to.array, to.number, x))
}

/// The index of the first element, how many are copied, and 1.
fn prepare_copy(lines: &mut Lines, site: &Site<'_>, count: i32) -> Result<(), NoMemory>
    ensures { OnOk result (Adds lines.old lines.new 0
        (Emit (op.Const (own (context_of site.now) 0).number (pos 0))
        ∷ Emit (op.Const (own (context_of site.now) 1).number count)
        ∷ Emit (op.Const (temporary (context_of site.now) 0 ForScratch) (pos 1)) ∷ [])) }
{
    let to = site.number(0)?;
    let from = site.number(1)?;
    let one = site.scratch(0)?;
    lines.emit(Op::Const(to, 0))?;
    lines.emit(Op::Const(from, count))?;
    lines.emit(Op::Const(one, 1))?;
    Ok(())
}

/// Control goes to a block, which starts.
fn enter(lines: &mut Lines, block: u32) -> Result<(), NoMemory>
    ensures { OnOk result (Adds lines.old lines.new 0 (Emit (op.Jump block) ∷ Start block ∷ [])) }
{
    lines.emit(Op::Jump(block))?;
    lines.start(block)
}

/// An element is copied.
fn copy_element(lines: &mut Lines, site: &Site<'_>, t: IntegerType) -> Result<(), NoMemory>
    ensures { OnOk result (Adds lines.old lines.new 0
        (Emit (op.Load (bits_of t) (temporary (context_of site.now) 0 ForOld)
        (own (context_of site.now) 1).array (own (context_of site.now) 0).number)
        ∷ Emit (op.Store (bits_of t) (own (context_of site.now) 0).array (own (context_of site.now) 0).number
        (temporary (context_of site.now) 0 ForOld)) ∷ [])) }
{
    let to = site.own(0)?;
    let from = site.array(1)?;
    let element = site.old(0)?;
    lines.emit(Op::Load(bits_of(t), element, from, to.number))?;
    lines.emit(Op::Store(bits_of(t), to.array, to.number, element))
}

/// The next element, if there is one.
fn copy_on(lines: &mut Lines, site: &Site<'_>, block: u32) -> Result<(), NoMemory>
    ensures { OnOk result (Adds lines.old lines.new 0
        (Emit (op.Add (own (context_of site.now) 0).number (own (context_of site.now) 0).number
        (temporary (context_of site.now) 0 ForScratch))
        ∷ Emit (op.Branch Lt (own (context_of site.now) 0).number (own (context_of site.now) 1).number block
        (suc block)) ∷ Start (suc block) ∷ [])) }
{
    let behind = plus(block, 1)?;
    let to = site.number(0)?;
    let from = site.number(1)?;
    let one = site.scratch(0)?;
    lines.emit(Op::Add(to, to, one))?;
    lines.emit(Op::Branch(Comparison::Lt, to, from, block, behind))?;
    lines.start(behind)
}

/// The loop that copies, without turn and mark.
fn copy_all(lines: &mut Lines, site: &Site<'_>, t: IntegerType) -> Result<(), NoMemory>
    ensures { OnOk result (Adds lines.old lines.new 2
        (copy_lines (context_of site.now) t lines.old.next)) }
{
    let block = lines.take_blocks(2)?;
    enter(lines, block)?;
    copy_element(lines, site, t)?;
    copy_on(lines, site, block)
}

/// An array that is cleared is given the elements of a string (C99 6.7.8p14).
pub fn copy_text(
    lines: &mut Lines,
    site: &Site<'_>,
    k: u32,
    t: IntegerType,
    object: u32,
) -> Result<(), NoMemory>
    ensures { OnOk result (Adds lines.old lines.new 2
        (text_lines (context_of site.now) k t object lines.old.next)) }
{
    let count = text_count(site, k, object)?;
    let from = site.array(1)?;
    lines.emit(Op::Static(from, object))?;
    prepare_copy(lines, site, count)?;
    copy_all(lines, site, t)?;
    Ok(())
}
