//! Numbers, names and strings.

ghost use Rattle.std.specs.Prelude.{◌≡◌, ℕ, ◌∷◌, [], IfOk, OnOk, option_map};
ghost use Rattle.c_tree.specs.declared.types.IntegerType.TheVariants.{Char};
ghost use Rattle.c_tree.specs.declared.types.ValueType.TheVariants.{Integer};
ghost use Rattle.lower_builder.specs.Built.{Adds};
ghost use Rattle.lower_lines.specs.Expressions.{array_line, constant_part, local_part, object_part, read_part};
ghost use Rattle.lower_lines.specs.Expressions.{reading, start_part, AtObject};
ghost use Rattle.lower_lines.specs.Parts.{if_stays, operand, tested_blocks};
ghost use Rattle.lower_lines.specs.Variables.{local_spot, Context};
ghost use Rattle.lower_builder.specs.Sites.{context_of};
ghost use Rattle.lower_builder.specs.Spots.{spot_of};
ghost use Rattle.lower_builder.specs.MoveViews.{plain, wanted_of};
ghost use Rattle.lower_builder.specs.Views.{AddsOperand, AddsPart};

use c_operators::convert;
use c_tree::{ArrayRef, IntegerType, ValueType};
use flow_graph::Op;
use lower_builder::{Lines, Site, Spot, Wanted, reading, target, tested, tested_number};
use pcc_base::NoMemory;

/// A number (C99 6.4.4).
pub fn constant(
    lines: &mut Lines,
    site: &Site<'_>,
    level: u32,
    wanted: Wanted,
    t: IntegerType,
    n: i32,
) -> Result<(), NoMemory>
    ensures { OnOk result (AddsPart (constant_part (context_of site.now) t n) level (wanted_of wanted)
        lines.old lines.new) }
{
    let to = target(site, level, wanted)?;
    lines.emit(Op::Const(to.number, convert(t, n)))?;
    tested_number(lines, site, level, wanted, t)
}

/// The array of a name or a string, in a variable.
fn array_line(lines: &mut Lines, array: ArrayRef, to: u32) -> Result<(), NoMemory>
    ensures { OnOk result (Adds lines.old lines.new 0 (array_line array to ∷ [])) }
{
    match array {
        ArrayRef::Static(k) => lines.emit(Op::Static(to, k)),
        ArrayRef::Frame(k) => lines.emit(Op::Frame(to, k)),
    }
}

/// The name of an array, or a string: a pointer to its first element (C99 6.3.2.1).
pub fn start(
    lines: &mut Lines,
    site: &Site<'_>,
    level: u32,
    wanted: Wanted,
    element: IntegerType,
    array: ArrayRef,
) -> Result<(), NoMemory>
    ensures { OnOk result (AddsPart (start_part (context_of site.now) element array) level (wanted_of wanted)
        lines.old lines.new) }
{
    let to = target(site, level, wanted)?;
    array_line(lines, array, to.array)?;
    lines.emit(Op::Const(to.number, 0))?;
    tested(lines, site, level, wanted, ValueType::Pointer(element))
}

/// The reading of a local that stands in variables of width Two.
fn read_local(
    lines: &mut Lines,
    site: &Site<'_>,
    level: u32,
    wanted: Wanted,
    of: ValueType,
    local: u32,
) -> Result<(), NoMemory>
    ensures { OnOk result (Adds lines.old lines.new (tested_blocks (plain (wanted_of wanted)) of)
        (reading (context_of site.now) lines.old.next level (wanted_of wanted) of
        (local_spot (context_of site.now) local))) }
{
    reading(lines, site, level, wanted, of, site.spot(local))
}

/// The reading of a local of type `char`, whose variable has width One.
fn read_byte(
    lines: &mut Lines,
    site: &Site<'_>,
    level: u32,
    wanted: Wanted,
    local: u32,
) -> Result<(), NoMemory>
    ensures { OnOk result (AddsPart (local_part (context_of site.now) (Integer Char) local) level
        (wanted_of wanted) lines.old lines.new) }
{
    let to = target(site, level, wanted)?;
    let from = site.spot(local);
    lines.emit(Op::Wide(to.number, from.number))?;
    tested_number(lines, site, level, wanted, IntegerType::Char)
}

/// The value of a local.
pub fn local(
    lines: &mut Lines,
    site: &Site<'_>,
    level: u32,
    wanted: Wanted,
    of: ValueType,
    local: u32,
) -> Result<(), NoMemory>
    ensures { OnOk result (AddsPart (local_part (context_of site.now) of local) level (wanted_of wanted)
        lines.old lines.new) }
{
    match of {
        ValueType::Void => read_local(lines, site, level, wanted, of, local),
        ValueType::Integer(IntegerType::Char) => read_byte(lines, site, level, wanted, local),
        ValueType::Integer(IntegerType::Short) => read_local(lines, site, level, wanted, of, local),
        ValueType::Integer(IntegerType::Int | IntegerType::UnsignedInt) => {
            read_local(lines, site, level, wanted, of, local)
        }
        ValueType::Pointer(_) => read_local(lines, site, level, wanted, of, local),
    }
}

/// The type of a static object that is no array: a number's.
pub fn object_type(of: ValueType) -> IntegerType
    ensures { (c : Context) (k : ℕ) → read_part c of (AtObject k) ≡ object_part c result k }
{
    match of {
        ValueType::Integer(t) => t,
        ValueType::Void => IntegerType::Int,
        ValueType::Pointer(_) => IntegerType::Int,
    }
}

/// The variables of a local that an op may use where it stands.
pub(crate) fn local_stands(site: &Site<'_>, of: ValueType, local: u32) -> Option<Spot>
    ensures { option_map spot_of result ≡ (local_part (context_of site.now) of local).stands }
{
    match of {
        ValueType::Integer(IntegerType::Char) => None,
        ValueType::Void => Some(site.spot(local)),
        ValueType::Integer(IntegerType::Short) => Some(site.spot(local)),
        ValueType::Integer(IntegerType::Int | IntegerType::UnsignedInt) => Some(site.spot(local)),
        ValueType::Pointer(_) => Some(site.spot(local)),
    }
}

/// A spot, if nothing that is evaluated meanwhile stores anything.
pub fn if_stays(stays: bool, spot: Option<Spot>) -> Option<Spot>
    ensures { option_map spot_of result ≡ if_stays stays (option_map spot_of spot) }
{
    if stays {
        return spot;
    }
    None
}

/// A local as an operand.
pub(crate) fn local_operand(
    lines: &mut Lines,
    site: &Site<'_>,
    level: u32,
    stays: bool,
    of: ValueType,
    place: u32,
) -> Result<Spot, NoMemory>
    ensures adds { IfOk result (λ spot. AddsOperand
        (operand (context_of site.now) stays (local_part (context_of site.now) of place)) level
        lines.old lines.new) }
    ensures spot { IfOk result (λ spot. spot_of spot
        ≡ (operand (context_of site.now) stays (local_part (context_of site.now) of place)).spot level) }
{
    match if_stays(stays, local_stands(site, of, place)) {
        Some(spot) => Ok(spot),
        None => {
            local(lines, site, level, Wanted::Own, of, place)?;
            let own = site.own(level)?;
            Ok(own)
        }
    }
}
