//! The value of a static object that is no array, the width of an access, and how much of a string an array gets.

ghost use Rattle.std.specs.Prelude.{◌≡◌, IfOk, OnOk, pos};
ghost use Rattle.lower_lines.specs.Expressions.{object_part};
ghost use Rattle.lower_lines.specs.Parts.{bits_of};
ghost use Rattle.lower_lines.specs.Statements.{text_count};
ghost use Rattle.lower_builder.specs.Sites.{context_of};
ghost use Rattle.lower_builder.specs.MoveViews.{wanted_of};
ghost use Rattle.lower_builder.specs.Views.{AddsPart};

use crate::lines::Lines;
use crate::moves::target;
use crate::operators::tested_number;
use crate::site::Site;
use crate::wanted::Wanted;
use c_tree::IntegerType;
use flow_graph::{Bits, Op};
use pcc_base::NoMemory;

/// How many bits an access to a value of a type has.
pub fn bits_of(t: IntegerType) -> Bits
    ensures { result ≡ bits_of t }
{
    match t {
        IntegerType::Char => Bits::Eight,
        IntegerType::Short => Bits::Sixteen,
        IntegerType::Int | IntegerType::UnsignedInt => Bits::ThirtyTwo,
    }
}

/// The value of a static object that is no array.
pub fn object(
    lines: &mut Lines,
    site: &Site<'_>,
    level: u32,
    wanted: Wanted,
    t: IntegerType,
    k: u32,
) -> Result<(), NoMemory>
    ensures { OnOk result (AddsPart (object_part (context_of site.now) t k) level (wanted_of wanted)
        lines.old lines.new) }
{
    let to = target(site, level, wanted)?;
    lines.emit(Op::Get(bits_of(t), to.number, k))?;
    tested_number(lines, site, level, wanted, t)
}

/// How many elements a string gives an array.
pub fn text_count(site: &Site<'_>, array: u32, object: u32) -> Result<i32, NoMemory>
    ensures { IfOk result (λ n. n ≡ pos (text_count (context_of site.now) array object)) }
{
    let held = match site.program.objects.get(object as usize) {
        Some(object) => object.elements.len(),
        None => 0,
    };
    let room = match site.function.arrays.get(array as usize) {
        Some(array) => array.count as usize,
        None => 0,
    };
    // This number is never refused: an array in a frame has at most 16,384 elements.
    i32::try_from(room.min(held)).map_err(|_| NoMemory)
}
