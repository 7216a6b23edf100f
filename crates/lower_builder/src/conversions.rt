//! Numbers that are converted.

ghost use Rattle.std.specs.Prelude.{OnOk};
ghost use Rattle.lower_builder.specs.Built.{Adds};
ghost use Rattle.lower_lines.specs.Parts.{converting};
ghost use Rattle.lower_builder.specs.Sites.{context_of};

use crate::lines::Lines;
use crate::moves::copied;
use crate::site::Site;
use c_tree::IntegerType;
use flow_graph::Op;
use pcc_base::NoMemory;

/// A number from one variable to another, in an integer type (C99 6.3.1.3).
pub fn converting(
    lines: &mut Lines,
    site: &Site<'_>,
    level: u32,
    t: IntegerType,
    to: u32,
    from: u32,
) -> Result<(), NoMemory>
    ensures { OnOk result (Adds lines.old lines.new 0 (converting (context_of site.now) level t to from)) }
{
    match t {
        IntegerType::Char => {
            let byte = site.byte(level)?;
            lines.emit(Op::Low(byte, from))?;
            lines.emit(Op::Wide(to, byte))
        }
        IntegerType::Short => lines.emit(Op::Low16(to, from)),
        IntegerType::Int | IntegerType::UnsignedInt => copied(lines, to, from),
    }
}
