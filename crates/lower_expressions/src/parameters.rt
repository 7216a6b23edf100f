//! The start of a call (C99 6.5.2.2p7).

ghost use Rattle.std.specs.Prelude.{◌≡◌, ◌+◌, OnOk, map, take};
ghost use Rattle.c_tree.specs.Erased.{local_of};
ghost use Rattle.lower_builder.specs.Built.{Adds};
ghost use Rattle.lower_lines.specs.Programs.{parameter_of, parameters_lines, words_in};
ghost use Rattle.lower_lines.specs.Variables.{local_spot};
ghost use Rattle.lower_builder.specs.Sites.{context_of};

use c_tree::{IntegerType, Local, ValueType};
use flow_graph::Op;
use lower_builder::{Lines, Site, plus};
use pcc_base::NoMemory;

/// A parameter takes its argument words, in its type.
fn parameter(
    lines: &mut Lines,
    site: &Site<'_>,
    of: ValueType,
    local: u32,
    word: u32,
) -> Result<(), NoMemory>
    ensures { OnOk result (Adds lines.old lines.new 0
        (parameter_of (context_of site.now) of (local_spot (context_of site.now) local) word)) }
{
    let spot = site.spot(local);
    match of {
        ValueType::Void => Ok(()),
        ValueType::Integer(IntegerType::Char) => {
            let own = site.number(0)?;
            lines.emit(Op::Param(own, word))?;
            lines.emit(Op::Low(spot.number, own))
        }
        ValueType::Integer(IntegerType::Short) => {
            let own = site.number(0)?;
            lines.emit(Op::Param(own, word))?;
            lines.emit(Op::Low16(spot.number, own))
        }
        ValueType::Integer(IntegerType::Int | IntegerType::UnsignedInt) => {
            lines.emit(Op::Param(spot.number, word))
        }
        ValueType::Pointer(_) => {
            let second = plus(word, 1)?;
            lines.emit(Op::Param(spot.array, word))?;
            lines.emit(Op::Param(spot.number, second))
        }
    }
}

/// How many argument words a parameter of a type has.
fn words_in(of: ValueType) -> u32
    ensures { result ≡ words_in of }
{
    match of {
        ValueType::Void => 0,
        ValueType::Integer(_) => 1,
        ValueType::Pointer(_) => 2,
    }
}

/// The first locals, which are so many parameters, take their argument words.
fn take_first(
    lines: &mut Lines,
    site: &Site<'_>,
    locals: &[Local],
    count: u32,
) -> Result<(), NoMemory>
    ensures { OnOk result (Adds lines.old lines.new 0
        (parameters_lines (context_of site.now) (take count (map local_of locals.now)) 0 0)) }
{
    let mut word = 0;
    let mut local = 0;
    'locals: while local < count && (local as usize) < locals.len() {
        let of = locals[local as usize].of;
        parameter(lines, site, of, local, word)?;
        word = plus(word, words_in(of))?;
        local += 1;
    }
    Ok(())
}

/// The parameters of a function take their argument words.
pub fn take_parameters(lines: &mut Lines, site: &Site<'_>) -> Result<(), NoMemory>
    ensures { OnOk result (Adds lines.old lines.new 0 (parameters_lines (context_of site.now)
        (take (context_of site.now).function.parameters (context_of site.now).function.locals) 0 0)) }
{
    take_first(
        lines,
        site,
        site.function.locals.as_slice(),
        site.function.parameters,
    )
}
