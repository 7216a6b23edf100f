//! Arguments of calls (C99 6.5.2.2).

ghost use Rattle.std.specs.Prelude.{◌≡◌, ◌++◌, OnOk};
ghost use Rattle.lower_lines.specs.Expressions.{words_of};
ghost use Rattle.lower_builder.specs.Spots.{spot_of};
ghost use Rattle.lower_builder.specs.Arguments.{passed_type};

use crate::spot::Spot;
use c_tree::ValueType;
use pcc_base::NoMemory;

/// The type of an argument as its parameter takes it.
pub fn passed_type(parameter: Option<ValueType>, of: ValueType) -> ValueType
    ensures { result ≡ passed_type parameter of }
{
    match parameter {
        None => of,
        Some(ValueType::Void) => of,
        Some(ValueType::Integer(_)) => of,
        Some(ValueType::Pointer(t)) => match of {
            ValueType::Void => ValueType::Pointer(t),
            ValueType::Integer(_) => ValueType::Pointer(t),
            ValueType::Pointer(_) => of,
        },
    }
}

/// The words of an argument: a pointer is passed as its array and its index.
pub fn push_words(words: &mut Vec<u32>, of: ValueType, spot: Spot) -> Result<(), NoMemory>
    ensures { OnOk result (words.new.items ≡ words.old.items ++ words_of of (spot_of spot)) }
{
    match of {
        ValueType::Void => {}
        ValueType::Integer(_) => words.push(spot.number)?,
        ValueType::Pointer(_) => {
            words.push(spot.array)?;
            words.push(spot.number)?;
        }
    }
    Ok(())
}
