//! Arguments that store nothing.

ghost use Rattle.std.specs.Prelude.{◌≡◌, slice_get};
ghost use Rattle.c_tree.specs.Erased.{expression_of};
ghost use Rattle.lower_lines.specs.Expressions.{all_simple, parameters_of, part_of};
ghost use Rattle.lower_builder.specs.Sites.{context_of};
ghost use Rattle.lower_expressions.specs.Rows.{passed_as};
ghost use Rattle.lower_expressions.specs.Passing.{passed_from};

use crate::calls::parameter_type;
use crate::kinds::{is_simple, part_type};
use c_tree::{Expression, ValueType};
use lower_builder::Site;

/// Whether an argument, as its parameter takes it, is a name, a number or a string.
fn passed_simple(site: &Site<'_>, parameter: Option<ValueType>, e: &Expression) -> bool
    ensures { result ≡ (passed_as (context_of site.now) parameter
        (part_of (context_of site.now) (expression_of e.now))).simple }
{
    match parameter {
        None => is_simple(e),
        Some(ValueType::Void) => is_simple(e),
        Some(ValueType::Integer(_)) => is_simple(e),
        Some(ValueType::Pointer(_)) => match part_type(e) {
            ValueType::Pointer(_) => is_simple(e),
            ValueType::Void => false,
            ValueType::Integer(_) => false,
        },
    }
}

/// Whether all arguments from a place on are names, numbers or strings.
pub(crate) fn all_simple(site: &Site<'_>, f: u32, place: usize, arguments: &[Expression]) -> bool
    ensures { result ≡ all_simple (passed_from (context_of site.now)
        (parameters_of (slice_get (context_of site.now).program.functions f)) arguments.now place) }
{
    for index in place..arguments.len() {
        let here = passed_simple(site, parameter_type(site, f, index), &arguments[index]);
        if !here {
            return false;
        }
    }
    true
}
