//! The names of the functions that files define: the raw trees of files and a function's number in, its name out.
//!
//! Functions are numbered in the order of their definitions, over all files, as those of a typed program are
//! (`functions_are_named` of `c_check_laws`). Nothing is refused.

ghost use Rattle.std.specs.Prelude.{◌≡◌, ◌++◌, ℕ, List, filter_map, map, option_map, slice_get, IfNone, IfSome};
ghost use Rattle.c_syntax.specs.Statements.{external_of, unit_of};
ghost use Rattle.c_check_laws.specs.Names.{defined_name, defined_names};

use c_syntax::{External, RawUnit};

/// The name of the function that an external declaration defines, where it is a function's definition (C99 6.9.1).
fn defined_name(external: &External) -> Option<&[u8]>
    ensures { option_map (λ n. n.now) result ≡ defined_name (external_of external.now) }
{
    match external {
        External::Function { declarator, .. } => Some(declarator.name.name.as_bytes()),
        External::Declaration(_) => None,
    }
}

/// The name of the definition behind so many others, where a file has one. The definitions that are passed over are
/// taken from the number.
fn name_in<'a>(externals: &'a [External], left: &mut usize) -> Option<&'a [u8]>
    ensures found { IfSome result (λ name. (others : List (List ℕ))
        → slice_get (filter_map defined_name (map external_of externals.now) ++ others) left.old ≡ Some name.now) }
    ensures none { IfNone result ((others : List (List ℕ))
        → slice_get (filter_map defined_name (map external_of externals.now) ++ others) left.old
        ≡ slice_get others left.new) }
{
    for external in externals {
        if let Some(name) = defined_name(external) {
            if *left == 0 {
                return Some(name);
            }
            *left -= 1;
        }
    }
    None
}

/// The name of the function of this number, where files define so many.
pub fn name_of(files: &[RawUnit], number: usize) -> Option<&[u8]>
    ensures { option_map (λ n. n.now) result ≡ slice_get (defined_names (map unit_of files.now)) number }
{
    let mut left = number;
    for file in files {
        if let Some(name) = name_in(file.externals.as_slice(), &mut left) {
            return Some(name);
        }
    }
    None
}
