//! The library, whose functions are known without a declaration (C99 7.19.7 and 7.20.4).

ghost use Rattle.std.specs.Prelude.{◌≡◌, ◌∷◌, [], IfOk, OnOk};
ghost use Rattle.c_typing.specs.Names.{library_binding, library_names, library_outer, library_signature};
ghost use Rattle.c_typing.specs.Library as library;
ghost use Rattle.c_typing.specs.Library.{Putchar, Getchar, Exit};
ghost use Rattle.c_typing.specs.Names as names;
ghost use Rattle.c_check_names.specs.Views.{library_of, meaning_of, outer_of};

use crate::entity::{Entity, LibraryFunction};
use crate::meaning::{Declared, Meaning, Outer, Signature};
use crate::names::Names;
use crate::outers::Outers;
use c_tree::{IntegerType, ValueType};
use pcc_base::NoMemory;
use std::alloc::Global;

const INT: ValueType = ValueType::Integer(IntegerType::Int);

/// The parameters of a function of the library.
fn parameters(alloc: Global, function: LibraryFunction) -> Result<Vec<ValueType>, NoMemory>
    ensures { IfOk result (λ v. v.items ≡ (library_signature (library_of function)).parameters) }
{
    match function {
        LibraryFunction::Putchar | LibraryFunction::Exit => Ok(vec![in alloc; INT]?),
        LibraryFunction::Getchar => Ok(Vec::new(alloc)),
    }
}

/// The result of a function of the library.
fn result_type(function: LibraryFunction) -> ValueType
    ensures { result ≡ (library_signature (library_of function)).result }
{
    match function {
        LibraryFunction::Putchar | LibraryFunction::Getchar => INT,
        LibraryFunction::Exit => ValueType::Void,
    }
}

/// A function of the library, as what its name means.
fn meaning(alloc: Global, function: LibraryFunction) -> Result<Meaning, NoMemory>
    ensures { IfOk result (λ m. meaning_of m
        ≡ names.Function (library.Library (library_of function)) (library_signature (library_of function))) }
{
    let signature = Signature {
        result: result_type(function),
        parameters: parameters(alloc, function)?,
    };
    Ok(Meaning::Function(Entity::Library(function), signature))
}

/// A function of the library, as it is declared in every file.
fn outer(alloc: Global, function: LibraryFunction) -> Result<Outer, NoMemory>
    ensures { IfOk result (λ o. outer_of o ≡ library_outer (library_of function)) }
{
    let declared = Declared::Function(Some(result_type(function)), parameters(alloc, function)?);
    Ok(Outer {
        entity: Entity::Library(function),
        declared,
        whole: false,
    })
}

/// Binds the name of a function of the library.
fn bind_function(
    alloc: Global,
    names: &mut Names,
    name: &[u8],
    function: LibraryFunction,
) -> Result<(), NoMemory>
    ensures { OnOk result (names.new ≡ library_binding name.now (library_of function) ∷ names.old) }
{
    let meaning = meaning(alloc, function)?;
    names.bind(alloc, name, 0, meaning)
}

/// Binds the names of all functions of the library, which are seen before a file.
pub(crate) fn bind_functions(alloc: Global, names: &mut Names) -> Result<(), NoMemory>
    requires { names.old ≡ [] }
    ensures { OnOk result (names.new ≡ library_names) }
{
    bind_function(alloc, names, b"exit", LibraryFunction::Exit)?;
    bind_function(alloc, names, b"getchar", LibraryFunction::Getchar)?;
    bind_function(alloc, names, b"putchar", LibraryFunction::Putchar)
}

/// Adds a function of the library to what is declared outside functions.
fn declare_function(
    alloc: Global,
    outers: &mut Outers,
    function: LibraryFunction,
) -> Result<(), NoMemory>
    ensures { OnOk result (outers.new ≡ library_outer (library_of function) ∷ outers.old) }
{
    let outer = outer(alloc, function)?;
    outers.push(alloc, outer)
}

/// Adds all functions of the library to what is declared outside functions, before the first file.
pub(crate) fn declare_functions(alloc: Global, outers: &mut Outers) -> Result<(), NoMemory>
    requires { outers.old ≡ [] }
    ensures { OnOk result (outers.new
        ≡ library_outer Putchar ∷ library_outer Getchar ∷ library_outer Exit ∷ []) }
{
    declare_function(alloc, outers, LibraryFunction::Exit)?;
    declare_function(alloc, outers, LibraryFunction::Getchar)?;
    declare_function(alloc, outers, LibraryFunction::Putchar)
}
