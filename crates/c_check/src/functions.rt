//! Signatures of functions, and prototypes (C99 6.7.5.3 and 6.9.1).

ghost use Rattle.std.specs.Prelude.{◌≡◌, [], List, Some, codes, map, false, IfOk, OnOk};
ghost use Rattle.pcc_base.specs.declared.fault.FaultKind.TheVariants as kinds;
ghost use Rattle.c_syntax.specs.Declarations.{declarator_of, initialiser_of, item_of, parameter_of, value_of};
ghost use Rattle.c_tree.specs.Program.{Arguments, Function as Defined};
ghost use Rattle.c_typing.specs.Checked.{Checked, Note, fails, faults_in, if_fits};
ghost use Rattle.c_typing.specs.Declarators.{typed_parameters};
ghost use Rattle.c_typing.specs.Files.{
  after_function,
  bound_function,
  function_declared,
  function_signature,
  is_library,
  library_faults,
  main_faults,
  result_allowed,
  signature_of,
  typed_prototype,
};
ghost use Rattle.c_typing.specs.Initialisers.{first_token_of, function_initialiser};
ghost use Rattle.c_typing.specs.Library.{same_name};
ghost use Rattle.c_typing.specs.Names.{entered, linked};
ghost use Rattle.c_typing.specs.Types.{DeclaredFunction, is_static};
ghost use Rattle.c_check_names.specs.Views as views;
ghost use Rattle.c_check_expressions.specs.Arguments.{AreArguments};
ghost use Rattle.c_check_expressions.specs.Said.{IsSaid};
ghost use Rattle.c_check_declarations.specs.Together.{listed};
ghost use Rattle.c_check_declarations.specs.Views.{specified_of};
ghost use Rattle.c_check.specs.OutsideAnswers.{AreNone, IsSignature};

use crate::outers::{outer, redeclared_fault};
use c_check_declarations::{Specified, also, parameters_apart, scalar_values};
use c_check_expressions::type_names::pointed;
use c_check_expressions::{Judged, Notes, expressions, first_token};
use c_check_names::{Declared, Entity, Meaning, Outer, Scopes, Signature, Storage};
use c_syntax::{Declarator, Identifier, Initialiser, InitialiserPart, Item, Parameter};
use c_tree::{Expression, ValueType};
use pcc_base::{Fault, FaultKind, NoMemory, Span};
use std::alloc::Global;

/// The signature with a result and parameters; the result is void or an integer.
fn signature_of(at: Span, of: Option<ValueType>, parameters: Vec<ValueType>) -> Judged<Signature>
    ensures { (notes : List Note) → IsSaid IsSignature (signature_of at of parameters.items) result notes notes }
{
    match of {
        None | Some(ValueType::Pointer(_)) => Judged::Fails(Fault {
            kind: FaultKind::PointerUse,
            at,
        }),
        Some(of) => Judged::Fits(Signature {
            result: of,
            parameters,
        }),
    }
}

/// Whether a storage word is `static`.
fn is_static(storage: Storage) -> bool
    ensures { result ≡ is_static (views.storage_of storage) }
{
    match storage {
        Storage::Static => true,
        Storage::Unsaid | Storage::Auto | Storage::Register | Storage::Extern => false,
    }
}

/// Whether a name is `main`.
fn is_main(name: &[u8]) -> bool
    ensures { result ≡ same_name name.now (codes "main") }
{
    name == b"main".as_slice()
}

/// The fault of a function named `main` that is static.
fn main_fault(said: Specified, name: &Identifier) -> Option<Fault>
    ensures { listed result ≡ main_faults (specified_of said) name.now }
{
    if is_main(name.name.as_bytes()) && is_static(said.storage) {
        return Some(Fault {
            kind: FaultKind::TypeRule,
            at: name.at,
        });
    }
    None
}

/// Whether a function is one of the library's.
fn is_library(entity: &Entity) -> bool
    ensures { result ≡ is_library (views.entity_of entity.now) }
{
    match entity {
        Entity::Library(_) => true,
        Entity::Shared(_) | Entity::OfFile(_, _) | Entity::At(_, _, _) => false,
    }
}

/// The fault of a function of the library that is defined.
fn library_fault(name: &Identifier, outer: &Outer) -> Option<Fault>
    ensures { listed result ≡ library_faults name.now (views.outer_of outer.now) }
{
    if is_library(&outer.entity) && outer.whole {
        return Some(Fault {
            kind: FaultKind::TypeRule,
            at: name.at,
        });
    }
    None
}

/// A copy of types.
fn copied_types(alloc: Global, types: &[ValueType]) -> Result<Vec<ValueType>, NoMemory>
    ensures { IfOk result (λ v. v.items ≡ types.now) }
{
    let copy = types.to_vec(alloc)?;
    Ok(copy)
}

/// The signature of a function that is declared, whose parameters were judged.
fn function_declared(
    alloc: Global,
    scopes: &Scopes,
    said: Specified,
    name: &Identifier,
    whole: bool,
    of: Option<ValueType>,
    parameters: Vec<ValueType>,
) -> Result<Judged<Signature>, NoMemory>
    ensures { IfOk result (λ j. (notes : List Note) → IsSaid IsSignature
        (function_declared scopes.now (specified_of said) name.now whole of parameters.items) j notes notes) }
{
    let copy = copied_types(alloc, parameters.as_slice())?;
    let outer = outer(
        alloc,
        scopes,
        said,
        name,
        whole,
        Declared::Function(of, copy),
    )?;
    let redeclared = redeclared_fault(scopes, name, &outer);
    let library = library_fault(name, &outer);
    let part = signature_of(name.at, of, parameters);
    let defined = also(library, part);
    Ok(also(redeclared, defined))
}

/// The signature that a declarator with parameters gives, but for what its specifiers and `*` forbid.
fn signature_with(
    alloc: Global,
    scopes: &mut Scopes,
    notes: &mut Notes,
    said: Specified,
    name: &Identifier,
    of: Option<ValueType>,
    whole: bool,
    parameters: &[Parameter],
) -> Result<Judged<Signature>, NoMemory>
    ensures said { let ps = map parameter_of parameters.now in IfOk result (λ j. IsSaid IsSignature
        (if_fits (typed_parameters (entered scopes.old) whole ps)
        (function_declared scopes.old (specified_of said) name.now whole of)) j notes.old notes.new) }
    ensures scope { OnOk result (scopes.new ≡ scopes.old) }
{
    match parameters_apart(alloc, scopes, notes, whole, parameters)? {
        Judged::Fails(fault) => Ok(Judged::Fails(fault)),
        Judged::Fits(types) => function_declared(alloc, scopes, said, name, whole, of, types),
    }
}

/// The fault of a result that is neither void nor an integer.
fn result_fault(at: Span, of: Option<ValueType>) -> Option<Fault>
    ensures { listed result ≡ faults_in (result_allowed at of) }
{
    match of {
        None | Some(ValueType::Pointer(_)) => Some(Fault {
            kind: FaultKind::PointerUse,
            at,
        }),
        Some(ValueType::Void | ValueType::Integer(_)) => None,
    }
}

/// The signature that a declarator with parameters gives, of a definition or not. What its specifiers and `*` forbid is a
/// fault at the declared name, whatever its parameters are.
pub fn function_signature(
    alloc: Global,
    scopes: &mut Scopes,
    notes: &mut Notes,
    said: Specified,
    declarator: &Declarator,
    whole: bool,
    parameters: &[Parameter],
) -> Result<Judged<Signature>, NoMemory>
    ensures said { IfOk result (λ j. IsSaid IsSignature (function_signature scopes.old (specified_of said)
        (declarator_of declarator.now) whole (map parameter_of parameters.now)) j notes.old notes.new) }
    ensures scope { OnOk result (scopes.new ≡ scopes.old) }
{
    let name = &declarator.name;
    let of = pointed(said.base, &declarator.pointer);
    let main = main_fault(said, name);
    let pointer = result_fault(name.at, of);
    let part = signature_with(alloc, scopes, notes, said, name, of, whole, parameters)?;
    let allowed = also(pointer, part);
    Ok(also(main, allowed))
}

/// A copy of a signature.
fn copied(alloc: Global, signature: &Signature) -> Result<Signature, NoMemory>
    ensures { IfOk result (λ g. views.signature_of g ≡ views.signature_of signature.now) }
{
    Ok(Signature {
        result: signature.result,
        parameters: signature.parameters.as_slice().to_vec(alloc)?,
    })
}

/// A function with this signature is declared, or defined. What it is is answered.
pub fn declare_function(
    alloc: Global,
    scopes: &mut Scopes,
    said: Specified,
    name: &Identifier,
    whole: bool,
    signature: &Signature,
) -> Result<Entity, NoMemory>
    ensures { let g = views.signature_of signature.now in IfOk result (λ e. (views.entity_of e
        ≡ linked scopes.old (views.storage_of said.storage) (DeclaredFunction (Some g.result) g.parameters)
        name.now.name)
        × (scopes.new ≡ bound_function (specified_of said) name.now whole (Some g) scopes.old)) }
{
    let copy = copied(alloc, signature)?;
    let declared = Declared::Function(Some(copy.result), copy.parameters);
    let outer = outer(alloc, scopes, said, name, whole, declared)?;
    let entity = outer.entity.copy(alloc)?;
    let seen = outer.entity.copy(alloc)?;
    scopes.add_outer(alloc, outer)?;
    let other = copied(alloc, signature)?;
    scopes.bind(alloc, &name.name, Meaning::Function(seen, other))?;
    Ok(entity)
}

/// The first token of an initialiser.
fn first_token_of(value: &Initialiser) -> Span
    ensures { result ≡ first_token_of (initialiser_of value.now) }
{
    match value {
        Initialiser::Single(e) => first_token(e),
        Initialiser::List { opening, .. } => *opening,
    }
}

/// The fault of values that stand in the initialiser of a function and were judged: their own, or its first token's.
fn initialised(at: Span, values: Judged<Vec<Expression>>) -> Judged<()>
    ensures { (c : Checked Arguments) (before after : List Note) → IsSaid AreArguments c values before after
        → IsSaid AreNone (if_fits c (λ es. fails {A = List Defined} kinds.TypeRule at)) result before after }
{
    match values {
        Judged::Fails(fault) => Judged::Fails(fault),
        Judged::Fits(trees) => {
            drop(trees);
            Judged::Fails(Fault {
                kind: FaultKind::TypeRule,
                at,
            })
        }
    }
}

/// A function has no initialiser (C99 6.7.8p3): each value that stands there is judged, and where all have types, its
/// first token is a fault.
fn function_initialiser(
    alloc: Global,
    scopes: &Scopes,
    notes: &mut Notes,
    value: &Option<InitialiserPart>,
) -> Result<Judged<()>, NoMemory>
    ensures { IfOk result (λ j. IsSaid AreNone (function_initialiser {A = List Defined} scopes.now (value_of value.now) [])
        j notes.old notes.new) }
{
    match value {
        None => Ok(Judged::Fits(())),
        Some(part) => {
            let values = expressions(alloc, scopes, scalar_values(&part.value), notes)?;
            Ok(initialised(first_token_of(&part.value), values))
        }
    }
}

/// A declared item that is a function. Its name is seen behind its declarator, in its initialiser already
/// (C99 6.2.1p7), which it may not have.
pub(crate) fn prototype(
    alloc: Global,
    scopes: &mut Scopes,
    notes: &mut Notes,
    said: Specified,
    item: &Item,
    parameters: &[Parameter],
) -> Result<Judged<()>, NoMemory>
    ensures said { IfOk result (λ j. IsSaid AreNone (typed_prototype (specified_of said) (item_of item.now)
        (map parameter_of parameters.now) scopes.old) j notes.old notes.new) }
    ensures scope { OnOk result (scopes.new ≡ after_function (specified_of said)
        (declarator_of item.now.declarator) false (map parameter_of parameters.now) scopes.old) }
{
    let declarator = &item.declarator;
    match function_signature(alloc, scopes, notes, said, declarator, false, parameters)? {
        Judged::Fails(fault) => Ok(Judged::Fails(fault)),
        Judged::Fits(signature) => {
            declare_function(alloc, scopes, said, &declarator.name, false, &signature)?;
            function_initialiser(alloc, scopes, notes, &item.initialiser)
        }
    }
}
