//! Declared items outside functions (C99 6.7 and 6.9).

ghost use Rattle.std.specs.Prelude.{◌≡◌, map, IfOk, OnOk};
ghost use Rattle.c_syntax.specs.Declarations.{declaration_of, item_of};
ghost use Rattle.c_syntax.specs.Statements.{DeclaredTree};
ghost use Rattle.c_typing.specs.Files.{
  after_external,
  after_outer_item,
  after_outer_items,
  typed_external,
  typed_outer_item,
  typed_outer_items,
};
ghost use Rattle.c_check_expressions.specs.Judged.{joined_answers};
ghost use Rattle.c_check_expressions.specs.Said.{IsSaid};
ghost use Rattle.c_check_declarations.specs.Views.{specified_of};
ghost use Rattle.c_check.specs.OutsideAnswers.{AreNone, first_answered};

use crate::functions::prototype;
use crate::outside_objects::object;
use c_check_declarations::{Position, Specified, specifiers_at};
use c_check_expressions::{Judged, Notes, both};
use c_check_names::Scopes;
use c_syntax::{Declaration, DeclaratorPart, Item};
use pcc_base::NoMemory;
use std::alloc::Global;

/// A declared item: an object or a prototype.
fn outer_item(
    alloc: Global,
    scopes: &mut Scopes,
    notes: &mut Notes,
    said: Specified,
    item: &Item,
) -> Result<Judged<()>, NoMemory>
    ensures said { let i = item_of item.now in IfOk result (λ j. IsSaid AreNone
        (typed_outer_item (specified_of said) i i.declarator.part scopes.old) j notes.old notes.new) }
    ensures scope { let i = item_of item.now in OnOk result (scopes.new
        ≡ after_outer_item (specified_of said) i i.declarator.part scopes.old) }
{
    match &item.declarator.part {
        DeclaratorPart::Plain | DeclaratorPart::Array(_) => {
            object(alloc, scopes, notes, said, item)
        }
        DeclaratorPart::Function(part) => {
            let parameters = part.parameters.as_slice();
            prototype(alloc, scopes, notes, said, item, parameters)
        }
    }
}

/// That both parts fit, or the least of the faults.
fn joined(so_far: Judged<()>, part: Judged<()>) -> Judged<()>
    ensures { result ≡ first_answered (joined_answers so_far part) }
{
    match both(so_far, part) {
        Judged::Fails(fault) => Judged::Fails(fault),
        Judged::Fits((first, _)) => Judged::Fits(first),
    }
}

/// The items of a list, one behind the other.
fn outer_items(
    alloc: Global,
    scopes: &mut Scopes,
    notes: &mut Notes,
    said: Specified,
    list: &[Item],
) -> Result<Judged<()>, NoMemory>
    ensures said { IfOk result (λ j. IsSaid AreNone
        (typed_outer_items (specified_of said) (map item_of list.now) scopes.old) j notes.old notes.new) }
    ensures scope { OnOk result (scopes.new
        ≡ after_outer_items (specified_of said) (map item_of list.now) scopes.old) }
{
    let mut so_far = Judged::Fits(());
    for one in list {
        let part = outer_item(alloc, scopes, notes, said, one)?;
        so_far = joined(so_far, part);
    }
    Ok(so_far)
}

/// A declaration outside functions, which defines none. What it declares is seen behind it.
pub(crate) fn outside_declaration(
    alloc: Global,
    scopes: &mut Scopes,
    notes: &mut Notes,
    declaration: &Declaration,
) -> Result<Judged<()>, NoMemory>
    ensures said { IfOk result (λ j. IsSaid AreNone
        (typed_external (DeclaredTree (declaration_of declaration.now)) scopes.old) j notes.old notes.new) }
    ensures scope { OnOk result (scopes.new
        ≡ after_external (DeclaredTree (declaration_of declaration.now)) scopes.old) }
{
    match specifiers_at(Position::Outside, declaration.specifiers.as_slice()) {
        Judged::Fails(fault) => Ok(Judged::Fails(fault)),
        Judged::Fits(said) => outer_items(alloc, scopes, notes, said, declaration.items.as_slice()),
    }
}
