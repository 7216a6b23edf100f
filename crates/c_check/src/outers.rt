//! What declarations outside functions declare, and against which others they go (C99 6.2.2 and 6.9).

ghost use Rattle.std.specs.Prelude.{◌≡◌, IfOk};
ghost use Rattle.c_typing.specs.Files.{outer_of, redeclared_faults};
ghost use Rattle.c_check_names.specs.Views as views;
ghost use Rattle.c_check_declarations.specs.Together.{listed};
ghost use Rattle.c_check_declarations.specs.Views.{specified_of};

use c_check_declarations::Specified;
use c_check_names::{Declared, Outer, Scopes};
use c_syntax::Identifier;
use pcc_base::{Fault, FaultKind, NoMemory};
use std::alloc::Global;

/// The declaration of a name with a type.
pub(crate) fn outer(
    alloc: Global,
    scopes: &Scopes,
    said: Specified,
    name: &Identifier,
    whole: bool,
    declared: Declared,
) -> Result<Outer, NoMemory>
    ensures { IfOk result (λ o. views.outer_of o
        ≡ outer_of scopes.now (specified_of said) name.now whole (views.declared_of declared)) }
{
    let entity = scopes.linked(alloc, said.storage, &declared, &name.name)?;
    Ok(Outer {
        entity,
        declared,
        whole,
    })
}

/// The fault of a declaration that goes against an earlier one (C99 6.2.2p7, 6.2.7p2 and 6.9p5).
pub(crate) fn redeclared_fault(scopes: &Scopes, name: &Identifier, outer: &Outer) -> Option<Fault>
    ensures { listed result ≡ redeclared_faults scopes.now name.now (views.outer_of outer.now) }
{
    if scopes.is_redeclared(&name.name, outer) {
        return Some(Fault {
            kind: FaultKind::Redeclared,
            at: name.at,
        });
    }
    None
}
