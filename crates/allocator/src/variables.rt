//! Variables in ascending order.

ghost use Rattle.std.specs.Prelude.{◌≡◌, IfOk, OnOk};
ghost use Rattle.flow_liveness.specs.Names as names;
ghost use Rattle.allocator.specs.PointBoards as boards;
ghost use Rattle.flow_graph.specs.Graphs.{has_point};
ghost use Rattle.flow_graph.specs.Lives.{IsAscending};

use pcc_base::NoMemory;
use std::alloc::Global;

/// Whether a variable is among these, by binary search.
pub fn is_listed(vars: &[u32], var: u32) -> bool
    requires { IsAscending vars.now }
    ensures { result ≡ has_point var vars.now }
{
    vars.binary_search(&var).is_ok()
}

/// Whether it is this variable.
pub fn is_named(name: Option<u32>, var: u32) -> bool
    ensures { result ≡ names.is_named name var }
{
    match name {
        Some(named) => named == var,
        None => false,
    }
}

/// Puts a variable in its place in ascending order, if it isn't there.
fn put_one(vars: &mut Vec<u32>, var: u32) -> Result<(), NoMemory>
    requires { IsAscending vars.old.items }
    ensures { OnOk result (vars.new.items ≡ boards.with_one var vars.old.items) }
{
    if let Err(place) = vars.binary_search(&var) {
        vars.insert(place, var)?;
    }
    Ok(())
}

/// The variables with the one that is defined, in ascending order.
pub fn with_result(alloc: Global, defined: Option<u32>, vars: &[u32]) -> Result<Vec<u32>, NoMemory>
    requires { IsAscending vars.now }
    ensures { IfOk result (λ all. all.items ≡ boards.with_result defined vars.now) }
{
    let mut all = vars.to_vec(alloc)?;
    match defined {
        Some(var) => {
            put_one(&mut all, var)?;
            Ok(all)
        }
        None => Ok(all),
    }
}
