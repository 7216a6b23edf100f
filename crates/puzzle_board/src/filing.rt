//! Numbers filed by class on index lists, a list for each class (`specs/Classes.antt`).

ghost use Rattle.std.specs.Prelude.{ℕ, ◌≡◌, ◌<◌, ◌≤◌, ◌+◌, List, length, Option, Some, None};
ghost use Rattle.index_lists.specs.Lists.{IsListed};
ghost use Rattle.puzzle_board.specs.Classes.{IsFiled, IsRefiled};

use index_lists::IndexLists;
use pcc_base::Steps;
use std::sync::ledger::Ledger;

/// Files a number under a class.
pub(crate) fn file<L: Ledger>(lists: &mut IndexLists, class: u32, number: u32, steps: &mut Steps<L>)
    requires class { class < length lists.old.lists }
    requires number { number < lists.old.nodes }
    requires in_none { ¬ IsListed lists.old number }
    ensures filed { (many : ℕ) (old new : List (Option ℕ)) → IsFiled lists.old many old
        → IsRefiled old new number (Some class) → length new ≤ lists.old.nodes → IsFiled lists.new many new }
    ensures nodes { lists.new.nodes ≡ lists.old.nodes }
    ensures steps { steps.new ≡ steps.old + 1 }
{
    lists.push_back(class, number, steps);
}

/// Takes a number out of its class.
pub(crate) fn unfile<L: Ledger>(lists: &mut IndexLists, number: u32, steps: &mut Steps<L>)
    requires { IsListed lists.old number }
    ensures filed { (many : ℕ) (old new : List (Option ℕ)) → IsFiled lists.old many old
        → IsRefiled old new number None → length new ≤ lists.old.nodes → IsFiled lists.new many new }
    ensures nodes { lists.new.nodes ≡ lists.old.nodes }
    ensures steps { steps.new ≡ steps.old + 1 }
{
    lists.is_lists();
    lists.unlink(number, steps);
}
