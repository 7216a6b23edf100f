//! Laws of elementary forms: each function's contract is one, and the function does nothing.

ghost use Rattle.std.specs.Prelude.{◌≡◌, ◌∷◌, [], None, Some};
ghost use Rattle.pcc_base.specs.Outcome.{nothing_listed};
ghost use Rattle.flow_liveness.specs.FormLaws.{BeforeIsNotAfter, FirstFits, FormKeepsOutcome, OneAfter, OneBefore};
ghost use Rattle.flow_liveness.specs.FormLaws.{StepFits};
ghost use Rattle.flow_liveness.specs.FormRuns.{FormOutcome};
ghost use Rattle.flow_liveness.specs.Names.{Names, copied, edge_copy, name_after, name_before};
ghost use Rattle.flow_liveness.specs.Worked.{calling_outcome, calling_program, changed_over, sum_graph, sum_lives};

/// The form keeps the meaning of its graphs. Its first state fits theirs; from a state that fits a step leads to one
/// that fits their next state, or to their end; and so it has their outcomes. A state fits where the names before its
/// point have the values of their variables, and so have the names after the point of each waiting call, other than
/// that of its result.
pub fn form_keeps_meaning()
    ensures first { FirstFits }
    ensures steps { StepFits }
    ensures outcome { FormKeepsOutcome }
{}

/// A name stands for one variable at one point, before it or after it.
pub fn names_are_fresh()
    ensures before { OneBefore }
    ensures after { OneAfter }
    ensures apart { BeforeIsNotAfter }
{}

/// The definitions say of small graphs (`specs/Worked.antt`) what a reader expects: the names of variables, the copy on
/// an edge, all of whose moves are made at once, and the outcome where a variable is live over a call.
pub fn worked_example()
    ensures before { name_before sum_graph sum_lives 2 1 ≡ Some 17179869186 }
    ensures defined { name_after sum_graph sum_lives 2 2 ≡ Some 17179869189 }
    ensures dead { name_after sum_graph sum_lives 2 1 ≡ None }
    ensures copy { edge_copy sum_graph sum_lives 1 2
        ≡ record { to = 17179869184; from = 8589934593 } ∷ record { to = 17179869186; from = 8589934595 } ∷ [] }
    ensures at_once { (names : Names)
        → (copied changed_over names 0 ≡ names 1) × (copied changed_over names 1 ≡ names 0) }
    ensures outcome { FormOutcome calling_program nothing_listed [] 0 calling_outcome }
{}
