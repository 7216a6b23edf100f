//! Labels of a switch (C99 6.8.4.2p3).

ghost use Rattle.std.specs.Prelude.{◌≡◌, ℕ, ℤ, [], ◌∷◌, ◌++◌, List, Option, map, not, IfOk};
ghost use Rattle.std.specs.List.{list_any};
ghost use Rattle.c_syntax.specs.Statements.{label_of, stmt_of, stmts_of};
ghost use Rattle.c_tree.specs.Program.{Expression as Typed};
ghost use Rattle.c_tree.specs.declared.statement.Label.{Label as TypedLabel};
ghost use Rattle.c_typing.specs.Checked.{Checked, Note, if_fits};
ghost use Rattle.c_typing.specs.Constants.{constant_value};
ghost use Rattle.c_typing.specs.Names.{Scope};
ghost use Rattle.c_typing.specs.Statements.{
  GivenLabel,
  case_value,
  given_label,
  given_labels,
  labels_before,
  same_label,
  typed_labels,
};
ghost use Rattle.c_check_expressions.specs.Judged.{IsOperandOf};
ghost use Rattle.c_check_expressions.specs.Said.{IsSaid};
ghost use Rattle.c_check_declarations.specs.DeclaratorAnswers.{IsSame};
ghost use Rattle.c_check_statements.specs.Labels.{AreLabels, AreSeen, AreSoFar};

use crate::label::{label_fault, one_label};
use c_check_declarations::behind;
use c_check_expressions::{Judged, Notes, Operand, expression};
use c_check_names::Scopes;
use c_syntax::{Label as RawLabel, Statement as RawStatement};
use c_tree::Label;
use indexmap::IndexSet;
use pcc_base::{NoMemory, Span};
use std::alloc::Global;

/// The labels so far, and the values of those that have one, each once.
#[derive(Drop)]
pub(crate) struct SoFar {
    values: IndexSet<Option<i32>>,
    labels: Judged<Vec<Label>>,
}

/// The value of a constant expression that is a label.
fn value_of(at: Span, value: Option<i32>) -> Judged<Option<i32>>
    ensures { (notes : List Note) → IsSaid IsSame (case_value at value) result notes notes }
{
    match value {
        Some(n) => Judged::Fits(Some(n)),
        None => Judged::Fails(label_fault(at)),
    }
}

/// The value of a `case` whose expression was judged.
fn case_value(at: Span, part: Judged<Operand>) -> Judged<Option<i32>>
    ensures { (c : Checked Typed) (before after : List Note) → IsSaid IsOperandOf c part before after
        → IsSaid IsSame (if_fits c (λ x. case_value at (constant_value x))) result before after }
{
    match part {
        Judged::Fails(fault) => Judged::Fails(fault),
        Judged::Fits(operand) => {
            let value = operand.constant.value();
            drop(operand);
            value_of(at, value)
        }
    }
}

/// The value of a label, of which `default` has none.
fn label_value(
    alloc: Global,
    scopes: &Scopes,
    notes: &mut Notes,
    label: &RawLabel,
) -> Result<Judged<Option<i32>>, NoMemory>
    ensures { IfOk result (λ j. (before : ℕ)
        → IsSaid IsSame (given_label scopes.now before (label_of label.now)).value j notes.old notes.new) }
{
    match label {
        RawLabel::Case(at, e, _) => {
            let part = expression(alloc, scopes, e, notes)?;
            Ok(case_value(*at, part))
        }
        RawLabel::Default(_, _) => Ok(Judged::Fits(None)),
    }
}

/// The word of a label.
fn label_at(label: &RawLabel) -> Span
    ensures { (s : Scope) (before : ℕ) → result ≡ (given_label s before (label_of label.now)).at }
{
    match label {
        RawLabel::Case(at, _, _) | RawLabel::Default(at, _) => *at,
    }
}

impl SoFar {
    fn new(alloc: Global) -> SoFar
        ensures { (gs : List GivenLabel) (notes : List Note) → AreSoFar (typed_labels [] gs) gs result notes notes }
    {
        SoFar {
            values: IndexSet::new(alloc),
            labels: Judged::Fits(Vec::new(alloc)),
        }
    }

    /// A value is kept. Whether it is new is answered.
    fn keep(&mut self, value: Option<i32>) -> Result<bool, NoMemory>
        ensures kept { IfOk result (λ is_new. (earlier : List (Option ℤ)) → AreSeen earlier self.old.values.keys
            → (is_new ≡ not (list_any (same_label value) earlier))
            × AreSeen (value ∷ earlier) self.new.values.keys) }
        ensures labels { self.new.labels ≡ self.old.labels }
    {
        Ok(self.values.insert(value)?)
    }

    /// One more label, whose value was judged.
    fn add(mut self, at: Span, before: u32, value: Judged<Option<i32>>) -> Result<SoFar, NoMemory>
        ensures { IfOk result (λ r. (whole : Checked (List TypedLabel)) (g : GivenLabel) (left : List GivenLabel)
            (start between after : List Note) → at ≡ g.at → before ≡ g.before
            → IsSaid IsSame g.value value between after
            → AreSoFar whole (g ∷ left) self start between → AreSoFar whole left r start after) }
    {
        match value {
            Judged::Fails(fault) => {
                let labels = behind(self.labels, Judged::Fails(fault))?;
                Ok(SoFar {
                    values: self.values,
                    labels,
                })
            }
            Judged::Fits(value) => {
                let is_new = self.keep(value)?;
                let labels = behind(self.labels, one_label(is_new, at, before, value))?;
                Ok(SoFar {
                    values: self.values,
                    labels,
                })
            }
        }
    }
}

/// The labels of one statement, behind others.
fn statement_labels(
    alloc: Global,
    scopes: &Scopes,
    notes: &mut Notes,
    so_far: SoFar,
    before: u32,
    list: &[RawLabel],
) -> Result<SoFar, NoMemory>
    ensures { IfOk result (λ r. (whole : Checked (List TypedLabel)) (left : List GivenLabel) (start : List Note)
        → AreSoFar whole (map (given_label scopes.now before) (map label_of list.now) ++ left) so_far start notes.old
        → AreSoFar whole left r start notes.new) }
{
    let mut so_far = so_far;
    'labels: for label in list {
        let value = label_value(alloc, scopes, notes, label)?;
        so_far = so_far.add(label_at(label), before, value)?;
    }
    Ok(so_far)
}

/// The labels before a statement.
fn labels_before(st: &RawStatement) -> &[RawLabel]
    ensures { map label_of result.now ≡ labels_before (stmt_of st.now) }
{
    match st {
        RawStatement::Labelled(labels, _) => labels.as_slice(),
        _ => &[],
    }
}

/// A number of statements.
fn number(n: usize) -> Result<u32, NoMemory>
    ensures { IfOk result (λ m. m ≡ n) }
{
    match u32::try_from(n) {
        Ok(n) => Ok(n),
        // No caller meets this: each statement has a token of its own, and a text has at most 65,536.
        Err(_) => Err(NoMemory),
    }
}

/// The labels of a switch, of which no two have the same value, and one at most is `default`.
pub(crate) fn switch_labels(
    alloc: Global,
    scopes: &Scopes,
    notes: &mut Notes,
    items: &[RawStatement],
) -> Result<Judged<Vec<Label>>, NoMemory>
    ensures { IfOk result (λ j. IsSaid AreLabels
        (typed_labels [] (given_labels scopes.now 0 (stmts_of (map stmt_of items.now)))) j notes.old notes.new) }
{
    let mut so_far = SoFar::new(alloc);
    'statements: for (index, st) in items.iter().enumerate() {
        let before = number(index)?;
        so_far = statement_labels(alloc, scopes, notes, so_far, before, labels_before(st))?;
    }
    Ok(so_far.labels)
}
