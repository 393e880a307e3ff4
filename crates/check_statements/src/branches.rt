// The states at `if` and `join`, at `loop` and `again`.
ghost use Rattle.std.specs.Prelude.{◌≡◌, ◌+◌, ◌≤◌};
ghost use Rattle.rules.specs.Rules.{if_rule};
ghost use Rattle.tables.specs.Layout.{most_atom_rows};
ghost use Rattle.tables.specs.Decode.{atoms_from};
ghost use Rattle.check_equality.specs.Keys.{meaning};
ghost use Rattle.check_equality.specs.Links.{rel_of};
ghost use Rattle.check_state.specs.States.{state_of};
ghost use Rattle.check_entailment.specs.Answers.{Adds};
ghost use Rattle.check_statements.specs.Statements.{Parts, end_of, JoinGives, loop_known};

use check_entailment::Refusal;
use check_equality::{State, Term};
use check_state::Known;
use tables::Area;

// `if eq l r`, or where `apart` `if ne l r`: the condition in the first state, its opposite in the second, which is a copy of the first.
pub fn if_rule(
    known: &mut Known,
    other: &mut Known,
    apart: bool,
    l: Term,
    r: Term,
) -> Result<(), Refusal>
    requires { (other.old.keys ≡ known.old.keys) × (other.old.bytes ≡ known.old.bytes) }
    ensures { Parts (if_rule (rel_of apart) (meaning l) (meaning r) (state_of known.old.keys known.old.bytes)) result known.new.keys known.new.bytes other.new.keys other.new.bytes }
{
    check_entailment::add_relation(known, apart, l, r)?;
    check_entailment::add_relation(other, !apart, l, r)
}

// `join`: the first end, then the second, shows the formula, which is all that is known then.
pub fn join_rule(
    w: &Area,
    a: usize,
    n: usize,
    returned: bool,
    known: &mut Known,
    returned2: bool,
    other: &Known,
) -> Result<(), Refusal>
    requires { a + n ≤ most_atom_rows }
    ensures { JoinGives (atoms_from w.now a n) returned known.old.keys known.old.bytes returned2 other.now.keys other.now.bytes result known.new.keys known.new.bytes }
{
    crate::show_end(w, a, n, returned, known)?;
    crate::show_end(w, a, n, returned2, other)?;
    check_forgetting::forget_all(known);
    check_formulas::add(w, a, n, State::THIS, State::PARAM, State::RESULT, known)
}

// `loop` and `again`, of a loop whose invariant has n atoms from the atom a on: the end before it shows the invariant; that and `eq` of
// the condition's sides, or where `apart` `ne`, is all that is known then. The condition is the atom before the invariant.
pub fn loop_rule(
    w: &Area,
    a: usize,
    n: usize,
    returned: bool,
    apart: bool,
    known: &mut Known,
) -> Result<(), Refusal>
    requires { (1 ≤ a) × (a + n ≤ most_atom_rows) }
    ensures { Adds (loop_known w.now a n (rel_of apart) (end_of returned (state_of known.old.keys known.old.bytes))) result known.new.keys known.new.bytes }
{
    crate::show_end(w, a, n, returned, known)?; // The invariant is shown here.
    check_forgetting::forget_all(known);
    check_formulas::add(w, a, n, State::THIS, State::PARAM, State::RESULT, known)?;
    let condition = a - 1;
    let l = check_formulas::left(w, condition, State::THIS, State::PARAM, State::RESULT);
    let r = check_formulas::right(w, condition, State::THIS, State::PARAM, State::RESULT);
    check_entailment::add_relation(known, apart, l, r)
}
