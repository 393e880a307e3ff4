// `open` and `shut`: a chain for its first path and the chain after it, and back.
ghost use Rattle.rules.specs.Rules.{open_rule, shut_rule};
ghost use Rattle.check_equality.specs.Keys.{term_of};
ghost use Rattle.check_state.specs.States.{state_of};
ghost use Rattle.check_entailment.specs.Answers.{Adds};
ghost use Rattle.check_statements.specs.Statements.{add_opened, open_shown, shut_path};

use check_entailment::Refusal;
use check_equality::{State, Term};
use check_state::Known;

// `x.f` listed, `x.f` = y, and the chain of y.
fn add_opened(known: &mut Known, y: u8, x: u8, f: u8) -> Result<(), Refusal>
    ensures { Adds (add_opened y x f (state_of known.old.keys known.old.bytes)) result known.new.keys known.new.bytes }
{
    check_entailment::add_entry(known, State::ACC, x, f)?;
    let path = check_equality::path_key(x, f);
    let value = check_equality::variable_key(y);
    check_entailment::add_fact(known, false, path, value)?;
    check_entailment::add_entry(known, State::CHAIN, y, f)
}

// `open y x f`, where x ≠ null is shown.
#[tactic(auto, using(check_state::proofs::Whole::whole))]
fn open_shown(known: &mut Known, y: u8, x: u8, f: u8) -> Result<(), Refusal>
    ensures { Adds (open_shown y x f (state_of known.old.keys known.old.bytes)) result known.new.keys known.new.bytes }
{
    let mut left = check_state::kinds(&known.bytes);
    let v = check_equality::variable_key(x);
    check_entailment::take(known, &mut left, State::CHAIN, v, f)?;
    check_forgetting::remainder(known, &left);
    check_forgetting::remove(known, y);
    add_opened(known, y, x, f)
}

// `open y x f`
pub fn open_rule(known: &mut Known, y: u8, x: u8, f: u8) -> Result<(), Refusal>
    ensures { Adds (open_rule y x f (state_of known.old.keys known.old.bytes)) result known.new.keys known.new.bytes }
{
    crate::object(known, x)?;
    open_shown(known, y, x, f)
}

// `shut x f`, where `x.f` resolves to the term of p.
#[tactic(auto, using(check_state::proofs::Whole::whole))]
fn shut_path(known: &mut Known, x: u8, f: u8, p: u64) -> Result<(), Refusal>
    ensures { Adds (shut_path x f (term_of p) (state_of known.old.keys known.old.bytes)) result known.new.keys known.new.bytes }
{
    let mut left = check_state::kinds(&known.bytes);
    check_entailment::take(known, &mut left, State::CHAIN, p, f)?;
    let v = check_equality::variable_key(x);
    check_entailment::take(known, &mut left, State::ACC, v, f)?;
    check_forgetting::remainder(known, &left);
    check_entailment::add_entry(known, State::CHAIN, x, f)
}

// `shut x f`
pub fn shut_rule(known: &mut Known, x: u8, f: u8) -> Result<(), Refusal>
    ensures { Adds (shut_rule x f (state_of known.old.keys known.old.bytes)) result known.new.keys known.new.bytes }
{
    let p = check_state::resolve(known, Term::Path(x, f)).ok_or(Refusal::NoPermission)?;
    shut_path(known, x, f, p)
}
