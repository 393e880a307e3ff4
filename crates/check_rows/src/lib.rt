// A statement's row by its kind: the rule of the statement, from the operands that stand in the tables.
#![tactic(auto)]

ghost use Rattle.std.specs.Prelude.{◌≡◌, ◌<◌};
ghost use Rattle.rules.specs.Grammar.{Let, New, Call, If, Loop, GoesOn};
ghost use Rattle.rules.specs.Syntax as Syntax;
ghost use Rattle.tables.specs.Decode.{kind_at, row_count, formula_at};
ghost use Rattle.tables.specs.Tables.{Tables};
ghost use Rattle.check_state.specs.States.{state_of};
ghost use Rattle.check_entailment.specs.Answers.{Adds};
ghost use Rattle.check_statements.specs.Statements.{Parts, end_of, JoinGives};
ghost use Rattle.check_rows.specs.Rows.{RowIs, set_at, let_at, new_at, call_at, compute_at, open_at, shut_at, RuleGives, branches, body_starts, loop_leaves, Stepped};

use check_entailment::Refusal;
use check_equality::State;
use check_state::Known;
use tables::{Area, AtomKind, RowKind};

// `set x f y`
// Not one with `open_at`: each reads the columns of its own statement, and the call of its rule is all that is left.
fn set_at(w: &Area, i: usize, known: &mut Known) -> Result<(), Refusal>
    requires { Tables w.now × (i < row_count w.now) }
    ensures { RuleGives w.now (set_at w.now i) known.old.keys known.old.bytes result known.new.keys known.new.bytes }
{
    let x = tables::x_at(w, i) as u8;
    let f = tables::member_at(w, i) as u8;
    let y = tables::y_at(w, i) as u8;
    check_statements::set_rule(known, x, f, y)
}

// `let x e`
fn let_at(w: &Area, i: usize, known: &mut Known) -> Result<(), Refusal>
    requires { Tables w.now × (i < row_count w.now) × RowIs w.now i Let }
    ensures { RuleGives w.now (let_at w.now i) known.old.keys known.old.bytes result known.new.keys known.new.bytes }
{
    let x = tables::x_at(w, i) as u8;
    let a = tables::first_atom_at(w, i);
    check_statements::assign_rule(
        known,
        x,
        check_formulas::right(w, a, State::THIS, State::PARAM, State::RESULT),
    )
}

// `new x C`
fn new_at(w: &Area, i: usize, known: &mut Known) -> Result<(), Refusal>
    requires { Tables w.now × (i < row_count w.now) × RowIs w.now i New }
    ensures { RuleGives w.now (new_at w.now i) known.old.keys known.old.bytes result known.new.keys known.new.bytes }
{
    let x = tables::x_at(w, i) as u8;
    check_statements::new_rule(w, known, x, tables::member_at(w, i))
}

// `call x y m z`
fn call_at(w: &Area, i: usize, known: &mut Known) -> Result<(), Refusal>
    requires { Tables w.now × (i < row_count w.now) × RowIs w.now i Call }
    ensures { RuleGives w.now (call_at w.now i) known.old.keys known.old.bytes result known.new.keys known.new.bytes }
{
    let x = tables::x_at(w, i) as u8;
    let y = tables::y_at(w, i) as u8;
    let z = tables::z_at(w, i) as u8;
    check_statements::call_rule(w, known, x, y, tables::member_at(w, i), z)
}

// `add x y z` and `sub x y z`: "removes x and keeps no fact of the new value"
fn compute_at(w: &Area, i: usize, known: &mut Known) -> Result<(), Refusal>
    requires { Tables w.now × (i < row_count w.now) }
    ensures { RuleGives w.now (compute_at w.now i) known.old.keys known.old.bytes result known.new.keys known.new.bytes }
{
    let x = tables::x_at(w, i) as u8;
    check_forgetting::remove(known, x);
    Ok(())
}

// `open y x f`
// Not one with `set_at`: x stands in another column, and the rule is another.
fn open_at(w: &Area, i: usize, known: &mut Known) -> Result<(), Refusal>
    requires { Tables w.now × (i < row_count w.now) }
    ensures { RuleGives w.now (open_at w.now i) known.old.keys known.old.bytes result known.new.keys known.new.bytes }
{
    let y = tables::x_at(w, i) as u8;
    let x = tables::y_at(w, i) as u8;
    let f = tables::member_at(w, i) as u8;
    check_statements::open_rule(known, y, x, f)
}

// `shut x f`
fn shut_at(w: &Area, i: usize, known: &mut Known) -> Result<(), Refusal>
    requires { Tables w.now × (i < row_count w.now) }
    ensures { RuleGives w.now (shut_at w.now i) known.old.keys known.old.bytes result known.new.keys known.new.bytes }
{
    let x = tables::x_at(w, i) as u8;
    let f = tables::member_at(w, i) as u8;
    check_statements::shut_rule(known, x, f)
}

// `assert` formula
fn assert_at(w: &Area, i: usize, known: &mut Known) -> Result<(), Refusal>
    requires { Tables w.now × (i < row_count w.now) }
    ensures { RuleGives w.now (Syntax.assert (formula_at w.now i)) known.old.keys known.old.bytes result known.new.keys known.new.bytes }
{
    let a = tables::first_atom_at(w, i);
    check_statements::assert_rule(w, known, a, tables::atom_count_at(w, i))
}

// `release` formula
fn release_at(w: &Area, i: usize, known: &mut Known) -> Result<(), Refusal>
    requires { Tables w.now × (i < row_count w.now) }
    ensures { RuleGives w.now (Syntax.release (formula_at w.now i)) known.old.keys known.old.bytes result known.new.keys known.new.bytes }
{
    let a = tables::first_atom_at(w, i);
    check_statements::release_rule(w, known, a, tables::atom_count_at(w, i))
}

// `if eq e e` or `if ne e e`, where the second state is a copy of the first
#[tactic(auto, using(crate::proofs::Operands::first_atom))]
pub fn if_at(w: &Area, i: usize, known: &mut Known, other: &mut Known) -> Result<(), Refusal>
    requires { Tables w.now × (i < row_count w.now) × RowIs w.now i If × (other.old.keys ≡ known.old.keys) × (other.old.bytes ≡ known.old.bytes) }
    ensures { Parts (branches w.now i (state_of known.old.keys known.old.bytes)) result known.new.keys known.new.bytes other.new.keys other.new.bytes }
{
    let a = tables::first_atom_at(w, i);
    let apart = tables::kind_of_atom(w, a) != AtomKind::Eq;
    let l = check_formulas::left(w, a, State::THIS, State::PARAM, State::RESULT);
    let r = check_formulas::right(w, a, State::THIS, State::PARAM, State::RESULT);
    check_statements::if_rule(known, other, apart, l, r)
}

// `join` formula, with the ends of the two parts
pub fn join_at(
    w: &Area,
    i: usize,
    returned: bool,
    known: &mut Known,
    returned2: bool,
    other: &Known,
) -> Result<(), Refusal>
    requires { Tables w.now × (i < row_count w.now) }
    ensures { JoinGives (formula_at w.now i) returned known.old.keys known.old.bytes returned2 other.now.keys other.now.bytes result known.new.keys known.new.bytes }
{
    let a = tables::first_atom_at(w, i);
    check_statements::join_rule(
        w,
        a,
        tables::atom_count_at(w, i),
        returned,
        known,
        returned2,
        other,
    )
}

// `loop` at row i: the state shows the invariant, and its body starts from that and the condition alone.
#[tactic(auto, using(crate::proofs::Operands::loop_atoms))]
pub fn loop_at(w: &Area, i: usize, known: &mut Known) -> Result<(), Refusal>
    requires { Tables w.now × (i < row_count w.now) × RowIs w.now i Loop }
    ensures { Adds (body_starts w.now i (state_of known.old.keys known.old.bytes)) result known.new.keys known.new.bytes }
{
    let a = tables::first_atom_at(w, i);
    let n = tables::atom_count_at(w, i);
    let apart = tables::kind_of_atom(w, a - 1) != AtomKind::Eq;
    check_statements::loop_rule(w, a, n, false, apart, known)
}

// `again` of the `loop` at row i: the end of its body shows the invariant, and that and the opposite is left.
// Not one with loop_at: the end that shows the invariant and the relation both differ, and the two calls are all there is.
pub fn again_at(w: &Area, i: usize, returned: bool, known: &mut Known) -> Result<(), Refusal>
    requires { Tables w.now × (i < row_count w.now) × RowIs w.now i Loop }
    ensures { Adds (loop_leaves w.now i (end_of returned (state_of known.old.keys known.old.bytes))) result known.new.keys known.new.bytes }
{
    let a = tables::first_atom_at(w, i);
    let n = tables::atom_count_at(w, i);
    let apart = tables::kind_of_atom(w, a - 1) == AtomKind::Eq;
    check_statements::loop_rule(w, a, n, returned, apart, known)
}

// A statement that goes on to the next line, by its kind.
// A match and no closure: it goes by the kind to functions with contracts of their own, each on the rows of its kind. On the kind's number, with ranges
// for unknown kinds, as document 01 asks.
#[tactic(auto, unfolding(rules::specs::Grammar::statement_number))]
pub fn statement(w: &Area, i: usize, known: &mut Known) -> Result<(), Refusal>
    requires { Tables w.now × (i < row_count w.now) × GoesOn (kind_at w.now i) }
    ensures { Stepped w.now i (state_of known.old.keys known.old.bytes) result known.new.keys known.new.bytes }
{
    match tables::kind_at(w, i) {
        RowKind::SET => set_at(w, i, known),
        RowKind::LET => let_at(w, i, known),
        RowKind::NEW => new_at(w, i, known),
        RowKind::CALL => call_at(w, i, known),
        RowKind::ASSERT => assert_at(w, i, known),
        RowKind::RELEASE => release_at(w, i, known),
        RowKind::ADD | RowKind::SUB => compute_at(w, i, known),
        RowKind::OPEN => open_at(w, i, known),
        RowKind::SHUT => shut_at(w, i, known),
        // The other statements do not go on, and no row is of an unknown kind: any result meets the contract.
        0..=RowKind::DECLARATION
        | RowKind::RETURN
        | RowKind::IF..=RowKind::END
        | RowKind::LOOP..=RowKind::AGAIN
        | RowKind::UNKNOWN..=u8::MAX => Err(Refusal::Malformed),
    }
}
