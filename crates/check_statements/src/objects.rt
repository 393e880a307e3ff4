// `new x C`: permissions for its fields, and what they are at first.
ghost use Rattle.std.specs.Prelude.{◌≡◌, ◌≤◌, ◌<◌};
ghost use Rattle.rules.specs.Limits.{most_classes, most_fields};
ghost use Rattle.rules.specs.Rules.{new_rule, add_fields, add_initial};
ghost use Rattle.tables.specs.Decode.{field_count_at, fields_from, class_at};
ghost use Rattle.check_equality.specs.Keys.{term_of};
ghost use Rattle.check_state.specs.States.{state_of};
ghost use Rattle.check_entailment.specs.Answers.{Adds};
ghost use Rattle.check_statements.specs.Statements.{initial_of};

use check_entailment::Refusal;
use check_equality::State;
use check_state::Known;
use tables::Area;

// The permissions of a new x of the class c.
fn add_fields(w: &Area, known: &mut Known, x: u8, c: usize, n: usize) -> Result<(), Refusal>
    requires { (c < most_classes) × (n ≤ most_fields) }
    ensures { Adds (add_fields x (fields_from w.now c 0 n) (state_of known.old.keys known.old.bytes)) result known.new.keys known.new.bytes }
{
    for j in 0..n {
        check_entailment::add_entry(known, State::ACC, x, tables::field_name_at(w, c, j) as u8)?;
    }
    Ok(())
}

// The key of a new field's value: 0 for an int, or else null.
fn initial(kind: usize) -> u64
    ensures { term_of result ≡ initial_of kind }
{
    if kind == 0 {
        State::NULL_KEY
    } else {
        State::FIRST_NUMBER
    }
}

// What the fields of a new x are.
fn add_initial(w: &Area, known: &mut Known, x: u8, c: usize, n: usize) -> Result<(), Refusal>
    requires { (c < most_classes) × (n ≤ most_fields) }
    ensures { Adds (add_initial x (fields_from w.now c 0 n) (state_of known.old.keys known.old.bytes)) result known.new.keys known.new.bytes }
{
    for j in 0..n {
        let path = check_equality::path_key(x, tables::field_name_at(w, c, j) as u8);
        check_entailment::add_fact(known, false, path, initial(tables::field_kind_at(w, c, j)))?;
    }
    Ok(())
}

// `new x C`
pub fn new_rule(w: &Area, known: &mut Known, x: u8, c: usize) -> Result<(), Refusal>
    requires { (c < most_classes) × (field_count_at w.now c ≤ most_fields) }
    ensures { Adds (new_rule x (class_at w.now c) (state_of known.old.keys known.old.bytes)) result known.new.keys known.new.bytes }
{
    let n = tables::field_count_at(w, c);
    check_forgetting::remove(known, x);
    add_fields(w, known, x, c, n)?;
    check_entailment::add_fact(
        known,
        true,
        check_equality::variable_key(x),
        State::NULL_KEY,
    )?;
    add_initial(w, known, x, c, n)
}
