// Atoms shown and added (11 to 14).
#![tactic(auto)]

ghost use Rattle.std.specs.Prelude.{◌≡◌, List, not, ◌&&◌, ℕ, ◌≤◌};
ghost use Rattle.std.proofs.Math.Option.{none};
ghost use Rattle.rules.specs.Limits.{most_permissions};
ghost use Rattle.rules.specs.Syntax as Syntax;
ghost use Rattle.rules.specs.State as Rules;
ghost use Rattle.rules.specs.State.{equal_in};
ghost use Rattle.check_equality.specs.Keys.{term_of, meaning};
ghost use Rattle.check_equality.specs.Links.{rel_of};
ghost use Rattle.check_state.specs.States.{Wf, state_of, entries, permit_of, IsKind};
ghost use Rattle.check_entries.specs.Entries.{LeftFits};
ghost use Rattle.check_entailment.specs.Answers.{Adds, answered, most_serving, Takes, ShowsAtom, sides_of, resolved_sides, ShowsRelation, AddsAtom};

use check_equality::{State, Term};
use check_state::Known;
use rules::Machine;

// Why an atom is not shown or not added.
#[derive(Clone, Copy)]
pub enum Refusal {
    Unresolved,
    NoPermission,
    NotShown,
    Full,
    Malformed,
}

// One more entry, of the kind k: a number, since it is a byte of the state, which is fixed memory.
pub fn add_permission(b: &mut [u8; State::BYTES], k: u8, x: u8, f: u8) -> Result<(), Refusal>
    requires { (entries b.old ≤ most_permissions) × IsKind k }
    ensures { (key : List ℕ) → Wf key b.old → Adds (Rules.add_permission (Rules.entry (permit_of k) x f) (state_of key b.old)) result key b.new }
{
    let n = b[State::ENTRIES] as usize;
    if Machine::PERMISSIONS <= n {
        return Err(Refusal::Full);
    }
    b[State::VARIABLES + n] = x;
    b[State::FIELDS + n] = f;
    b[State::KINDS + n] = k;
    b[State::ENTRIES] = (n + 1) as u8;
    Ok(())
}

// The same of what is known.
#[tactic(auto, using(check_state::proofs::Whole::whole))]
pub fn add_entry(known: &mut Known, k: u8, x: u8, f: u8) -> Result<(), Refusal>
    requires { IsKind k }
    ensures { Adds (Rules.add_permission (Rules.entry (permit_of k) x f) (state_of known.old.keys known.old.bytes)) result known.new.keys known.new.bytes × (known.new.keys ≡ known.old.keys) }
{
    add_permission(&mut known.bytes, k, x, f)
}

// `read x f`: the first `read` of an equal path is an `acc` then, or else there is one more entry.
fn add_read(known: &mut Known, x: u8, f: u8) -> Result<(), Refusal>
    ensures { Adds (Rules.add_own Syntax.read x f (state_of known.old.keys known.old.bytes)) result known.new.keys known.new.bytes × (known.new.keys ≡ known.old.keys) }
{
    let n = known.bytes[State::ENTRIES] as usize;
    let k = check_equality::variable_key(x);
    let i = check_state::listed_entry(known, State::READ, State::READ, k, f);
    if n <= i {
        return add_entry(known, State::READ, x, f);
    }
    known.bytes[State::KINDS + i] = State::ACC;
    Ok(())
}

// `acc x f`, `read x f` or `chain x f`, by its kind.
pub fn add_own(known: &mut Known, k: u8, x: u8, f: u8) -> Result<(), Refusal>
    requires { IsKind k }
    ensures { AddsAtom known.old.keys known.old.bytes (Syntax.own (permit_of k) x f) result known.new.keys known.new.bytes × (known.new.keys ≡ known.old.keys) }
{
    if k == State::READ {
        return add_read(known, x, f);
    }
    add_entry(known, k, x, f)
}

// One more fact, of terms by their keys.
#[tactic(auto, using(check_state::proofs::Whole::whole))]
pub fn add_fact(known: &mut Known, apart: bool, t: u64, u: u64) -> Result<(), Refusal>
    ensures { Adds (Rules.add_fact (rel_of apart) (term_of t) (term_of u) (state_of known.old.keys known.old.bytes)) result known.new.keys known.new.bytes }
{
    let count = known.bytes[State::FACTS] as usize;
    if Machine::FACTS <= count {
        return Err(Refusal::Full);
    }
    check_equality::push(
        &mut known.keys,
        &mut known.bytes,
        State::LEFT + 2 * count,
        apart,
        t,
        u,
    );
    // UNEQUAL where `apart`.
    known.bytes[State::RELATIONS + count] = u8::from(apart);
    known.bytes[State::FACTS] = (count + 1) as u8;
    Ok(())
}

// The greatest kind that serves where this one is wanted: an `acc` serves for a `read`.
#[tactic(auto, unfolding(crate::specs::Answers::most_serving))]
fn most_serving(want: u8) -> u8
    ensures { result ≡ most_serving want }
{
    want.max(State::ACC)
}

fn permitted(shown: bool) -> Result<(), Refusal>
    ensures { (kept : List Rules.Permission) → answered result kept ≡ Rules.shown_by shown kept none }
{
    if shown {
        Ok(())
    } else {
        Err(Refusal::NoPermission)
    }
}

// Where no entry serves, a chain of the term of k is shown if that is ~ null.
fn shown_by_null(known: &Known, want: u8, k: u64) -> bool
    ensures { result ≡ (not (Syntax.is_path (permit_of want)) && equal_in (state_of known.now.keys known.now.bytes) Syntax.null (term_of k)) }
{
    State::CHAIN <= want && check_state::equal(known, State::NULL_KEY, k)
}

// `acc`, `read` or `chain`, by its kind, with the field f and the term of k: taken from the first entry that has as much left.
pub fn take(
    known: &Known,
    left: &mut [u8; Machine::PERMISSIONS],
    want: u8,
    k: u64,
    f: u8,
) -> Result<(), Refusal>
    requires { LeftFits known.now.bytes left.old × IsKind want }
    ensures { LeftFits known.now.bytes left.new × Takes known.now.keys known.now.bytes left.old want (term_of k) f result left.new }
{
    let i = check_state::entry(known, left, want, most_serving(want), k, f);
    if i < (known.bytes[State::ENTRIES] as usize) {
        let l = left[i];
        left[i] = l - want;
        return Ok(());
    }
    permitted(shown_by_null(known, want, k))
}

// The same of the variable y.
pub fn show_access(
    known: &Known,
    left: &mut [u8; Machine::PERMISSIONS],
    want: u8,
    y: u8,
    f: u8,
) -> Result<(), Refusal>
    requires { LeftFits known.now.bytes left.old × IsKind want }
    ensures { LeftFits known.now.bytes left.new × ShowsAtom known.now.keys known.now.bytes left.old (Syntax.own (permit_of want) y f) result left.new }
{
    take(known, left, want, check_equality::variable_key(y), f)
}

// The keys of what two sides resolve to.
fn sides(known: &Known, l: Term, r: Term) -> Result<(u64, u64), Refusal>
    ensures { sides_of result ≡ resolved_sides (state_of known.now.keys known.now.bytes) (meaning l) (meaning r) }
{
    let t = check_state::resolve(known, l).ok_or(Refusal::Unresolved)?;
    let u = check_state::resolve(known, r).ok_or(Refusal::Unresolved)?;
    Ok((t, u))
}

// `eq`, or where `apart` `ne`.
pub fn show_relation(known: &Known, apart: bool, l: Term, r: Term) -> Result<(), Refusal>
    ensures { ShowsRelation known.now.keys known.now.bytes apart (meaning l) (meaning r) result }
{
    let (t, u) = sides(known, l, r)?;
    if check_inequality::holds(known, apart, t, u) {
        return Ok(());
    }
    Err(Refusal::NotShown)
}

// `eq`, or where `apart` `ne`, with both sides resolved.
pub fn add_relation(known: &mut Known, apart: bool, l: Term, r: Term) -> Result<(), Refusal>
    ensures { AddsAtom known.old.keys known.old.bytes (Syntax.cmp (rel_of apart) (meaning l) (meaning r)) result known.new.keys known.new.bytes }
{
    let (t, u) = sides(known, l, r)?;
    add_fact(known, apart, t, u)
}
