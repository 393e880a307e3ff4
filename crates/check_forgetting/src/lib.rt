// What becomes of a state when paths or a variable go: the remainder, removing, `set`; the state that knows nothing.
#![tactic(auto, using(check_state::proofs::Whole::whole))]

ghost use Rattle.std.specs.Prelude.{◌≡◌, true, ◌+◌, get_or, List, ℕ};
ghost use Rattle.check_equality.specs.Layout.{variables_at, fields_at};
ghost use Rattle.check_equality.specs.Links.{Header};
ghost use Rattle.check_state.specs.States.{is_path_at, state_of};
ghost use Rattle.check_successors.specs.Successors.{term_or};
ghost use Rattle.check_scans.specs.Scans.{Scanned, marked_key};
ghost use Rattle.check_state.specs.Questions.{variable_or};
ghost use Rattle.check_entries.specs.Entries.{LeftFits, left_of};
ghost use Rattle.check_entries.specs.PathsOut.{OutMarked};
ghost use Rattle.check_scans.specs.Sides.{mentions_key};
ghost use Rattle.check_forgetting.specs.Changes.{ForgotOut, Becomes, without_path};
ghost use Rattle.std.proofs.Math.Option.{none, some};
ghost use Rattle.rules.specs.Syntax as Syntax;
ghost use Rattle.rules.specs.State as Rules;
ghost use Rattle.check_equality.specs.Keys.{term_of};

use check_equality::State;
use check_state::Known;
use rules::Machine;

// The keys of a state that knows nothing: in the slots before the facts' the variables and null.
// Not one with `fresh` of `check_labels`: these are words and those bytes, and null has a key of its own.
fn header() -> [u64; State::SLOTS]
    ensures { Header result }
{
    let mut key = [0; State::SLOTS];
    for i in 0..State::NULL {
        key[i] = i as u64;
    }
    key[State::NULL] = State::NULL_KEY;
    key
}

// The state that knows nothing.
pub fn nothing() -> Known
    ensures { Becomes Rules.empty result.keys result.bytes }
{
    let keys = header();
    let mut bytes = [0; State::BYTES];
    check_labels::fresh(&mut bytes);
    Known { keys, bytes }
}

// Nothing is known then, whatever the bytes held, by each header of keys.
pub fn clear(b: &mut [u8; State::BYTES])
    ensures { (key : List ℕ) → Header key → Becomes Rules.empty key b.new }
{
    check_labels::fresh(b);
    b[State::FACTS] = 0;
    b[State::ENTRIES] = 0;
}

// All that is known is forgotten.
pub fn forget_all(known: &mut Known)
    ensures { Becomes Rules.empty known.new.keys known.new.bytes }
{
    clear(&mut known.bytes);
}

// The paths of the entries that are out, whose places are marked, are dropped, unless all of them are still listed.
fn drop_out<'a>(
    known: &mut Known,
    out: &'a [bool; Machine::PERMISSIONS],
    marks: &'a [bool; State::MARKS],
    from: usize,
)
    requires { OutMarked known.old.bytes out.now marks.now × Scanned (marked_key marks.now) known.old.keys known.old.bytes from }
    ensures { ForgotOut known.old.keys known.old.bytes out.now known.new.keys known.new.bytes }
{
    let p = known.bytes[State::ENTRIES] as usize;
    if check_entries::drops_some(&known.bytes, out, p) {
        check_dropping::give_out(known, out, marks, from);
    }
}

// The paths of the entries that are out are dropped, but for names still listed: the facts without them.
fn forget_out(known: &mut Known, out: &[bool; Machine::PERMISSIONS])
    ensures { ForgotOut known.old.keys known.old.bytes out.now known.new.keys known.new.bytes }
{
    let p = known.bytes[State::ENTRIES] as usize;
    let marks = check_entries::marks_out(&known.bytes, out, p);
    let from = check_scans::first_marked(known, &marks);
    if from < (known.bytes[State::FACTS] as usize) {
        drop_out(known, out, &marks, from);
    }
}

// What is left of the entries: a path of which nothing is left is dropped, one of which a half is left keeps its facts.
pub fn remainder(known: &mut Known, left: &[u8; Machine::PERMISSIONS])
    requires { LeftFits known.old.bytes left.now }
    ensures { Becomes (Rules.remainder (state_of known.old.keys known.old.bytes) (left_of known.old.bytes left.now)) known.new.keys known.new.bytes }
{
    let out = check_entries::store_left(&mut known.bytes, left);
    let p = known.bytes[State::ENTRIES] as usize;
    let first = check_entries::first_out(&out, p);
    if first < p {
        forget_out(known, &out);
        check_entries::pack(&mut known.bytes, &out, first);
    }
}

// The listed path of entry i, whose key is k, is dropped, though it stays listed.
pub fn without_path(known: &mut Known, i: usize, k: u64)
    requires { (is_path_at known.old.bytes i ≡ true) × (term_of k ≡ Syntax.path (get_or known.old.bytes (variables_at + i) 0) (get_or known.old.bytes (fields_at + i) 0)) }
    ensures { Becomes (without_path known.old.keys known.old.bytes i) known.new.keys known.new.bytes }
{
    let p = known.bytes[State::ENTRIES] as usize;
    let skip = check_entries::entries_at(&known.bytes, p, k);
    check_dropping::drop_key(known, &skip, State::NO_VARIABLE, k);
}

// x and its paths are dropped.
fn erase(known: &mut Known, x: u8)
    ensures { Becomes (Rules.remove_to x none (state_of known.old.keys known.old.bytes)) known.new.keys known.new.bytes }
{
    let p = known.bytes[State::ENTRIES] as usize;
    let out = check_entries::entries_of(&known.bytes, p, x);
    check_dropping::drop_names(known, &out, x);
    let first = check_entries::first_out(&out, p);
    check_entries::pack(&mut known.bytes, &out, first);
}

// The variable `to` takes the place of x.
fn replace(known: &mut Known, x: u8, to: u8)
    ensures { Becomes (Rules.remove_to x (some to) (state_of known.old.keys known.old.bytes)) known.new.keys known.new.bytes }
{
    check_dropping::rename_names(known, x, to);
    check_entries::rename_entries(&mut known.bytes, x, to);
}

// The state with `to` in the place of x, or without x.
pub fn remove_to(known: &mut Known, x: u8, to: Option<u8>)
    ensures { Becomes (Rules.remove_to x (variable_or to) (state_of known.old.keys known.old.bytes)) known.new.keys known.new.bytes }
{
    match to {
        Some(y) => replace(known, x, y),
        None => erase(known, x),
    }
}

pub fn remove(known: &mut Known, x: u8)
    ensures { Becomes (Rules.remove x (state_of known.old.keys known.old.bytes)) known.new.keys known.new.bytes }
{
    let to = check_state::stand_in(known, x);
    remove_to(known, x, to);
}

// What becomes of a term that names x, where x and its paths are dropped: its successor.
fn gives_way(known: &Known, k: u64, x: u8) -> Option<u64>
    ensures { mentions_key x k ≡ true → term_or result ≡ Rules.removed_term x none (state_of known.now.keys known.now.bytes) (term_of k) }
{
    let p = known.bytes[State::ENTRIES] as usize;
    let skip = check_entries::entries_of(&known.bytes, p, x);
    let a = known.label_of(k);
    check_successors::successor(known, &skip, x, k, a)
}

// What becomes of a term where x and its paths are dropped.
fn left_over(known: &Known, k: u64, x: u8) -> Option<u64>
    ensures { term_or result ≡ Rules.removed_term x none (state_of known.now.keys known.now.bytes) (term_of k) }
{
    if check_scans::mentions(k, x) {
        return gives_way(known, k, x);
    }
    Some(k)
}

// What becomes of a term where `to` takes the place of x, or x and its paths are dropped.
pub fn removed(known: &Known, k: u64, x: u8, to: Option<u8>) -> Option<u64>
    ensures { term_or result ≡ Rules.removed_term x (variable_or to) (state_of known.now.keys known.now.bytes) (term_of k) }
{
    match to {
        Some(y) => Some(check_scans::rename(k, x, y)),
        None => left_over(known, k, x),
    }
}
