// What is dropped is looked for, and the facts that name it are forgotten or give way. Where that is one term alone, every side with its key
// takes the key of its successor, or of the variable that stands in for it, and the labels stay.
#![tactic(auto, using(check_state::proofs::Whole::whole))]

mod giving;

ghost use Rattle.std.specs.Prelude.{◌≡◌, true, ◌≤◌, eqb};
ghost use Rattle.check_equality.specs.Layout.{slots};
ghost use Rattle.check_state.specs.States.{slots_in};
ghost use Rattle.check_equality.specs.Links.{Labelled};
ghost use Rattle.check_scans.specs.Scans.{Scanned, NoPath, marked_key};
ghost use Rattle.check_dropping.specs.Dropping.{Renamed, Forgettable, Forgot, StandsIn, PathsForgettable};
ghost use Rattle.check_state.specs.Questions.{no_variable};
ghost use Rattle.check_entries.specs.PathsOut.{key_dropped, OutMarked};
ghost use Rattle.check_scans.specs.Sides.{renamed_key, mentions_key};

use check_equality::State;
use check_state::Known;
use rules::Machine;

// The label of the key k, which is looked for in slot l first.
fn label_near(known: &Known, k: u64, l: usize) -> u8
    ensures { Labelled known.now.keys known.now.bytes (slots_in known.now.bytes) k result }
{
    if known.slots() <= l {
        return known.label_of(k);
    }
    if known.keys[l] == k {
        return known.bytes[l];
    }
    known.label_of(k)
}

// The term of k is dropped, and the facts before `from` stay: it gives way to its successor, or else as `forget` says.
fn give_key(known: &mut Known, skip: &[bool; Machine::PERMISSIONS], x: u8, k: u64, from: usize)
    requires { Forgettable (λ l. eqb l k) known.old.keys known.old.bytes skip.now x × Scanned (λ l. eqb l k) known.old.keys known.old.bytes from }
    ensures { Forgot (λ l. eqb l k) known.old.keys known.old.bytes skip.now x known.new.keys known.new.bytes }
{
    let m = State::LEFT + 2 * (known.bytes[State::FACTS] as usize);
    let l = State::LEFT + 2 * from;
    let mut gone = [false; State::SLOTS];
    let a = label_near(known, k, l);
    let Some(t) = check_successors::successor(known, skip, x, k, a) else {
        check_scans::drop_path(&known.keys, l, m, k, &mut gone);
        giving::forget(known, skip, x, &mut gone, from);
        return;
    };
    check_scans::swap_key(&mut known.keys, l, m, k, t);
    check_labels::repack(&mut known.keys, &mut known.bytes, &gone, from, x);
}

// The term of k is dropped.
pub fn drop_key(known: &mut Known, skip: &[bool; Machine::PERMISSIONS], x: u8, k: u64)
    requires { Forgettable (λ l. eqb l k) known.old.keys known.old.bytes skip.now x }
    ensures { Forgot (λ l. eqb l k) known.old.keys known.old.bytes skip.now x known.new.keys known.new.bytes }
{
    let from = check_scans::first_with(known, k);
    if from < (known.bytes[State::FACTS] as usize) {
        give_key(known, skip, x, k, from);
    }
}

// x and its paths are dropped, and the facts before `from` stay.
fn give_names(known: &mut Known, skip: &[bool; Machine::PERMISSIONS], x: u8, from: usize)
    requires { Forgettable (mentions_key x) known.old.keys known.old.bytes skip.now x × Scanned (mentions_key x) known.old.keys known.old.bytes from }
    ensures { Forgot (mentions_key x) known.old.keys known.old.bytes skip.now x known.new.keys known.new.bytes }
{
    let m = State::LEFT + 2 * (known.bytes[State::FACTS] as usize);
    let l = State::LEFT + 2 * from;
    if check_scans::has_path(&known.keys, l, m, x) {
        let mut gone = [false; State::SLOTS];
        check_scans::drop_variable(&known.keys, l, m, x, &mut gone);
        giving::forget(known, skip, x, &mut gone, from);
        return;
    }
    give_key(known, skip, x, check_equality::variable_key(x), from);
}

// x and its paths are dropped.
pub fn drop_names(known: &mut Known, skip: &[bool; Machine::PERMISSIONS], x: u8)
    requires { Forgettable (mentions_key x) known.old.keys known.old.bytes skip.now x }
    ensures { Forgot (mentions_key x) known.old.keys known.old.bytes skip.now x known.new.keys known.new.bytes }
{
    let from = check_scans::first_naming(known, x);
    if from < (known.bytes[State::FACTS] as usize) {
        give_names(known, skip, x, from);
    }
}

// The paths of the entries that are out, whose places are marked, are dropped, but for names still listed.
pub fn give_out<'a>(
    known: &mut Known,
    out: &'a [bool; Machine::PERMISSIONS],
    marks: &'a [bool; State::MARKS],
    from: usize,
)
    requires { OutMarked known.old.bytes out.now marks.now × PathsForgettable known.old.keys known.old.bytes out.now × Scanned (marked_key marks.now) known.old.keys known.old.bytes from }
    ensures { Forgot (key_dropped known.old.bytes out.now) known.old.keys known.old.bytes out.now no_variable known.new.keys known.new.bytes }
{
    let m = State::LEFT + 2 * (known.bytes[State::FACTS] as usize);
    let l = State::LEFT + 2 * from;
    let mut gone = [false; State::SLOTS];
    check_scans::drop_paths(&known.keys, &known.bytes, out, marks, l, m, &mut gone);
    giving::forget(known, out, State::NO_VARIABLE, &mut gone, from);
}

// Is `to` another variable with the label of x?
fn stands_in(b: &[u8; State::BYTES], x: u8, to: u8) -> bool
    ensures { result ≡ true → StandsIn b.now x to }
{
    if x == to {
        return false;
    }
    if (x < State::VARIABLE_COUNT) & (to < State::VARIABLE_COUNT) {
        let i = x as usize;
        let j = to as usize;
        return b[i] == b[j];
    }
    false
}

// Is `to` another variable with the label of x, and no path of x among the sides from slot `from` on?
fn stands_alone(known: &Known, from: usize, m: usize, x: u8, to: u8) -> bool
    requires { (from ≤ m) × (m ≤ slots) }
    ensures { result ≡ true → StandsIn known.now.bytes x to × NoPath known.now.keys from m x }
{
    if stands_in(&known.bytes, x, to) {
        return !check_scans::has_path(&known.keys, from, m, x);
    }
    false
}

// The variable `to` takes the place of x, and the facts before `from` stay.
fn give_name(known: &mut Known, x: u8, to: u8, from: usize)
    requires { Scanned (mentions_key x) known.old.keys known.old.bytes from }
    ensures { Renamed (renamed_key x to) known.old.keys known.old.bytes known.new.keys known.new.bytes }
{
    let m = State::LEFT + 2 * (known.bytes[State::FACTS] as usize);
    let l = State::LEFT + 2 * from;
    let gone = [false; State::SLOTS];
    if stands_alone(known, l, m, x, to) {
        check_scans::swap_key(
            &mut known.keys,
            l,
            m,
            check_equality::variable_key(x),
            check_equality::variable_key(to),
        );
        check_labels::repack(&mut known.keys, &mut known.bytes, &gone, from, x);
        return;
    }
    check_scans::rename_keys(&mut known.keys, m, x, to);
    check_labels::rebuild(&mut known.keys, &mut known.bytes, &gone);
}

// The variable `to` takes the place of x.
pub fn rename_names(known: &mut Known, x: u8, to: u8)
    ensures { Renamed (renamed_key x to) known.old.keys known.old.bytes known.new.keys known.new.bytes }
{
    let from = check_scans::first_naming(known, x);
    if from < (known.bytes[State::FACTS] as usize) {
        give_name(known, x, to, from);
    }
}
