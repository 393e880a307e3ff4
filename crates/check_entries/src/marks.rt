// Which keys are those of listed paths that are out, by marks; and which of these are dropped: those that no other has.
ghost use Rattle.std.specs.Prelude.{◌≡◌, Bool, cond, not, ◌&&◌, ◌≤◌};
ghost use Rattle.rules.specs.Limits.{most_permissions};
ghost use Rattle.rules.specs.Syntax.{path};
ghost use Rattle.rules.specs.Base.{any};
ghost use Rattle.check_equality.specs.Keys.{term_of};
ghost use Rattle.check_state.specs.Questions.{places};
ghost use Rattle.check_entries.specs.PathsOut.{path_out, path_out_at, path_with, kept_names, dropped_at, MarksOut};

use check_equality::State;
use rules::Machine;

// Is the entry x.f out, and its path that of the key?
fn path_out(out: bool, x: u8, f: u8, k: u64) -> bool
    ensures { result ≡ path_out out x f k }
{
    if out {
        return check_equality::path_key(x, f) == k;
    }
    false
}

// Is a key that of a listed path whose flag counts?
fn names_with<'a, F: Fn(bool) -> bool>(
    b: &'a [u8; State::BYTES],
    out: &'a [bool; Machine::PERMISSIONS],
    counts: F,
    n: usize,
    k: u64,
) -> bool
    requires few { n ≤ most_permissions }
    requires callable { F.IsAlwaysCallable counts }
    ensures { (kept : Bool) → ((o r : Bool) → F.post counts o r → r ≡ cond kept (not o) o) → result ≡ any (path_with b.now out.now kept k) (places n) }
{
    for i in 0..n {
        if path_out(
            counts(out[i]) & (b[State::KINDS + i] < State::CHAIN),
            b[State::VARIABLES + i],
            b[State::FIELDS + i],
            k,
        ) {
            return true;
        }
    }
    false
}

// The places of the keys of all entries that are out.
pub fn marks_out<'a>(
    b: &'a [u8; State::BYTES],
    out: &'a [bool; Machine::PERMISSIONS],
    n: usize,
) -> [bool; State::MARKS]
    requires { n ≤ most_permissions }
    ensures { MarksOut b.now out.now n result }
{
    let mut marks = [false; State::MARKS];
    for i in 0..n {
        let k = check_equality::path_key(b[State::VARIABLES + i], b[State::FIELDS + i]);
        check_equality::mark(&mut marks, out[i], k);
    }
    marks
}

// Is a key that of a listed path that is out? The marks are looked at first.
fn names_marked<'a>(
    b: &'a [u8; State::BYTES],
    out: &'a [bool; Machine::PERMISSIONS],
    marks: &'a [bool; State::MARKS],
    n: usize,
    k: u64,
) -> bool
    requires { (n ≤ most_permissions) × MarksOut b.now out.now n marks.now }
    ensures { result ≡ any (path_out_at b.now out.now k) (places n) }
{
    let p = check_equality::place(k);
    if marks[p] {
        return names_with(b, out, |o| o, n, k);
    }
    false
}

// Is a key that of a listed path that is out, and of no other?
pub fn names_dropped<'a>(
    b: &'a [u8; State::BYTES],
    out: &'a [bool; Machine::PERMISSIONS],
    marks: &'a [bool; State::MARKS],
    n: usize,
    k: u64,
) -> bool
    requires { (n ≤ most_permissions) × MarksOut b.now out.now n marks.now }
    ensures { result ≡ (any (path_out_at b.now out.now k) (places n) && not (any (kept_names b.now out.now (term_of k)) (places n))) }
{
    if names_marked(b, out, marks, n, k) {
        return !names_with(b, out, |o| !o, n, k);
    }
    false
}

// Is a listed path x.f out, and that of no entry that is not?
fn drops_entry<'a>(
    b: &'a [u8; State::BYTES],
    out: &'a [bool; Machine::PERMISSIONS],
    n: usize,
    gone: bool,
    x: u8,
    f: u8,
) -> bool
    requires { n ≤ most_permissions }
    ensures { result ≡ (gone && not (any (kept_names b.now out.now (path x f)) (places n))) }
{
    if gone {
        return !names_with(b, out, |o| !o, n, check_equality::path_key(x, f));
    }
    false
}

// Is a path dropped?
pub fn drops_some<'a>(
    b: &'a [u8; State::BYTES],
    out: &'a [bool; Machine::PERMISSIONS],
    n: usize,
) -> bool
    requires { n ≤ most_permissions }
    ensures { result ≡ any (dropped_at b.now out.now n) (places n) }
{
    for i in 0..n {
        if drops_entry(
            b,
            out,
            n,
            out[i] & (b[State::KINDS + i] < State::CHAIN),
            b[State::VARIABLES + i],
            b[State::FIELDS + i],
        ) {
            return true;
        }
    }
    false
}
