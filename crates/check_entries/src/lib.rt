// What becomes of the entries: of the entry i what stands there, or nothing where `out` has the flag i. Renaming stores that first.
#![tactic(auto)]

mod marks;

ghost use Rattle.std.specs.Prelude.{◌≡◌, Bool, false, ℕ, ◌+◌, ◌≤◌, ◌<◌, get_or, eqb};
ghost use Rattle.rules.specs.Limits.{most_permissions};
ghost use Rattle.rules.specs.Syntax.{same};
ghost use Rattle.check_equality.specs.Layout.{variables_at};
ghost use Rattle.check_equality.specs.Keys.{term_of};
ghost use Rattle.check_state.specs.States.{entries, path_at_entry};
ghost use Rattle.check_state.specs.Questions.{FirstPlace};
ghost use Rattle.check_entries.specs.Entries.{KeepsEntry, RenamedEntries, Packed, Flags, StoredLeft, OutBy, kind_left};

use check_equality::State;
pub use marks::{drops_some, marks_out, names_dropped};
use rules::Machine;

// x is renamed to the variable `to`.
pub fn rename_entries(b: &mut [u8; State::BYTES], x: u8, to: u8)
    requires { entries b.old ≤ most_permissions }
    ensures { RenamedEntries x to b.old (entries b.old) b.new }
{
    let all = b[State::ENTRIES] as usize;
    for i in 0..all {
        let v = b[State::VARIABLES + i];
        b[State::VARIABLES + i] = check_equality::pick(v, x, to);
    }
}

// One more entry x.f of the kind k, unless it is out; the count of entries then.
fn keep_entry(b: &mut [u8; State::BYTES], n: usize, out: bool, x: u8, f: u8, k: u8) -> usize
    requires { n < most_permissions }
    ensures { KeepsEntry b.old n out x f k b.new result }
{
    if out {
        return n;
    }
    b[State::VARIABLES + n] = x;
    b[State::FIELDS + n] = f;
    b[State::KINDS + n] = k;
    n + 1
}

fn kind_left(left: u8, k: u8) -> u8
    ensures { result ≡ kind_left left k }
{
    if left == 0 { k } else { left }
}

// Stores the kinds of what is left of each entry; which are out then: those of which nothing is left.
pub fn store_left(
    b: &mut [u8; State::BYTES],
    left: &[u8; Machine::PERMISSIONS],
) -> [bool; Machine::PERMISSIONS]
    ensures { StoredLeft b.old left.now most_permissions b.new × OutBy left.now most_permissions result }
{
    let mut out = [false; Machine::PERMISSIONS];
    for i in 0..Machine::PERMISSIONS {
        let k = b[State::KINDS + i];
        b[State::KINDS + i] = kind_left(left[i], k);
        out[i] = left[i] == 0;
    }
    out
}

// The first entry that is out, or n.
pub fn first_out(out: &[bool; Machine::PERMISSIONS], n: usize) -> usize
    requires { n ≤ most_permissions }
    ensures { FirstPlace (λ i. get_or out.now i false) n result }
{
    for i in 0..n {
        if out[i] {
            return i;
        }
    }
    n
}

// The entries that are not out. Those before the first that is out, or all where that is their count, stay where they are.
pub fn pack(b: &mut [u8; State::BYTES], out: &[bool; Machine::PERMISSIONS], first: usize)
    requires { (entries b.old ≤ most_permissions) × FirstPlace (λ i. get_or out.now i false) (entries b.old) first }
    ensures { Packed b.old out.now b.new }
{
    let all = b[State::ENTRIES] as usize;
    let mut n = first;
    for i in first..all {
        let x = b[State::VARIABLES + i];
        let f = b[State::FIELDS + i];
        let k = b[State::KINDS + i];
        n = keep_entry(b, n, out[i], x, f, k);
    }
    b[State::ENTRIES] = n as u8;
}

// Which of the first n entries pass a test.
fn flags<F: Fn(usize) -> bool>(n: usize, passes: F) -> [bool; Machine::PERMISSIONS]
    requires few { n ≤ most_permissions }
    requires callable { (i : ℕ) → i < n → F.pre passes i }
    ensures { (test : ℕ → Bool) → ((i : ℕ) (r : Bool) → i < n → F.post passes i r → r ≡ test i) → Flags test n result }
{
    let mut out = [false; Machine::PERMISSIONS];
    for i in 0..n {
        out[i] = passes(i);
    }
    out
}

// Which entries are x's.
pub fn entries_of(b: &[u8; State::BYTES], n: usize, x: u8) -> [bool; Machine::PERMISSIONS]
    requires { n ≤ most_permissions }
    ensures { Flags (λ i. eqb (get_or b.now (variables_at + i) 0) x) n result }
{
    flags(n, |i| b[State::VARIABLES + i] == x)
}

// Which entries have the path of the key k.
pub fn entries_at(b: &[u8; State::BYTES], n: usize, k: u64) -> [bool; Machine::PERMISSIONS]
    requires { n ≤ most_permissions }
    ensures { Flags (λ i. same (term_of k) (path_at_entry b.now i)) n result }
{
    flags(n, |i| {
        k == check_equality::path_key(b[State::VARIABLES + i], b[State::FIELDS + i])
    })
}
