// The checker's state in two arrays, and what it answers: ~, resolving, the first entry of a term, the first other variable ~ x.
#![tactic(auto, using(crate::proofs::Whole::whole))]

mod known;

ghost use Rattle.std.specs.Prelude.{◌≡◌, ◌&&◌, ◌≤◌, length};
ghost use Rattle.rules.specs.Limits.{most_permissions};
ghost use Rattle.rules.specs.Syntax.{var};
ghost use Rattle.rules.specs.State as Rules;
ghost use Rattle.rules.specs.State.{equal_in};
ghost use Rattle.check_equality.specs.Layout.{null_slot};
ghost use Rattle.check_equality.specs.Keys.{term_of, meaning};
ghost use Rattle.check_equality.specs.Links.{Labelled};
ghost use Rattle.check_state.specs.States.{slots_in, state_of, permissions_of, entries, kind_at, kinds_of};
ghost use Rattle.check_state.specs.Questions.{Told, FirstPlace, Bytes, entry_test, in_range, resolved_as, path_at, stands_for, variable_or};

use check_equality::{State, Term};
pub use known::Known;
use rules::Machine;

// Is x ~ the term of the key k, whose label is a?
pub fn variable_is(known: &Known, x: u8, k: u64, a: u8) -> bool
    requires { Labelled known.now.keys known.now.bytes (slots_in known.now.bytes) k a }
    ensures { Told known.now.keys known.now.bytes (slots_in known.now.bytes) (λ same. result ≡ same (var x) (term_of k)) }
{
    let l = check_equality::variable_key(x);
    if x < State::VARIABLE_COUNT {
        let i = x as usize;
        return known.bytes[i] == a;
    }
    let c = known.label_of(l);
    check_equality::alike(l, c, k, a)
}

// Does an entry of x serve, and is x ~ the term of the key k, whose label is a?
fn names(known: &Known, serves: bool, x: u8, k: u64, a: u8) -> bool
    requires { Labelled known.now.keys known.now.bytes (slots_in known.now.bytes) k a }
    ensures { Told known.now.keys known.now.bytes (slots_in known.now.bytes) (λ same. result ≡ (serves && same (var x) (term_of k))) }
{
    if serves {
        return variable_is(known, x, k, a);
    }
    false
}

fn in_range(least: u8, most: u8, k: u8) -> bool
    ensures { result ≡ in_range least most k }
{
    (least <= k) & (k <= most)
}

// The place of the first entry by f, of a kind from `least` to `most`, of a variable ~ the term of k; or n.
fn find(known: &Known, kinds: &[u8], n: usize, least: u8, most: u8, k: u64, f: u8) -> usize
    requires { (n ≤ most_permissions) × (n ≤ length kinds.now) }
    ensures { Told known.now.keys known.now.bytes (slots_in known.now.bytes) (λ same. FirstPlace (entry_test known.now.bytes kinds.now least most (term_of k) f same) n result) }
{
    let a = known.label_of(k);
    for i in 0..n {
        if known.bytes[State::FIELDS + i] == f {
            if names(
                known,
                in_range(least, most, kinds[i]),
                known.bytes[State::VARIABLES + i],
                k,
                a,
            ) {
                return i;
            }
        }
    }
    n
}

// Are two terms ~?
pub fn equal(known: &Known, t: u64, u: u64) -> bool
    ensures { result ≡ equal_in (state_of known.now.keys known.now.bytes) (term_of t) (term_of u) }
{
    let x = known.label_of(t);
    let y = known.label_of(u);
    check_equality::alike(t, x, u, y)
}

// The place of the first entry by f of a variable ~ the term of k, or the count of entries: its kind, that `kinds` has, is one of those
// from `least` to `most`.
pub fn entry(known: &Known, kinds: &[u8], least: u8, most: u8, k: u64, f: u8) -> usize
    requires { most_permissions ≤ length kinds.now }
    ensures { FirstPlace (entry_test known.now.bytes kinds.now least most (term_of k) f (equal_in (state_of known.now.keys known.now.bytes))) (entries known.now.bytes) result }
{
    let n = known.bytes[State::ENTRIES] as usize;
    find(known, kinds, n, least, most, k, f)
}

// The same with the kinds that the entries have.
pub fn listed_entry(known: &Known, least: u8, most: u8, k: u64, f: u8) -> usize
    ensures { FirstPlace (entry_test known.now.bytes (kinds_of known.now.bytes) least most (term_of k) f (equal_in (state_of known.now.keys known.now.bytes))) (entries known.now.bytes) result }
{
    let all = &known.bytes[..];
    entry(known, &all[State::KINDS..], least, most, k, f)
}

fn path_at(b: &[u8; State::BYTES], i: usize) -> Option<u64>
    requires { entries b.now ≤ most_permissions }
    ensures { resolved_as result ≡ path_at b.now i }
{
    if i < (b[State::ENTRIES] as usize) {
        return Some(check_equality::path_key(b[State::VARIABLES + i], b[State::FIELDS + i]));
    }
    None
}

// The kinds of the entries.
pub fn kinds(b: &[u8; State::BYTES]) -> [u8; Machine::PERMISSIONS]
    ensures { Bytes (kind_at b.now) most_permissions result }
{
    let mut all = [0; Machine::PERMISSIONS];
    all.copy_from_slice(&b[State::KINDS..]);
    all
}

// The key of what an expression resolves to: for a path any entry serves that is one.
pub fn resolve(known: &Known, e: Term) -> Option<u64>
    ensures { resolved_as result ≡ Rules.resolve (equal_in (state_of known.now.keys known.now.bytes)) (permissions_of known.now.bytes) (meaning e) }
{
    let Term::Path(y, f) = e else {
        return Some(check_equality::key_of(e));
    };
    let k = check_equality::variable_key(y);
    path_at(
        &known.bytes,
        listed_entry(known, State::READ, State::ACC, k, f),
    )
}

// Is v a variable other than x, and ~ the term of k, whose label is a?
fn stands_for(known: &Known, v: u8, x: u8, k: u64, a: u8) -> bool
    requires { Labelled known.now.keys known.now.bytes (slots_in known.now.bytes) k a }
    ensures { Told known.now.keys known.now.bytes (slots_in known.now.bytes) (λ same. result ≡ stands_for same x (term_of k) v) }
{
    if v == x {
        return false;
    }
    variable_is(known, v, k, a)
}

// The first variable other than x that is ~ the term of k, whose label is a; or VARIABLE_COUNT.
pub fn first_variable(known: &Known, x: u8, k: u64, a: u8) -> u8
    requires { Labelled known.now.keys known.now.bytes (slots_in known.now.bytes) k a }
    ensures { Told known.now.keys known.now.bytes (slots_in known.now.bytes) (λ same. FirstPlace (stands_for same x (term_of k)) null_slot result) }
{
    for v in 0..State::VARIABLE_COUNT {
        if stands_for(known, v, x, k, a) {
            return v;
        }
    }
    State::VARIABLE_COUNT
}

// The first other variable ~ x.
pub fn stand_in(known: &Known, x: u8) -> Option<u8>
    ensures { variable_or result ≡ Rules.stand_in (state_of known.now.keys known.now.bytes) x }
{
    let k = check_equality::variable_key(x);
    let a = known.label_of(k);
    let v = first_variable(known, x, k, a);
    if v < State::VARIABLE_COUNT {
        return Some(v);
    }
    None
}
