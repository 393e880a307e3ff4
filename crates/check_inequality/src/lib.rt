// The ways (a) to (d) of showing an inequality.
#![tactic(auto, using(check_state::proofs::Whole::whole))]

mod by_facts;
mod by_numbers;

ghost use Rattle.std.specs.Prelude.{◌≡◌, true, ◌&&◌, ◌≤◌, ◌<◌};
ghost use Rattle.rules.specs.Base.{any};
ghost use Rattle.rules.specs.Limits.{most_permissions};
ghost use Rattle.rules.specs.Syntax as Syntax;
ghost use Rattle.rules.specs.Syntax.{var, is_path};
ghost use Rattle.rules.specs.State as Rules;
ghost use Rattle.rules.specs.State.{null_and_object, two_entries, equal_in, holds_in};
ghost use Rattle.check_equality.specs.Keys.{term_of, first_number};
ghost use Rattle.check_equality.specs.Links.{Labelled, rel_of};
ghost use Rattle.check_state.specs.States.{slots_in, state_of, permissions_in, permit_of};
ghost use Rattle.check_state.specs.Questions.{Told, FirstPlace};
ghost use Rattle.check_inequality.specs.Ways.{named_at, PairTold};

pub use by_numbers::number_like;
use check_equality::State;
use check_state::Known;

// Is an entry of x with the kind c a listed path, and x ~ the term of k?
fn is_object(known: &Known, c: u8, x: u8, k: u64, a: u8) -> bool
    requires { Labelled known.now.keys known.now.bytes (slots_in known.now.bytes) k a }
    ensures { Told known.now.keys known.now.bytes (slots_in known.now.bytes) (λ same. result ≡ (is_path (permit_of c) && same (var x) (term_of k))) }
{
    if check_state::variable_is(known, x, k, a) {
        return c < State::CHAIN;
    }
    false
}

// Is the variable of some listed path ~ the term of k?
fn some_object(known: &Known, n: usize, k: u64, a: u8) -> bool
    requires { Labelled known.now.keys known.now.bytes (slots_in known.now.bytes) k a × (n ≤ most_permissions) }
    ensures { Told known.now.keys known.now.bytes (slots_in known.now.bytes) (λ same. result ≡ any (λ p. is_path p.permit && same (var p.variable) (term_of k)) (permissions_in known.now.bytes n)) }
{
    for i in 0..n {
        if is_object(
            known,
            known.bytes[State::KINDS + i],
            known.bytes[State::VARIABLES + i],
            k,
            a,
        ) {
            return true;
        }
    }
    false
}

// (c) Is the term of t ~ null, and that of u ~ the variable of some listed path?
fn null_and_object(known: &Known, n: usize, t: u64, x: u8, u: u64, y: u8) -> bool
    requires { Labelled known.now.keys known.now.bytes (slots_in known.now.bytes) t x × Labelled known.now.keys known.now.bytes (slots_in known.now.bytes) u y × (n ≤ most_permissions) }
    ensures { Told known.now.keys known.now.bytes (slots_in known.now.bytes) (λ same. result ≡ null_and_object same (permissions_in known.now.bytes n) (term_of t) (term_of u)) }
{
    if check_equality::alike(State::NULL_KEY, known.bytes[State::NULL], t, x) {
        return some_object(known, n, u, y);
    }
    false
}

// Do entries of two kinds own more halves than one location has? Both are listed paths, one of them an `acc`.
fn exceed(j: u8, i: u8) -> bool
    ensures { result ≡ Rules.exceed (permit_of j) (permit_of i) }
{
    ((j == State::ACC) & (i < State::CHAIN)) | ((i == State::ACC) & (j < State::CHAIN))
}

// The entries j and i, where p and q say whether the variable of i is ~ the terms of t and u.
fn pair(known: &Known, j: usize, i: usize, t: u64, x: u8, u: u64, y: u8, p: bool, q: bool) -> bool
    requires { Labelled known.now.keys known.now.bytes (slots_in known.now.bytes) t x × Labelled known.now.keys known.now.bytes (slots_in known.now.bytes) u y × (j < most_permissions) × (i < most_permissions) }
    ensures { Told known.now.keys known.now.bytes (slots_in known.now.bytes) (PairTold known.now.bytes t u j i p q result) }
{
    if known.bytes[State::FIELDS + j] != known.bytes[State::FIELDS + i] {
        return false;
    }
    if exceed(known.bytes[State::KINDS + j], known.bytes[State::KINDS + i]) {
        let c = check_state::variable_is(known, known.bytes[State::VARIABLES + j], t, x);
        let d = check_state::variable_is(known, known.bytes[State::VARIABLES + j], u, y);
        return (c & q) | (d & p);
    }
    false
}

// The first entry of a variable ~ the term of k, or n.
fn first_named(known: &Known, n: usize, k: u64, a: u8) -> usize
    requires { Labelled known.now.keys known.now.bytes (slots_in known.now.bytes) k a × (n ≤ most_permissions) }
    ensures { (result ≤ n) × Told known.now.keys known.now.bytes (slots_in known.now.bytes) (λ same. FirstPlace (named_at known.now.bytes k same) n result) }
{
    for i in 0..n {
        if check_state::variable_is(known, known.bytes[State::VARIABLES + i], k, a) {
            return i;
        }
    }
    n
}

// (d) Are the terms of t and u ~ the variables of two entries for one field, one of them an `acc`? Only an entry whose variable is ~ to one of them is
// tried with those before it, and none before both terms had one. Left by its label, as document 01 asks of this search.
fn two_entries(known: &Known, n: usize, t: u64, x: u8, u: u64, y: u8) -> bool
    requires { Labelled known.now.keys known.now.bytes (slots_in known.now.bytes) t x × Labelled known.now.keys known.now.bytes (slots_in known.now.bytes) u y × (n ≤ most_permissions) }
    ensures { Told known.now.keys known.now.bytes (slots_in known.now.bytes) (λ same. result ≡ two_entries same (permissions_in known.now.bytes n) (term_of t) (term_of u)) }
{
    let s = first_named(known, n, t, x);
    let v = first_named(known, n, u, y);
    let first = s.min(v);
    let mut found = false;
    'entries: for i in s.max(v)..n {
        let p = check_state::variable_is(known, known.bytes[State::VARIABLES + i], t, x);
        let q = check_state::variable_is(known, known.bytes[State::VARIABLES + i], u, y);
        if p | q {
            for j in first..i {
                if pair(known, j, i, t, x, u, y, p, q) {
                    found = true;
                    break 'entries;
                }
            }
        }
    }
    found
}

// Is the inequality of two terms shown? The ways (a), (c), (d) and then (b).
fn unequal(known: &Known, t: u64, u: u64) -> bool
    ensures { result ≡ holds_in (equal_in (state_of known.now.keys known.now.bytes)) (state_of known.now.keys known.now.bytes) Syntax.ne (term_of t) (term_of u) }
{
    let n = known.bytes[State::FACTS] as usize;
    let p = known.bytes[State::ENTRIES] as usize;
    let x = known.label_of(t);
    let y = known.label_of(u);
    if by_facts::listed_unequal(&known.bytes, n, x, y) {
        return true;
    }
    if null_and_object(known, p, t, x, u, y) {
        return true;
    }
    if null_and_object(known, p, u, y, t, x) {
        return true;
    }
    if two_entries(known, p, t, x, u, y) {
        return true;
    }
    by_numbers::numbers_apart(&known.keys, &known.bytes, n, t, x, u, y)
}

// Are these the keys of two numbers?
fn are_two_numbers(t: u64, u: u64) -> bool
    ensures { result ≡ true → (first_number ≤ t) × (first_number ≤ u) × (t ≡ u → ⊥) }
{
    if t < State::FIRST_NUMBER {
        return false;
    }
    if u < State::FIRST_NUMBER {
        return false;
    }
    t != u
}

// The same, but two numbers are unequal at once, by (b).
fn differ(known: &Known, t: u64, u: u64) -> bool
    ensures { result ≡ holds_in (equal_in (state_of known.now.keys known.now.bytes)) (state_of known.now.keys known.now.bytes) Syntax.ne (term_of t) (term_of u) }
{
    if are_two_numbers(t, u) {
        return true;
    }
    unequal(known, t, u)
}

// Is the equality, or where `apart` the inequality, of two terms shown?
pub fn holds(known: &Known, apart: bool, t: u64, u: u64) -> bool
    ensures { result ≡ holds_in (equal_in (state_of known.now.keys known.now.bytes)) (state_of known.now.keys known.now.bytes) (rel_of apart) (term_of t) (term_of u) }
{
    if apart {
        differ(known, t, u)
    } else {
        check_state::equal(known, t, u)
    }
}
