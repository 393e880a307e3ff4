// The successor of a dropped term: the first term left that is ~ to it, in the order of variables, listed paths, null, numbers rising.
#![tactic(auto, using(check_state::proofs::Whole::whole))]

ghost use Rattle.std.specs.Prelude.{◌≡◌, ◌+◌, ◌*◌, ◌≤◌};
ghost use Rattle.rules.specs.Limits.{most_permissions};
ghost use Rattle.rules.proofs.Rising.{least};
ghost use Rattle.check_equality.specs.Layout.{slots, left_sides};
ghost use Rattle.check_state.specs.States.{slots_in};
ghost use Rattle.check_equality.specs.Keys.{first_number};
ghost use Rattle.check_equality.specs.Links.{Labelled};
ghost use Rattle.check_state.specs.Questions.{Told, FirstPlace};
ghost use Rattle.check_successors.specs.Successors.{number_or, Numbered, offset_of, lower_of, with_slot, number_with, number_at_side, MarksLike, path_test, entry_path_test, IsSuccessor, least_number};

use check_equality::State;
use check_state::Known;
use rules::Machine;

// How many numbers 32 bits hold, and the first that is negative.
const WORDS: u64 = 4294967296;

const SIGN: u64 = 2147483648;

// The place of a number's key in rising order.
fn order(k: u64) -> u64
    requires { first_number ≤ k }
    ensures { result ≡ offset_of k }
{
    ((k - State::FIRST_NUMBER) % WORDS + SIGN) % WORDS
}

// The lower of two numbers' keys, where there may be one alone.
fn lower(k: u64, least: Option<u64>) -> u64
    requires { (first_number ≤ k) × Numbered least }
    ensures { result ≡ lower_of k least }
{
    let Some(l) = least else {
        return k;
    };
    if order(k) < order(l) {
        return k;
    }
    l
}

// One side more, with the key k and the label c.
fn number_step(best: Option<u64>, k: u64, c: u8, t: u64, a: u8) -> Option<u64>
    requires { Numbered best }
    ensures { (result ≡ with_slot best k c t a) × Numbered result }
{
    if check_inequality::number_like(k, c, t, a) {
        return Some(lower(k, best));
    }
    best
}

// Is k the key of a number, and its label a?
fn number_at(k: u64, c: u8, a: u8) -> bool
    ensures { result ≡ number_with k c a }
{
    if c == a {
        return State::FIRST_NUMBER <= k;
    }
    false
}

// The first of n sides that is a number with the label a, or n.
fn first_number(known: &Known, n: usize, a: u8) -> usize
    requires { left_sides + n ≤ slots }
    ensures { FirstPlace (number_at_side known.now.keys known.now.bytes a) n result }
{
    for i in 0..n {
        if number_at(known.keys[State::LEFT + i], known.bytes[State::LEFT + i], a) {
            return i;
        }
    }
    n
}

// The key of the least number that is ~ the term of t among the first n sides.
fn least_number(known: &Known, n: usize, t: u64, a: u8) -> Option<u64>
    requires { Labelled known.now.keys known.now.bytes (slots_in known.now.bytes) t a × (left_sides + n ≤ slots_in known.now.bytes) }
    ensures { Numbered result × Told known.now.keys known.now.bytes (slots_in known.now.bytes) (λ same. number_or result ≡ least_number same known.now.keys n t) }
{
    let mut best = None;
    for i in first_number(known, n, a)..n {
        best = number_step(
            best,
            known.keys[State::LEFT + i],
            known.bytes[State::LEFT + i],
            t,
            a,
        );
    }
    best
}

// The places of the key t and of the keys of the sides with the label a: every path that is ~ the term of t has one of them.
fn marks_like(known: &Known, t: u64, a: u8, marks: &mut [bool; State::MARKS])
    ensures { MarksLike known.now.keys known.now.bytes (slots_in known.now.bytes) t a marks.new }
{
    check_equality::mark(marks, true, t);
    for i in State::LEFT..known.slots() {
        check_equality::mark(marks, known.bytes[i] == a, known.keys[i]);
    }
}

// Is the path x.f left, and ~ the term of t?
fn path_like(
    known: &Known,
    marks: &[bool; State::MARKS],
    left: bool,
    x: u8,
    f: u8,
    t: u64,
    a: u8,
) -> bool
    requires { Labelled known.now.keys known.now.bytes (slots_in known.now.bytes) t a × MarksLike known.now.keys known.now.bytes (slots_in known.now.bytes) t a marks.now }
    ensures { Told known.now.keys known.now.bytes (slots_in known.now.bytes) (λ same. result ≡ path_test same left x f t) }
{
    if !left {
        return false;
    }
    let k = check_equality::path_key(x, f);
    let p = check_equality::place(k);
    if !marks[p] {
        return false;
    }
    let c = known.label_of(k);
    check_equality::alike(k, c, t, a)
}

// The first of n entries that is a path, not to be skipped and ~ the term of t, or n.
fn first_entry(known: &Known, skip: &[bool; Machine::PERMISSIONS], n: usize, t: u64, a: u8) -> usize
    requires { Labelled known.now.keys known.now.bytes (slots_in known.now.bytes) t a × (n ≤ most_permissions) }
    ensures { Told known.now.keys known.now.bytes (slots_in known.now.bytes) (λ same. FirstPlace (entry_path_test same known.now.bytes skip.now t) n result) }
{
    let mut marks = [false; State::MARKS];
    marks_like(known, t, a, &mut marks);
    for i in 0..n {
        if path_like(
            known,
            &marks,
            !skip[i] & (known.bytes[State::KINDS + i] < State::CHAIN),
            known.bytes[State::VARIABLES + i],
            known.bytes[State::FIELDS + i],
            t,
            a,
        ) {
            return i;
        }
    }
    n
}

// The first term left that is ~ the term of t, whose label is a: x is not left (NO_VARIABLE: every variable is), nor are the paths of
// the entries to be skipped.
pub fn successor(
    known: &Known,
    skip: &[bool; Machine::PERMISSIONS],
    x: u8,
    t: u64,
    a: u8,
) -> Option<u64>
    requires { Labelled known.now.keys known.now.bytes (slots_in known.now.bytes) t a }
    ensures { IsSuccessor known.now.keys known.now.bytes skip.now x t result }
{
    let n = 2 * (known.bytes[State::FACTS] as usize);
    let v = check_state::first_variable(known, x, t, a);
    if v < State::VARIABLE_COUNT {
        return Some(check_equality::variable_key(v));
    }
    let p = known.bytes[State::ENTRIES] as usize;
    let i = first_entry(known, skip, p, t, a);
    if i < p {
        return Some(check_equality::path_key(
            known.bytes[State::VARIABLES + i],
            known.bytes[State::FIELDS + i],
        ));
    }
    if check_equality::alike(State::NULL_KEY, known.bytes[State::NULL], t, a) {
        return Some(State::NULL_KEY);
    }
    least_number(known, n, t, a)
}
