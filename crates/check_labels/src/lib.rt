// The facts of which no side is gone, with labels. Kept labels: where terms are dropped, those left are ~ after exactly if they were before,
// so nothing is linked anew.
#![tactic(auto)]

mod anew;

ghost use Rattle.std.specs.Prelude.{◌≡◌, ℕ, ◌+◌, ◌*◌, Bool, true, false, ◌||◌, ◌≤◌, ◌<◌, slice_index_or};
ghost use Rattle.rules.specs.Limits.{most_facts};
ghost use Rattle.check_equality.specs.Layout.{slots, left_sides, right_sides};
ghost use Rattle.check_state.specs.States.{facts};
ghost use Rattle.check_scans.specs.Scans.{Untouched, trivial_at};
ghost use Rattle.check_labels.specs.Facts.{Rebuilt};
ghost use Rattle.check_labels.specs.Labels.{Lone, lone_of, LabelsBelow, Named, Relabelled, LabelsFit, with_label, fitting, MovesFact, even, Whole, Keeps};

pub use anew::{fresh, rebuild};
use check_equality::State;

// Is a side of the fact i gone, or is it an equality with one term on both sides?
fn is_out<'a>(
    key: &'a [u64; State::SLOTS],
    b: &'a [u8; State::BYTES],
    gone: &'a [bool; State::SLOTS],
    i: usize,
) -> bool
    requires { i < most_facts }
    ensures { result ≡ ((slice_index_or gone.now (left_sides + 2 * i) false || slice_index_or gone.now (right_sides + 2 * i) false) || trivial_at key.now b.now i) }
{
    let l = State::LEFT + 2 * i;
    let r = State::RIGHT + 2 * i;
    gone[l] | gone[r] | check_scans::trivial(b[State::RELATIONS + i], key[l], key[r])
}

// x, or NO_VARIABLE where it is no variable.
fn lone(x: u8) -> u8
    ensures { result ≡ lone_of x }
{
    if x < State::VARIABLE_COUNT {
        x
    } else {
        State::NO_VARIABLE
    }
}

// The new label of slot j, which had the label a: `name` has the new labels by the old ones, NO_LABEL for none yet (bytes, since Options
// would take twice the room). That of x is its own.
fn new_label(name: &mut [u8; State::SLOTS], j: usize, a: u8, x: u8) -> u8
    requires { (j < slots) × (a < slots) }
    ensures { Named j a x name.old name.new result }
{
    let own = j as u8;
    if own == x {
        return own;
    }
    let i = a as usize;
    let l = name[i];
    if l == State::NO_LABEL {
        name[i] = own;
        return own;
    }
    l
}

// The labels of the slots up to m, numbered anew by the first slot with each; x is alone.
fn relabel(b: &mut [u8; State::BYTES], m: usize, x: u8)
    requires { Lone x × (m ≤ slots) × LabelsBelow b.old m }
    ensures { Relabelled b.old m x b.new }
{
    let mut name = [State::NO_LABEL; State::SLOTS];
    for i in 0..m {
        let a = b[i];
        b[i] = new_label(&mut name, i, a, x);
    }
}

// Does each place from `from` to n pass? All are tried: with no early end the loop runs on several at a time.
fn every<F: Fn(usize) -> bool>(from: usize, n: usize, passes: F) -> bool
    requires { (i : ℕ) → from ≤ i → i < n → F.pre passes i }
    ensures { (test : ℕ → Bool) → ((i : ℕ) (r : Bool) → from ≤ i → i < n → F.post passes i r → r ≡ test i) → result ≡ true → (i : ℕ) → from ≤ i → i < n → test i ≡ true }
{
    let mut good = true;
    for i in from..n {
        good = good & passes(i);
    }
    good
}

// Is a label below m, and not x's?
fn fit(l: u8, m: u8, x: u8) -> bool
    ensures { result ≡ fitting m x l }
{
    (l < m) & (l != x)
}

// Are all labels?
fn fits(b: &[u8; State::BYTES], m: usize, x: u8) -> bool
    requires { m ≤ slots }
    ensures { result ≡ true → LabelsFit b.now m m x }
{
    let top = m as u8;
    every(0, m, |i| fit(b[i], top, x))
}

// The label of the variable x, if it is one.
fn set_label(b: &mut [u8; State::BYTES], x: u8, l: u8)
    ensures { b.new ≡ with_label x l b.old }
{
    if x < State::VARIABLE_COUNT {
        let i = x as usize;
        b[i] = l;
    }
}

// As `relabel`; the labels stay where they fit.
fn keep_labels(b: &mut [u8; State::BYTES], m: usize, x: u8)
    requires { Lone x × (left_sides ≤ m) × (m ≤ slots) × LabelsBelow b.old m }
    ensures { Relabelled b.old m x b.new }
{
    set_label(b, x, 0);
    if fits(b, m, x) {
        set_label(b, x, x);
        return;
    }
    relabel(b, m, x);
}

// The fact i in place n, unless it is out; the count of facts then.
fn move_fact(
    key: &mut [u64; State::SLOTS],
    b: &mut [u8; State::BYTES],
    n: usize,
    out: bool,
    i: usize,
) -> usize
    requires { (n ≤ i) × (i < most_facts) }
    ensures { MovesFact key.old b.old n out i key.new b.new result }
{
    if out {
        return n;
    }
    let left = key[State::LEFT + 2 * i];
    let right = key[State::RIGHT + 2 * i];
    let one = b[State::LEFT + 2 * i];
    let other = b[State::RIGHT + 2 * i];
    let c = b[State::RELATIONS + i];
    key[State::LEFT + 2 * n] = left;
    key[State::RIGHT + 2 * n] = right;
    b[State::LEFT + 2 * n] = one;
    b[State::RIGHT + 2 * n] = other;
    b[State::RELATIONS + n] = c;
    n + 1
}

// Are both sides of a fact gone, or none, or is it an inequality?
fn both(c: u8, g: bool, h: bool) -> bool
    ensures { result ≡ even c g h }
{
    if c == State::UNEQUAL {
        return true;
    }
    if g {
        return h;
    }
    !h
}

// Is that so for the facts from `from` on?
pub fn whole<'a>(b: &'a [u8; State::BYTES], gone: &'a [bool; State::SLOTS], from: usize) -> bool
    requires { (from ≤ facts b.now) × (facts b.now ≤ most_facts) }
    ensures { result ≡ true → Whole b.now gone.now from (facts b.now) }
{
    let n = b[State::FACTS] as usize;
    every(from, n, |i| {
        both(
            b[State::RELATIONS + i],
            gone[State::LEFT + 2 * i],
            gone[State::RIGHT + 2 * i],
        )
    })
}

// The facts of which no side is gone, but for equalities with one term on both sides, with their labels; x is alone. Those before
// `from` stay.
pub fn repack(
    key: &mut [u64; State::SLOTS],
    b: &mut [u8; State::BYTES],
    gone: &[bool; State::SLOTS],
    from: usize,
    x: u8,
)
    requires { Keeps key.old b.old gone.now x × Untouched key.old b.old gone.now from }
    ensures { Rebuilt key.old b.old gone.now key.new b.new }
{
    let all = b[State::FACTS] as usize;
    let mut n = from;
    for i in from..all {
        let out = is_out(key, b, gone, i);
        n = move_fact(key, b, n, out, i);
    }
    b[State::FACTS] = n as u8;
    keep_labels(b, State::LEFT + 2 * n, lone(x));
}
