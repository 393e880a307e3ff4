// The label of a term by its slot, and one more fact: its sides take two slots, and are linked. The labels are the first bytes of `label`,
// one for each slot; what stands after them stays as it is.
ghost use Rattle.std.specs.Prelude.{◌≡◌, cond, ◌||◌, eqb, ◌+◌, ◌≤◌, ◌<◌};
ghost use Rattle.check_equality.specs.Layout.{slots, left_sides};
ghost use Rattle.check_equality.specs.Links.{Header, Labelled, Missing, Past, Merged, Joined, LinkedUnless, Slotted, Pushed, alike_by, no_label};

use crate::State;

// Is one of four keys k?
fn one_of(a: u64, b: u64, c: u64, d: u64, k: u64) -> bool
    ensures { result ≡ (((eqb a k || eqb b k) || eqb c k) || eqb d k) }
{
    (a == k) | (b == k) | (c == k) | (d == k)
}

// So many slots are looked at together.
const BLOCK: usize = 4;

// A slot from LEFT on before which none holds the key: the last block may.
fn past(key: &[u64; State::SLOTS], m: usize, k: u64) -> usize
    requires { (left_sides ≤ m) × (m ≤ slots) }
    ensures { Past key.now m k result }
{
    let blocks = (m - State::LEFT) / BLOCK;
    for n in 0..blocks {
        let i = State::LEFT + n * BLOCK;
        if one_of(key[i], key[i + 1], key[i + 2], key[i + 3], k) {
            return i;
        }
    }
    State::LEFT + blocks * BLOCK
}

// The label of the slot from LEFT on that holds the key.
pub fn label_from<'a>(
    key: &'a [u64; State::SLOTS],
    label: &'a [u8; State::BYTES],
    m: usize,
    k: u64,
) -> u8
    requires { (left_sides ≤ m) × (m ≤ slots) × Missing key.now left_sides k no_label }
    ensures { Labelled key.now label.now m k result }
{
    for i in past(key, m, k)..m {
        if key[i] == k {
            return label[i];
        }
    }
    State::NO_LABEL
}

// The label of the slot that holds the key, NO_LABEL where none does.
pub fn label_of<'a>(
    key: &'a [u64; State::SLOTS],
    label: &'a [u8; State::BYTES],
    m: usize,
    k: u64,
) -> u8
    requires { (left_sides ≤ m) × (m ≤ slots) × Header key.now }
    ensures { Labelled key.now label.now m k result }
{
    if k < State::VARIABLE_KEYS {
        let i = k as usize;
        return label[i];
    }
    if k == State::NULL_KEY {
        return label[State::NULL];
    }
    label_from(key, label, m, k)
}

// A value, or `to` where it is `from`.
pub fn pick<T: Copy + PartialEq>(l: T, from: T, to: T) -> T
    ensures { result ≡ cond (T.eq l from) to l }
{
    if l == from { to } else { l }
}

// The label `to` for each label `from`.
fn merge(label: &mut [u8; State::BYTES], from: u8, to: u8)
    ensures { Merged from to label.old label.new }
{
    for i in 0..State::SLOTS {
        label[i] = pick(label[i], from, to);
    }
}

// A new slot's label: that of its term, or else its own number.
fn new_label(l: u8, m: usize) -> u8
    requires { m < slots }
    ensures { result ≡ cond (eqb l no_label) m l }
{
    if l == State::NO_LABEL { m as u8 } else { l }
}

// The term in the slot m, the first that is free, where l is its label, or NO_LABEL.
pub fn add_slot(
    key: &mut [u64; State::SLOTS],
    label: &mut [u8; State::BYTES],
    m: usize,
    k: u64,
    l: u8,
)
    requires { (left_sides ≤ m) × (m < slots) × Header key.old × Labelled key.old label.old m k l }
    ensures { Slotted key.old label.old m k key.new label.new }
{
    key[m] = k;
    label[m] = new_label(l, m);
}

// The terms in the slots m and m + 1 are equal. A new term, which has its slot's own number, takes the label of the other.
fn link(label: &mut [u8; State::BYTES], m: usize)
    requires { m + 2 ≤ slots }
    ensures { Joined m label.old label.new }
{
    let to = label[m];
    let from = label[m + 1];
    if to == m as u8 {
        label[m] = from;
        return;
    }
    if from == (m + 1) as u8 {
        label[m + 1] = to;
        return;
    }
    merge(label, to, from);
}

// The terms in the slots m and m + 1 are equal, unless `ne`.
pub fn link_unless(label: &mut [u8; State::BYTES], m: usize, ne: bool)
    requires { m + 2 ≤ slots }
    ensures { LinkedUnless ne m label.old label.new }
{
    if !ne {
        link(label, m);
    }
}

// One more fact, whose sides take the slots m and m + 1.
pub fn push(
    key: &mut [u64; State::SLOTS],
    label: &mut [u8; State::BYTES],
    m: usize,
    ne: bool,
    left: u64,
    right: u64,
)
    requires { (left_sides ≤ m) × (m + 2 ≤ slots) × Header key.old }
    ensures { Pushed key.old label.old m ne left right key.new label.new }
{
    let l = label_of(key, label, m, left);
    add_slot(key, label, m, left, l);
    let r = label_of(key, label, m + 1, right);
    add_slot(key, label, m + 1, right, r);
    link_unless(label, m, ne);
}

// Are the terms of two keys with their labels ~?
pub fn alike(k: u64, a: u8, l: u64, b: u8) -> bool
    ensures { result ≡ alike_by k a l b }
{
    if a == State::NO_LABEL { k == l } else { a == b }
}
