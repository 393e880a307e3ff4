// Marks, one for each place of a key: a key whose place is not marked is in no slot from LEFT on.
ghost use Rattle.std.specs.Prelude.{◌≡◌, ◌+◌, ◌≤◌, ◌<◌};
ghost use Rattle.check_equality.specs.Layout.{slots, left_sides, mark_count};
ghost use Rattle.check_equality.specs.Links.{Header, Labelled, Pushed, Marks, Marked, place_of};

use crate::{State, slots};

// A place among the marks for each key.
pub fn place(k: u64) -> usize
    ensures { (result ≡ place_of k) × (result < mark_count) }
{
    let n = State::MARKS as u64;
    ((k / State::MARK_FOLD + k % n) % n) as usize
}

// Marks the place of a key, or not.
pub fn mark(marks: &mut [bool; State::MARKS], yes: bool, k: u64)
    ensures { Marks yes k marks.old marks.new }
{
    if yes {
        let p = place(k);
        marks[p] = true;
    }
}

// The label of the slot that holds the key, NO_LABEL where none does: none does where the key's place is not marked.
fn label_marked<'a>(
    key: &'a [u64; State::SLOTS],
    label: &'a [u8; State::BYTES],
    marks: &'a [bool; State::MARKS],
    m: usize,
    k: u64,
) -> u8
    requires { (left_sides ≤ m) × (m ≤ slots) × Header key.now × Marked key.now marks.now m }
    ensures { Labelled key.now label.now m k result }
{
    if k < State::VARIABLE_KEYS {
        let i = k as usize;
        return label[i];
    }
    if k == State::NULL_KEY {
        return label[State::NULL];
    }
    let p = place(k);
    if marks[p] {
        return slots::label_from(key, label, m, k);
    }
    State::NO_LABEL
}

// As `push`, where the places of all keys from slot LEFT on are marked.
pub fn push_marked(
    key: &mut [u64; State::SLOTS],
    label: &mut [u8; State::BYTES],
    marks: &mut [bool; State::MARKS],
    m: usize,
    ne: bool,
    left: u64,
    right: u64,
)
    requires { (left_sides ≤ m) × (m + 2 ≤ slots) × Header key.old × Marked key.old marks.old m }
    ensures { Pushed key.old label.old m ne left right key.new label.new × Marked key.new marks.new (m + 2) }
{
    let l = label_marked(key, label, marks, m, left);
    slots::add_slot(key, label, m, left, l);
    let p = place(left);
    marks[p] = true;
    let r = label_marked(key, label, marks, m + 1, right);
    slots::add_slot(key, label, m + 1, right, r);
    let q = place(right);
    marks[q] = true;
    slots::link_unless(label, m, ne);
}
