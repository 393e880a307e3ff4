// Who holds the cells. Each has two words side by side: for each half the number of the frame that has it, 0 for nobody.
ghost use Rattle.std.specs.Prelude.{◌≡◌, ◌<◌, ◌==◌, nat_le};
ghost use Rattle.rules.specs.Limits.{heap_fields};
ghost use Rattle.run_heap.specs.Views.{first_holder, second_holder, one, halves_at, Halves, held_cell, whole, whole_put, half_put, handed, answered};

use crate::{Fault, Stores};
use tables::{Area, Layout};

// Both holders as one number: what the second counts, and what the number that holds both does.
const SECOND: u64 = 4294967296;

const BOTH: u64 = SECOND + 1;

#[tactic(auto, unfolding(crate::specs::Views::first_holder))]
fn first_holder(work: &Area, k: usize) -> u32
    requires { k < heap_fields }
    ensures { result ≡ first_holder work.now k }
{
    tables::word_at(work, Layout::HOLDERS + k * Stores::HOLDER_BYTES)
}

#[tactic(auto, unfolding(crate::specs::Views::second_holder))]
fn second_holder(work: &Area, k: usize) -> u32
    requires { k < heap_fields }
    ensures { result ≡ second_holder work.now k }
{
    tables::word_at(
        work,
        Layout::HOLDERS + k * Stores::HOLDER_BYTES + Stores::WORD_BYTES,
    )
}

// Whether h holds both halves of the cell k, by one comparison.
fn holds_whole(work: &Area, h: u32, k: usize) -> bool
    requires { k < heap_fields }
    ensures { result ≡ nat_le whole (halves_at work.now h k) }
{
    let a = first_holder(work, k);
    let b = second_holder(work, k);
    if a as u64 + b as u64 * SECOND == h as u64 * BOTH {
        return true;
    }
    false
}

// Whether h holds one of them.
fn holds_half(work: &Area, h: u32, k: usize) -> bool
    requires { k < heap_fields }
    ensures { result ≡ nat_le 1 (halves_at work.now h k) }
{
    if first_holder(work, k) == h {
        return true;
    }
    if second_holder(work, k) == h {
        return true;
    }
    false
}

// Whether h holds n halves of it.
fn holds(work: &Area, h: u32, n: usize, k: usize) -> bool
    requires { (k < heap_fields) × Halves n }
    ensures { result ≡ nat_le n (halves_at work.now h k) }
{
    if n == Stores::WHOLE {
        return holds_whole(work, h, k);
    }
    holds_half(work, h, k)
}

// The cell, if h holds n halves of it.
pub fn held_cell(work: &Area, h: u32, n: usize, k: usize) -> Result<usize, Fault>
    requires { (k < heap_fields) × Halves n }
    ensures { answered result ≡ held_cell work.now h n k }
{
    if holds(work, h, n, k) {
        return Ok(k);
    }
    Err(Fault::Permission)
}

#[tactic(auto, unfolding(crate::specs::Views::one))]
fn one_if(a: u32, h: u32) -> usize
    ensures { (result ≡ one (a == h)) × (result < 2) }
{
    if a == h {
        return 1;
    }
    0
}

// How many halves of the cell k are with h.
#[tactic(auto, unfolding(crate::specs::Views::halves_at))]
pub fn halves_held(work: &Area, h: u32, k: usize) -> usize
    requires { k < heap_fields }
    ensures { result ≡ halves_at work.now h k }
{
    one_if(first_holder(work, k), h) + one_if(second_holder(work, k), h)
}

#[tactic(auto, unfolding(crate::specs::Views::whole_put))]
fn put_whole(work: &mut Area, k: usize, h: u32)
    requires { k < heap_fields }
    ensures { work.new ≡ whole_put work.old k h }
{
    let at = Layout::HOLDERS + k * Stores::HOLDER_BYTES;
    tables::put_word(work, at, h);
    tables::put_word(work, at + Stores::WORD_BYTES, h);
}

// The first half that is with a number goes to another.
#[tactic(auto, unfolding(crate::specs::Views::half_put))]
fn put_half(work: &mut Area, k: usize, from: u32, to: u32)
    requires { k < heap_fields }
    ensures { work.new ≡ half_put work.old k from to }
{
    let at = Layout::HOLDERS + k * Stores::HOLDER_BYTES;
    if first_holder(work, k) == from {
        tables::put_word(work, at, to);
        return;
    }
    tables::put_word(work, at + Stores::WORD_BYTES, to);
}

// Hands n halves of the cell k over, from the number that holds them to another.
#[tactic(auto, unfolding(crate::specs::Views::handed))]
pub fn hand_over(work: &mut Area, k: usize, n: usize, from: u32, to: u32)
    requires { k < heap_fields }
    ensures { work.new ≡ handed work.old k n from to }
{
    if n < Stores::WHOLE {
        put_half(work, k, from, to);
        return;
    }
    put_whole(work, k, to);
}
