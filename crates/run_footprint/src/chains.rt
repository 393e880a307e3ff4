// W9: what a formula takes by chains. A chain's cells are not listed: whoever asks for them walks again.
ghost use Rattle.std.specs.Prelude.{◌≡◌, ◌&&◌, [], ◌∷◌, ◌≤◌, ◌<◌, eqb, take};
ghost use Rattle.rules.specs.Base.{any};
ghost use Rattle.tables.specs.Numbers.{chain_atom};
ghost use Rattle.tables.specs.Layout.{most_names};
ghost use Rattle.tables.specs.Decode.{atom_count, atom_at, atom_kind_at};
ghost use Rattle.run_heap.specs.Views.{whole, Readable};
ghost use Rattle.run_heap.specs.Chains.{cells_by};
ghost use Rattle.run_footprint.specs.Footprints.{is_chain, start_in, field_in, chain_part, ends_by, new_chain, chain_marked, take_in, footprint_shares, AllSeen, TookOne, RoomAfter};

use crate::walks::{one_of, walk_after};
use crate::{SHARE, SIEVE, Shares};
use run_heap::{Fault, Stores, View};
use tables::{Area, AtomKind, Layout};

// So many values have the objects' numbers.
const WORDS: usize = 4294967296;

// Whether a share is a chain.
pub fn is_chain(s: usize) -> bool
    ensures { result ≡ is_chain s }
{
    s % SHARE == AtomKind::Chain as usize
}

// The object from which it goes.
fn start_of(s: usize) -> u32
    ensures { result ≡ start_in s }
{
    (s / SHARE / Layout::FIELD_NAMES % WORDS) as u32
}

// The field by which it goes.
fn field_of(s: usize) -> usize
    ensures { result ≡ field_in s }
{
    s / SHARE % Layout::FIELD_NAMES
}

// Whether the cells by f from the object o have the cell k among them.
fn passes(work: &Area, v: View, f: usize, o: u32, k: usize) -> bool
    requires { Readable work.now v × (f < most_names) }
    ensures { result ≡ any (eqb k) (cells_by work.now v.objects f v.objects o) }
{
    let mut at = o;
    for _i in 0..v.objects {
        let Ok(j) = run_heap::cell_of(work, v, at, f) else {
            return false;
        };
        if j == k {
            return true;
        }
        at = run_heap::cell_value(work, j);
    }
    false
}

// How many halves of the cell k, which is of a field f, the chain s takes: one by another field has none of its cells.
pub fn chain_part(work: &Area, v: View, f: usize, s: usize, k: usize) -> usize
    requires { Readable work.now v × (f < most_names) }
    ensures { (result ≡ chain_part work.now v.objects f k s) × (result ≤ whole) }
{
    if field_of(s) != f {
        return 0;
    }
    if passes(work, v, f, start_of(s), k) {
        return Stores::WHOLE;
    }
    0
}

// Whether a share is a chain by f.
fn chain_by(s: usize, f: usize) -> bool
    ensures { result ≡ (is_chain s && eqb (field_in s) f) }
{
    if is_chain(s) {
        return field_of(s) == f;
    }
    false
}

// Whether it is one whose last object is `last`.
fn ends_by(work: &Area, v: View, f: usize, s: usize, last: u32) -> bool
    requires { Readable work.now v × (f < most_names) }
    ensures { result ≡ ends_by work.now v f last s }
{
    if chain_by(s, f) {
        return match run_heap::walk(work, v, f, start_of(s)) {
            Ok(l) => l == last,
            Err(_) => false,
        };
    }
    false
}

// Whether one of the first n shares is.
fn ends_at(work: &Area, v: View, f: usize, shares: &Shares, n: usize, last: u32) -> bool
    requires { (Readable work.now v × (f < most_names)) × (n ≤ footprint_shares) }
    ensures { result ≡ any (ends_by work.now v f last) (take n shares.now) }
{
    one_of(shares, n, |s| ends_by(work, v, f, s, last))
}

// Every remainder has been seen.
fn fill_seen(seen: &mut [u8; SIEVE])
    ensures { AllSeen seen.new }
{
    *seen = [1; SIEVE];
}

// Takes the chain s, whose walk came to null from the object `last`, after n shares.
fn put_chain(
    work: &Area,
    v: View,
    shares: &mut Shares,
    seen: &mut [u8; SIEVE],
    n: usize,
    s: usize,
    last: u32,
) -> Result<usize, Fault>
    requires { Readable work.now v × RoomAfter shares.old seen.old n }
    ensures { TookOne result shares.new seen.new n (new_chain work.now v (take n shares.old) s last) }
{
    if ends_at(work, v, field_of(s), shares, n, last) {
        return Err(Fault::Permission);
    }
    fill_seen(seen);
    shares[n] = s;
    Ok(n + 1)
}

// `chain x f`, the atom a, after n shares. That of null takes nothing.
pub fn take_chain(
    work: &Area,
    v: View,
    a: usize,
    shares: &mut Shares,
    seen: &mut [u8; SIEVE],
    n: usize,
) -> Result<usize, Fault>
    requires { (Readable work.now v × ((a < atom_count work.now) × (atom_kind_at work.now a ≡ chain_atom))) × RoomAfter shares.old seen.old n }
    ensures { TookOne result shares.new seen.new n (take_in work.now v (atom_at work.now a ∷ []) (take n shares.old)) }
{
    let b = v.base;
    let x = tables::atom_variable(work, a);
    let f = tables::atom_field(work, a);
    let o = run_heap::variable(work, b, x);
    if o == 0 {
        return Ok(n);
    }
    let s = (o as usize * Layout::FIELD_NAMES + f) * SHARE + AtomKind::Chain as usize;
    let last = walk_after(work, v, f, o, shares, seen, n)?;
    put_chain(work, v, shares, seen, n, s, last)
}

// The cells of the chain s go from the view's number to another.
pub fn mark_chain(work: &mut Area, v: View, s: usize, to: u32)
    requires { Readable work.old v }
    ensures { work.new ≡ chain_marked work.old v.objects (field_in s) v.objects (start_in s) v.holder to }
{
    let f = field_of(s);
    let mut at = start_of(s);
    let c = run_heap::cache_of(work, v, f, at);
    for _i in 0..v.objects {
        let Ok(k) = run_heap::cell_by(work, v, c, at, f) else {
            return;
        };
        at = run_heap::cell_value(work, k);
        run_heap::hand_over(work, k, Stores::WHOLE, v.holder, to);
    }
}
