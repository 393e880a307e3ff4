// What a formula takes, and who holds it then. Chains are in `chains`, their walks in `walks`.
#![tactic(auto)]

mod chains;
mod walks;

ghost use Rattle.std.specs.Prelude.{◌≡◌, [], ◌∷◌, ◌+◌, ◌*◌, ◌≤◌, ◌<◌, take};
ghost use Rattle.rules.specs.Limits.{heap_fields};
ghost use Rattle.tables.specs.Numbers.{chain_atom};
ghost use Rattle.tables.specs.Layout.{most_names};
ghost use Rattle.tables.specs.Decode.{rel_of, atoms_from, atom_count, atom_at, atom_kind_at};
ghost use Rattle.tables.specs.Kinds.{kind_number};
ghost use Rattle.rules.specs.Machine.{compared};
ghost use Rattle.run_heap.specs.Views.{Readable, halves_at, answered};
ghost use Rattle.run_footprint.specs.Footprints.{test_in, share_size, cell_in, halves_in, part_by, taken_by, new_share, take_in, spread_one, spread, SharesFit, marked, footprint_shares, TookUpTo, TookOne, RoomAfter};

use chains::{chain_part, is_chain, mark_chain, take_chain};
use rules::Machine;
use run_heap::{Fault, View};
use tables::{Area, AtomKind};

// The shares of a footprint: each a cell times SHARE, and how many halves of it; or a chain, with the object and the field from and by which it goes
// for the cell, and for the halves the kind of its atom.
pub type Shares = [usize; SHARES];

// How many there can be: each atom of a formula takes one at most.
pub const SHARES: usize = Machine::ATOMS;

const SHARE: usize = 4;

// The bytes that say which remainders the cells of the shares taken have.
const SIEVE: usize = 64;

// Whether l and r compare as the kind of an atom says: `eq`, else `ne`.
#[tactic(auto, unfolding(tables::specs::Decode::rel_of, rules::specs::Machine::compared))]
pub fn compare(kind: AtomKind, l: u32, r: u32) -> bool
    ensures { result ≡ compared (rel_of (kind_number kind)) l r }
{
    match kind {
        AtomKind::Eq => l == r,
        _ => l != r,
    }
}

// The comparison of the atom a, "of two sides the left first", in a formula or the condition of an `if` or a `loop`. Inlined at both, because a formula
// takes twice as long where `footprint` calls it.
#[inline(always)]
pub fn condition(work: &Area, v: View, a: usize) -> Result<bool, Fault>
    requires { Readable work.now v × (a < atom_count work.now) }
    ensures { answered result ≡ test_in work.now v a }
{
    let l = run_heap::left(work, v, a)?;
    let r = run_heap::right(work, v, a)?;
    Ok(compare(tables::kind_of_atom(work, a), l, r))
}

// How many halves of the cell k, which is of a field f, the share s takes.
fn part_of(work: &Area, v: View, f: usize, s: usize, k: usize) -> usize
    requires { Readable work.now v × (f < most_names) }
    ensures { (result ≡ part_by work.now v.objects f k s) × (result < share_size) }
{
    if is_chain(s) {
        return chain_part(work, v, f, s, k);
    }
    if s / SHARE == k {
        return s % SHARE;
    }
    0
}

// How many of it the first n shares take.
fn taken(work: &Area, v: View, f: usize, shares: &Shares, n: usize, k: usize) -> usize
    requires { (Readable work.now v × (f < most_names)) × (n ≤ footprint_shares) }
    ensures { (result ≡ taken_by work.now v.objects f k (take n shares.now)) × (result < share_size * footprint_shares) }
{
    let mut t = 0;
    for i in 0..n {
        t += part_of(work, v, f, shares[i], k);
    }
    t
}

// Takes the share s, of a field f, after n others, some of which may be of its cell.
fn put_seen(
    work: &Area,
    v: View,
    f: usize,
    shares: &mut Shares,
    n: usize,
    s: usize,
) -> Result<usize, Fault>
    requires { ((Readable work.now v × (f < most_names)) × (cell_in s < heap_fields)) × (n < footprint_shares) }
    ensures { TookUpTo result shares.new (n + 1) (new_share work.now v f (halves_in s) (take n shares.old) (cell_in s)) }
{
    let k = s / SHARE;
    let t = s % SHARE + taken(work, v, f, shares, n, k);
    if run_heap::halves_held(work, v.holder, k) < t {
        return Err(Fault::Permission);
    }
    shares[n] = s;
    Ok(n + 1)
}

// Takes the share s, of a field f, which the view's number holds, after n others. Those are looked at only where the remainder of its cell by SIEVE has
// been seen.
fn put_share(
    work: &Area,
    v: View,
    f: usize,
    shares: &mut Shares,
    seen: &mut [u8; SIEVE],
    n: usize,
    s: usize,
) -> Result<usize, Fault>
    requires { (((Readable work.now v × (f < most_names)) × (cell_in s < heap_fields)) × (halves_in s ≤ halves_at work.now v.holder (cell_in s))) × RoomAfter shares.old seen.old n }
    ensures { TookOne result shares.new seen.new n (new_share work.now v f (halves_in s) (take n shares.old) (cell_in s)) }
{
    let r = s / SHARE % SIEVE;
    let b = seen[r];
    if b == 0 {
        seen[r] = 1;
        shares[n] = s;
        return Ok(n + 1);
    }
    put_seen(work, v, f, shares, n, s)
}

// `acc x f` or `read x f`, the atom a, after n shares: "of a null is 25, of a location not in A or already taken in this formula 24".
fn take_share(
    work: &Area,
    v: View,
    a: usize,
    shares: &mut Shares,
    seen: &mut [u8; SIEVE],
    n: usize,
) -> Result<usize, Fault>
    requires { (Readable work.now v × ((a < atom_count work.now) × (atom_kind_at work.now a < chain_atom))) × RoomAfter shares.old seen.old n }
    ensures { TookOne result shares.new seen.new n (take_in work.now v (atom_at work.now a ∷ []) (take n shares.old)) }
{
    let halves = tables::atom_halves(work, a);
    let x = tables::atom_variable(work, a);
    let f = tables::atom_field(work, a);
    let k = run_heap::locate(work, v, halves, x, f)?;
    put_share(work, v, f, shares, seen, n, k * SHARE + halves)
}

// The atom a, after n shares.
fn take_atom(
    work: &Area,
    v: View,
    a: usize,
    shares: &mut Shares,
    seen: &mut [u8; SIEVE],
    n: usize,
) -> Result<usize, Fault>
    requires { (Readable work.now v × (a < atom_count work.now)) × RoomAfter shares.old seen.old n }
    ensures { TookOne result shares.new seen.new n (take_in work.now v (atom_at work.now a ∷ []) (take n shares.old)) }
{
    match tables::kind_of_atom(work, a) {
        AtomKind::Read | AtomKind::Acc => take_share(work, v, a, shares, seen, n),
        AtomKind::Chain => take_chain(work, v, a, shares, seen, n),
        AtomKind::Eq | AtomKind::Ne => {
            let holds = condition(work, v, a)?;
            if holds {
                return Ok(n);
            }
            Err(Fault::False)
        }
    }
}

// "A formula's footprint is the locations that its `acc` atoms take", with W8 the halves that its `acc` and `read` do: n atoms from
// the first on.
pub fn footprint(
    work: &Area,
    v: View,
    first: usize,
    n: usize,
    shares: &mut Shares,
) -> Result<usize, Fault>
    requires { (Readable work.now v × (first + n ≤ atom_count work.now)) × (n ≤ footprint_shares) }
    ensures { TookUpTo result shares.new footprint_shares (take_in work.now v (atoms_from work.now first n) []) }
{
    let mut seen = [0u8; SIEVE];
    let mut count = 0;
    for i in 0..n {
        count = take_atom(work, v, first + i, shares, &mut seen, count)?;
    }
    Ok(count)
}

// The share s goes from the view's number to another.
fn mark_one(work: &mut Area, v: View, s: usize, to: u32)
    requires { Readable work.old v × SharesFit (spread_one work.old v.objects s) }
    ensures { work.new ≡ marked work.old (spread_one work.old v.objects s) v.holder to }
{
    if is_chain(s) {
        mark_chain(work, v, s, to);
        return;
    }
    run_heap::hand_over(work, s / SHARE, s % SHARE, v.holder, to);
}

// The first n shares do.
pub fn mark(work: &mut Area, v: View, shares: &Shares, n: usize, to: u32)
    requires { (Readable work.old v × (n ≤ footprint_shares)) × SharesFit (spread work.old v.objects (take n shares.now)) }
    ensures { work.new ≡ marked work.old (spread work.old v.objects (take n shares.now)) v.holder to }
{
    for i in 0..n {
        mark_one(work, v, shares[i], to);
    }
}
