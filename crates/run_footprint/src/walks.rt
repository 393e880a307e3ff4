// W9: the walk of a chain, beside the shares that a formula has taken already.
ghost use Rattle.std.specs.Prelude.{◌≡◌, ℕ, suc, ◌≤◌, ◌<◌, Bool, take};
ghost use Rattle.rules.specs.Base.{any};
ghost use Rattle.tables.specs.Layout.{most_names};
ghost use Rattle.run_heap.specs.Views.{Readable, answered};
ghost use Rattle.run_heap.specs.Chains.{Answers, walk_in};
ghost use Rattle.run_footprint.specs.Footprints.{share_at, free_of, footprint_shares, RoomAfter};

use crate::chains::is_chain;
use crate::{SHARE, SIEVE, Shares};
use run_heap::{Fault, View};
use tables::Area;

// Whether a share is of the cell k.
fn share_at(s: usize, k: usize) -> bool
    ensures { result ≡ share_at k s }
{
    if is_chain(s) {
        return false;
    }
    s / SHARE == k
}

// Whether one of the first n shares passes a test.
pub fn one_of<F: Fn(usize) -> bool>(shares: &Shares, n: usize, passes: F) -> bool
    requires { (n ≤ footprint_shares) × F.IsAlwaysCallable passes }
    ensures { (test : ℕ → Bool) → Answers (F.post passes) test → result ≡ any test (take n shares.now) }
{
    for i in 0..n {
        if passes(shares[i]) {
            return true;
        }
    }
    false
}

// Whether one of the first n shares is.
fn shared(shares: &Shares, n: usize, k: usize) -> bool
    requires { n ≤ footprint_shares }
    ensures { result ≡ any (share_at k) (take n shares.now) }
{
    one_of(shares, n, |s| share_at(s, k))
}

// The same, where they are looked at only if the remainder of k has been seen.
fn seen_shared(shares: &Shares, seen: &[u8; SIEVE], n: usize, k: usize) -> bool
    requires { RoomAfter shares.now seen.now n }
    ensures { result ≡ any (share_at k) (take n shares.now) }
{
    let r = k % SIEVE;
    let b = seen[r];
    if b == 0 {
        return false;
    }
    shared(shares, n, k)
}

// The walk of a chain beside n shares: "24 at one .. taken by an earlier atom". Where there are none, they need not be asked at each object.
pub fn walk_after(
    work: &Area,
    v: View,
    f: usize,
    o: u32,
    shares: &Shares,
    seen: &[u8; SIEVE],
    n: usize,
) -> Result<u32, Fault>
    requires { (Readable work.now v × (f < most_names)) × RoomAfter shares.now seen.now n }
    ensures { answered result ≡ walk_in work.now v (free_of (take n shares.now)) f (suc v.objects) o 0 }
{
    if n == 0 {
        return run_heap::walk_strided(work, v, f, o);
    }
    run_heap::walk_by(work, v, f, o, |k| !seen_shared(shares, seen, n, k))
}
