// Where forgetting begins: the first fact that it may change, which is one that names what is dropped, or has one term on both sides. The
// facts before it stay as they are.
#![tactic(auto, using(check_state::proofs::Whole::whole))]

mod keys;
mod sides;

ghost use Rattle.std.specs.Prelude.{◌≡◌, ℕ, ◌+◌, ◌*◌, ◌≤◌, Bool, false, nat_eq};
ghost use Rattle.check_equality.specs.Layout.{slots, left_sides};
ghost use Rattle.check_state.specs.States.{facts};
ghost use Rattle.check_scans.specs.Sides.{mentions_key, Tells};
ghost use Rattle.check_scans.specs.Scans.{same_sides, Scanned, NoPath, marked_key, path_key_of};

use check_equality::State;
use check_state::Known;
pub use keys::{mentions, rename};
pub use sides::{drop_path, drop_paths, drop_variable, rename_keys, swap_key};

// Has a fact one term on both sides, and is it an equality?
pub fn trivial(c: u8, left: u64, right: u64) -> bool
    ensures { result ≡ same_sides c left right }
{
    if left == right {
        return c != State::UNEQUAL;
    }
    false
}

// The first fact that has a side that passes, or one term on both sides; or the count of facts.
fn first_touched<'a, F: Fn(u64) -> bool>(known: &Known, passes: F) -> usize
    requires callable { F.IsAlwaysCallable passes }
    ensures { (test : ℕ → Bool) → Tells (F.post passes) test known.now.keys (left_sides + 2 * facts known.now.bytes) → Scanned test known.now.keys known.now.bytes result }
{
    let n = known.bytes[State::FACTS] as usize;
    for i in 0..n {
        let left = known.keys[State::LEFT + 2 * i];
        let right = known.keys[State::RIGHT + 2 * i];
        if passes(left) || passes(right) || left == right {
            return i;
        }
    }
    n
}

// The first fact that the key k's being dropped may change, or the count of facts.
pub fn first_with(known: &Known, k: u64) -> usize
    ensures { Scanned (λ l. nat_eq l k) known.now.keys known.now.bytes result }
{
    first_touched(known, |l| l == k)
}

// The first fact that x's being dropped or renamed may change, or the count of facts.
pub fn first_naming(known: &Known, x: u8) -> usize
    ensures { Scanned (mentions_key x) known.now.keys known.now.bytes result }
{
    first_touched(known, |l| keys::mentions(l, x))
}

// The first fact that the dropping of keys whose places are marked may change, or the count of facts.
pub fn first_marked(known: &Known, marks: &[bool; State::MARKS]) -> usize
    ensures { Scanned (marked_key marks.now) known.now.keys known.now.bytes result }
{
    first_touched(known, |l| marks[check_equality::place(l)])
}

// Does a key name x, and is it not x itself?
fn path_of(k: u64, x: u8) -> bool
    ensures { result ≡ path_key_of x k }
{
    if k == check_equality::variable_key(x) {
        return false;
    }
    keys::mentions(k, x)
}

// Is a path of x among the sides from slot `from` on?
pub fn has_path(key: &[u64; State::SLOTS], from: usize, m: usize, x: u8) -> bool
    requires { (from ≤ m) × (m ≤ slots) }
    ensures { result ≡ false → NoPath key.now from m x }
{
    for i in from..m {
        if path_of(key[i], x) {
            return true;
        }
    }
    false
}
