// The sides of the facts, in the slots from LEFT to m, that are dropped: `gone` has the flag i where the side in slot i is. And those that
// are renamed: the new key is stored where the old one stood.
ghost use Rattle.std.specs.Prelude.{◌≡◌, ℕ, ◌≤◌, Bool, length, nat_eq};
ghost use Rattle.check_equality.specs.Layout.{slots, left_sides};
ghost use Rattle.check_equality.specs.Links.{Header, picked};
ghost use Rattle.check_entries.specs.PathsOut.{key_dropped, OutMarked};
ghost use Rattle.check_scans.specs.Sides.{renamed_key, mentions_key, Dropped, MappedKeys, Tells};

use crate::keys;
use check_equality::State;
use check_state::Known;
use rules::Machine;

// The sides from slot `from` on that pass are dropped, the others not.
fn drop_sides<'a, F: Fn(u64) -> bool>(
    key: &'a [u64; State::SLOTS],
    from: usize,
    m: usize,
    passes: F,
    gone: &mut [bool; State::SLOTS],
)
    requires within { (left_sides ≤ from) × (m ≤ slots) × (length gone.old ≡ slots) }
    requires callable { F.IsAlwaysCallable passes }
    ensures { (test : ℕ → Bool) → Tells (F.post passes) test key.now m → Dropped test key.now from gone.old → Dropped test key.now m gone.new }
{
    for i in from..m {
        gone[i] = passes(key[i]);
    }
}

// The path of the key k is dropped.
pub fn drop_path<'a>(
    key: &'a [u64; State::SLOTS],
    from: usize,
    m: usize,
    k: u64,
    gone: &mut [bool; State::SLOTS],
)
    requires { (left_sides ≤ from) × (m ≤ slots) × Dropped (λ l. nat_eq l k) key.now from gone.old }
    ensures { Dropped (λ l. nat_eq l k) key.now m gone.new }
{
    drop_sides(key, from, m, |l| l == k, gone);
}

// All that names x is dropped.
pub fn drop_variable<'a>(
    key: &'a [u64; State::SLOTS],
    from: usize,
    m: usize,
    x: u8,
    gone: &mut [bool; State::SLOTS],
)
    requires { (left_sides ≤ from) × (m ≤ slots) × Dropped (mentions_key x) key.now from gone.old }
    ensures { Dropped (mentions_key x) key.now m gone.new }
{
    drop_sides(key, from, m, |l| keys::mentions(l, x), gone);
}

// The paths of the entries that are out are dropped, but for names still listed.
pub fn drop_paths<'a>(
    key: &'a [u64; State::SLOTS],
    b: &'a [u8; State::BYTES],
    out: &'a [bool; Machine::PERMISSIONS],
    marks: &'a [bool; State::MARKS],
    from: usize,
    m: usize,
    gone: &mut [bool; State::SLOTS],
)
    requires { (left_sides ≤ from) × (m ≤ slots) × OutMarked b.now out.now marks.now × Dropped (key_dropped b.now out.now) key.now from gone.old }
    ensures { Dropped (key_dropped b.now out.now) key.now m gone.new }
{
    let n = b[State::ENTRIES] as usize;
    drop_sides(
        key,
        from,
        m,
        |l| check_entries::names_dropped(b, out, marks, n, l),
        gone,
    );
}

// The keys of the sides from slot `from` on by a map.
fn map_sides<F: Fn(u64) -> u64>(key: &mut [u64; State::SLOTS], from: usize, m: usize, map: F)
    requires within { (left_sides ≤ from) × (m ≤ slots) × Header key.old }
    requires callable { F.IsAlwaysCallable map }
    ensures { (f : ℕ → ℕ) → Tells (F.post map) f key.old m → MappedKeys f key.old from key.old → MappedKeys f key.old m key.new }
{
    for i in from..m {
        key[i] = map(key[i]);
    }
}

// x is renamed to the variable `to`.
pub fn rename_keys(key: &mut [u64; State::SLOTS], m: usize, x: u8, to: u8)
    requires { (m ≤ slots) × Header key.old }
    ensures { MappedKeys (renamed_key x to) key.old m key.new }
{
    map_sides(key, State::LEFT, m, |k| keys::rename(k, x, to));
}

// The key t for each key k, from slot `from` on.
pub fn swap_key(key: &mut [u64; State::SLOTS], from: usize, m: usize, k: u64, t: u64)
    requires { (left_sides ≤ from) × (m ≤ slots) × MappedKeys (picked k t) key.old from key.old }
    ensures { MappedKeys (picked k t) key.old m key.new }
{
    map_sides(key, from, m, |l| check_equality::pick(l, k, t));
}
