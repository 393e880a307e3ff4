// A dropped side gives way to its successor, or is gone: of the side in slot i becomes the key that stands there, or nothing where `gone`
// has the flag i. The facts that are left keep their labels, or get them anew.
ghost use Rattle.std.specs.Prelude.{◌≡◌, false, true, ◌≤◌, ◌<◌, get_or};
ghost use Rattle.check_equality.specs.Layout.{slots, left_sides};
ghost use Rattle.check_equality.specs.Links.{Header};
ghost use Rattle.check_successors.specs.Successors.{term_or};
ghost use Rattle.check_scans.specs.Scans.{Untouched};
ghost use Rattle.check_dropping.specs.Dropping.{Stored, Giving, SideGiven, GaveWay, Dropping, Forgotten, IsSide};

use check_equality::State;
use check_state::Known;
use rules::Machine;

// Stores what becomes of the side in slot j.
fn store(key: &mut [u64; State::SLOTS], gone: &mut [bool; State::SLOTS], j: usize, k: Option<u64>)
    requires { (left_sides ≤ j) × (j < slots) × Header key.old }
    ensures { Stored j (term_or k) key.old gone.old key.new gone.new }
{
    let Some(l) = k else {
        gone[j] = true;
        return;
    };
    key[j] = l;
    gone[j] = false;
}

// The dropped side in slot j gives way; `old` is the state before. `lead` has, for each label, the first slot with it that gave
// way, or 0 (bytes, since Options would take twice the room): what is ~ to it has the same successor.
fn give_dropped<'a>(
    old: &'a Known,
    skip: &'a [bool; Machine::PERMISSIONS],
    x: u8,
    key: &mut [u64; State::SLOTS],
    gone: &mut [bool; State::SLOTS],
    lead: &mut [u8; State::SLOTS],
    j: usize,
)
    requires { IsSide old.now.bytes j × Giving old.now.keys old.now.bytes skip.now x j key.old gone.old lead.old × (get_or gone.old j false ≡ true) }
    ensures { SideGiven old.now.keys old.now.bytes skip.now x j key.old gone.old key.new gone.new lead.new }
{
    let a = old.bytes[j] as usize;
    let i = lead[a] as usize;
    if i == 0 {
        lead[a] = j as u8;
        store(
            key,
            gone,
            j,
            check_successors::successor(old, skip, x, old.keys[j], old.bytes[j]),
        );
        return;
    }
    let k = key[i];
    let g = gone[i];
    key[j] = k;
    gone[j] = g;
}

// The side in slot j gives way, if it is dropped.
fn give_side<'a>(
    old: &'a Known,
    skip: &'a [bool; Machine::PERMISSIONS],
    x: u8,
    key: &mut [u64; State::SLOTS],
    gone: &mut [bool; State::SLOTS],
    lead: &mut [u8; State::SLOTS],
    j: usize,
)
    requires { IsSide old.now.bytes j × Giving old.now.keys old.now.bytes skip.now x j key.old gone.old lead.old × (get_or key.old j 0 ≡ get_or old.now.keys j 0) }
    ensures { SideGiven old.now.keys old.now.bytes skip.now x j key.old gone.old key.new gone.new lead.new }
{
    if gone[j] {
        give_dropped(old, skip, x, key, gone, lead, j);
    }
}

// Each side that is dropped gives way.
fn give_way<'a>(
    old: &'a Known,
    skip: &'a [bool; Machine::PERMISSIONS],
    x: u8,
    key: &mut [u64; State::SLOTS],
    gone: &mut [bool; State::SLOTS],
    from: usize,
)
    requires { (key.old ≡ old.now.keys) × Untouched old.now.keys old.now.bytes gone.old from }
    ensures { GaveWay old.now.keys old.now.bytes skip.now x gone.old from key.new gone.new }
{
    let m = State::LEFT + 2 * (old.bytes[State::FACTS] as usize);
    let mut lead = [0; State::SLOTS];
    for j in State::LEFT + 2 * from..m {
        give_side(old, skip, x, key, gone, &mut lead, j);
    }
}

// The sides with a flag are dropped: they give way to successors, which are neither x nor paths of entries to be skipped. The facts
// before `from` stay.
pub fn forget(
    known: &mut Known,
    skip: &[bool; Machine::PERMISSIONS],
    x: u8,
    gone: &mut [bool; State::SLOTS],
    from: usize,
)
    requires { Dropping known.old.keys known.old.bytes skip.now x gone.old × Untouched known.old.keys known.old.bytes gone.old from }
    ensures { Forgotten known.old.keys known.old.bytes skip.now x gone.old known.new.keys known.new.bytes }
{
    let old = *known;
    give_way(&old, skip, x, &mut known.keys, gone, from);
    if check_labels::whole(&known.bytes, gone, from) {
        check_labels::repack(&mut known.keys, &mut known.bytes, gone, from, x);
        return;
    }
    check_labels::rebuild(&mut known.keys, &mut known.bytes, gone);
}
