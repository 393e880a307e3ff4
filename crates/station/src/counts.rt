// Up to four scripts in one run, for `count`. No script sees another's share, so they run one after the other, each with its share for the heap;
// zeros past their count.
ghost use Rattle.std.specs.Prelude.{◌≡◌, ◌≤◌, ◌<◌, length};
ghost use Rattle.rules.specs.Limits.{count_bytes, script_bytes, most_scripts, heap_objects};
ghost use Rattle.rules.specs.Joint.{room_of};
ghost use Rattle.rules.specs.Calls.{run_text_in};
ghost use Rattle.rules.specs.Areas.{bytes_of_script};
ghost use Rattle.station.specs.Parts.{part_of, put_part, CountLeaves};

use crate::numbers::pack;
use crate::{Reply, check_text, run_found};
use rules::Machine;
use tables::{Area, Bytes};

// A joint run: how many scripts there are, and the rounds.
#[derive(Clone, Copy)]
pub struct Joint {
    pub scripts: u32,
    pub rounds: u32,
}

impl Joint {
    // The number of the fourth script.
    const LAST: usize = Machine::SCRIPTS - 1;
}

// What run returns, then its results.
fn count_script(text: &[u8], work: &mut Area, rounds: u32, share: u32, part: &mut [u8])
    requires { (share ≤ heap_objects) × (length part.old ≡ script_bytes) }
    ensures { part.new ≡ bytes_of_script (run_text_in (room_of share) text.now rounds) }
{
    let found = check_text(text, work);
    let at = Bytes::WORD;
    let f = run_found(found, work, rounds, share, &mut part[at..]);
    let returned = pack(f);
    tables::put_word(part, 0, returned);
}

// The part of the results that script i has: zeros past the count.
fn count_part(j: Joint, i: usize, share: u32, text: &[u8], work: &mut Area, results: &mut [u8])
    requires { ((i < most_scripts) × (i < j.scripts → share ≤ heap_objects)) × (length results.old ≡ count_bytes) }
    ensures { results.new ≡ put_part results.old i (part_of j i share text.now) }
{
    let at = i * Machine::SCRIPT_BYTES;
    let end = at + Machine::SCRIPT_BYTES;
    if i >= j.scripts as usize {
        areas::clear(&mut results[at..end]);
        return;
    }
    count_script(text, work, j.rounds, share, &mut results[at..end]);
}

// Up to four scripts over one heap, each in its share, one step a round: 0, or number 19; for each script what run returns, then its results,
// in `results`.
pub fn count(
    scripts: u32,
    rounds: u32,
    text1: &[u8],
    text2: &[u8],
    text3: &[u8],
    text4: &[u8],
    work: &mut [u8],
    share1: u32,
    share2: u32,
    share3: u32,
    share4: u32,
    results: &mut [u8],
) -> u32
    ensures { CountLeaves scripts rounds text1.entry text2.entry text3.entry text4.entry work.entry share1 share2 share3 share4 results.entry result work.exit results.exit }
{
    if !areas::fit(work, results, Machine::COUNT_BYTES) {
        return Reply::WRONG_LENGTH;
    }
    let Some(work) = work.as_mut_array() else {
        return Reply::WRONG_LENGTH;
    };
    let shares = [share1, share2, share3, share4];
    if !areas::shares_fit(scripts, &shares) {
        areas::clear(work);
        areas::clear(results);
        return Reply::WRONG_SHARES;
    }
    let j = Joint { scripts, rounds };
    count_part(j, 0, share1, text1, work, results);
    count_part(j, 1, share2, text2, work, results);
    count_part(j, 2, share3, text3, work, results);
    count_part(j, Joint::LAST, share4, text4, work, results);
    areas::clear(work);
    0
}
