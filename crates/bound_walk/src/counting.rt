// The rows of a block counted, up to its `end` or to a row that has to wait.
ghost use Rattle.std.specs.Prelude.{◌≡◌, suc, ◌≤◌, ◌<◌};
ghost use Rattle.rules.specs.Limits.{most_bound};
ghost use Rattle.tables.specs.Decode.{row_count};
ghost use Rattle.tables.specs.Tables.{Tables};
ghost use Rattle.bound_walk.specs.Counting.{cap, looked_call, looked, stopped_at, BoundFits, Counts, CallFits};
ghost use Rattle.bound_walk.specs.Walk.{Scans, SoundIn};

use crate::{Halt, Marks, Open, Reckoned, Scanned, Visit};
use bound_rows::Line;
use rules::Machine;
use tables::Area;

// Beyond the greatest bound only that it is passed.
fn capped(n: u32) -> u32
    ensures { result ≡ cap n }
{
    n.min(Machine::BOUND as u32 + 1)
}

// A call of the method c, of which m is known: the sum and the frames with it.
#[tactic(auto, unfolding(crate::specs::Counting::looked_call))]
fn look_call(m: Reckoned, c: usize, sum: u32, frames: u32) -> Result<(u32, u32), Halt>
    requires { (sum ≤ suc most_bound) × BoundFits m.visit }
    ensures { result ≡ looked_call m.visit m.frames c sum frames }
{
    match m.visit {
        Visit::Done(b) => Ok((capped(sum + 1 + b), frames.max(m.frames))),
        Visit::NotVisited | Visit::OnRoute => Err(Halt::Wait(c)),
    }
}

// The sum and the frames with this row, or why the counting stops at it.
// A match and no closure: what a row does to the sum and the frames is a value, and only a call looks further.
#[tactic(auto, unfolding(crate::specs::Counting::looked))]
fn look(marks: Marks, line: Line, sum: u32, frames: u32) -> Result<(u32, u32), Halt>
    requires { CallFits line × Counts marks sum }
    ensures { result ≡ looked marks line sum frames }
{
    match line {
        Line::Plain => Ok((capped(sum + 1), frames)),
        Line::Call(c) => look_call(marks[c], c, sum, frames),
        Line::Loop => Err(Halt::Loop),
        Line::End => Err(Halt::End),
    }
}

// The counting of the block o stops at a row. The `end` of a block is counted too.
#[tactic(auto, unfolding(crate::specs::Counting::stopped_at))]
fn stop_at(o: Open, row: usize, sum: u32, frames: u32, found: Halt) -> Scanned
    requires { sum ≤ suc most_bound }
    ensures { result ≡ stopped_at o row sum frames found }
{
    let sum = match found {
        Halt::End => capped(sum + 1),
        Halt::Wait(_) | Halt::Loop => sum,
    };
    Scanned {
        block: Open {
            row,
            sum,
            frames,
            ..o
        },
        found,
    }
}

// On from a row of a block.
pub fn scan(work: &Area, marks: Marks, o: Open) -> Scanned
    requires { Tables work.now × (SoundIn work.now marks × ((o.row < row_count work.now) × (o.sum ≤ suc most_bound))) }
    ensures { Scans work.now marks o result }
{
    let mut row = o.row;
    let mut sum = o.sum;
    let mut frames = o.frames;
    // A loop: which row is the block's `end` is known only there.
    loop {
        let line = bound_rows::line_at(work, row);
        match look(marks, line, sum, frames) {
            Ok((s, f)) => {
                sum = s;
                frames = f;
                row += 1;
            }
            Err(found) => {
                return stop_at(o, row, sum, frames, found);
            }
        }
    }
}
