// The lean machine: one step by the kind of its row, and a run of an accepted script.
#![tactic(auto)]

ghost use Rattle.std.specs.Prelude.{◌≡◌, ◌+◌, ◌<◌};
ghost use Rattle.rules.specs.Answers.{stop_number};
ghost use Rattle.tables.specs.Layout.{frame_variables, frames_at};
ghost use Rattle.tables.specs.Decode.{main_first, program_in};
ghost use Rattle.tables.specs.Tables.{Tables};
ghost use Rattle.run_heap.specs.Views.{fill};
ghost use Rattle.lean_heap.specs.Ghosts.{CanStep, Does, stop_of};
ghost use Rattle.lean_machine.specs.Runs.{Accepted, RanAs, fresh, number};

use lean_heap::{Counters, Stop, Turn};
use rules::{Kind, Number};
use run_heap::Stores;
use run_steps::Ending;
use tables::{Area, Layout};

// What a run ends with; main's values are in its frame. 24, 25 and 26 are not among how it ends.
pub type Ran = run_steps::Ran<Stop>;

// The number of document 01 for a step that is not done. No From: `u32::from` would not say which number.
fn stop_number(s: Stop) -> u32
    ensures { result ≡ stop_number (stop_of s) }
{
    match s {
        Stop::HeapFull => Number::HEAP_FULL,
        Stop::FramesFull => Number::FRAMES_FULL,
        Stop::Overflow => Number::OVERFLOW,
    }
}

// The number of document 01 for the end of a run.
pub fn number_of(e: Ending<Stop>) -> u32
    ensures { result ≡ number e }
{
    match e {
        Ending::Finished => 0,
        Ending::StepsTaken => Number::STEPS_TAKEN,
        Ending::Stopped(s) => stop_number(s),
    }
}

// "Each statement line is one step": by the kind of the row.
#[tactic(auto, unfolding(rules::specs::Grammar::statement_number, rules::specs::Grammar::is_computing))]
fn step(work: &mut Area, c: Counters) -> Turn
    requires { CanStep work.old c }
    ensures { Does work.old c work.new result }
{
    let row = c.row as usize;
    match tables::row_kind(work, row) {
        Kind::Set => lean_steps::set_step(work, c),
        Kind::Let => lean_steps::let_step(work, c),
        Kind::New => lean_calls::new_step(work, c),
        Kind::Call => lean_calls::call_step(work, c),
        Kind::Return | Kind::End => lean_calls::back_step(work, c),
        Kind::Add => lean_steps::compute_step(work, c, Kind::Add as u8),
        Kind::Sub => lean_steps::compute_step(work, c, Kind::Sub as u8),
        Kind::If | Kind::Loop => lean_steps::choose_step(work, c),
        Kind::Else | Kind::Again => lean_steps::jump_step(work, c),
        Kind::Assert | Kind::Join => lean_steps::pass_step(work, c),
        Kind::Release => lean_steps::pass_step(work, c),
        Kind::Open => lean_steps::open_step(work, c),
        Kind::Shut => lean_steps::pass_step(work, c),
        // No row is of another kind, so that any answer meets the contract.
        Kind::Class
        | Kind::Field
        | Kind::Method
        | Kind::Requires
        | Kind::Ensures
        | Kind::Main
        | Kind::Var => Ok(None),
    }
}

// "from the empty heap and main's frame"
fn begin(work: &mut Area) -> Counters
    requires { Tables work.old }
    ensures { (result ≡ fresh (main_first work.old)) × (work.new ≡ fill work.old frames_at frame_variables 0) }
{
    let row = tables::main_first(work);
    run_heap::fill_words(work, Layout::FRAMES, Stores::VARIABLES, 0);
    Counters {
        objects: 0,
        fields: 0,
        frames: 1,
        base: Layout::FRAMES,
        row: row as u32,
        steps: 0,
    }
}

// At most so many steps of the accepted program in the tables: "A run tests 21 before each step"; "A stopped step is not counted".
pub fn run(work: &mut Area, steps: u32) -> Ran
    requires { Tables work.old × Accepted (program_in work.old) }
    ensures { RanAs work.old steps work.new result }
{
    let mut c = begin(work);
    // Not one loop for both machines: what a step needs and does is said of each machine's own states, and a trait with these and their laws is longer.
    while c.steps < steps {
        match step(work, c) {
            Ok(Some(d)) => {
                c = d;
            }
            Err(s) => {
                return run_steps::ended(work, c.row, Ending::Stopped(s), c.steps);
            }
            Ok(None) => {
                return run_steps::ended(work, c.row, Ending::Finished, c.steps + 1);
            }
        }
    }
    run_steps::ended(work, c.row, Ending::StepsTaken, c.steps)
}
