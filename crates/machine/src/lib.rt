// One step by the kind of its row, and a run: at most so many steps from the empty heap and main's frame.
#![tactic(auto)]

ghost use Rattle.std.specs.Prelude.{◌≡◌, ◌+◌, ◌≤◌, ◌<◌};
ghost use Rattle.rules.specs.Limits.{heap_objects, heap_fields};
ghost use Rattle.run_steps.specs.States.{CanStep, Does};
ghost use Rattle.rules.specs.Counters.{fresh_machine};
ghost use Rattle.tables.specs.Layout.{frame_variables, frames_at};
ghost use Rattle.tables.specs.Decode.{main_first, program_in};
ghost use Rattle.tables.specs.Tables.{Tables};
ghost use Rattle.machine.specs.Runs.{RanAs, fault_number, number};
ghost use Rattle.run_heap.specs.Views.{fill};
ghost use Rattle.rules.specs.Machine.{step as step_of};

use rules::{Machine, Number};
use run_heap::{Fault, Stores};
use run_steps::{Ending, Turn};
use tables::{Area, Layout, RowKind};

// What a run ends with; main's values are in its frame.
pub type Ran = run_steps::Ran<Fault>;

// The number of document 01 for a step that is not done. No From: `u32::from` would not say which number.
fn fault_number(f: Fault) -> u32
    ensures { result ≡ fault_number f }
{
    match f {
        Fault::HeapFull => Number::HEAP_FULL,
        Fault::FramesFull => Number::FRAMES_FULL,
        Fault::Permission => Number::PERMISSION_MISSING,
        Fault::Null => Number::NULL_FOLLOWED,
        Fault::False => Number::FORMULA_FALSE,
        Fault::Overflow => Number::OVERFLOW,
    }
}

// The number of document 01 for the end of a run.
pub fn number_of(e: Ending<Fault>) -> u32
    ensures { result ≡ number e }
{
    match e {
        Ending::Finished => 0,
        Ending::StepsTaken => Number::STEPS_TAKEN,
        Ending::Stopped(f) => fault_number(f),
    }
}

// "Each statement line is one step": by the kind of the row, on a heap with these two limits.
#[tactic(auto, unfolding(rules::specs::Grammar::statement_number))]
pub fn step(work: &mut Area, c: Machine, most_objects: u32, most_fields: u32) -> Turn
    requires { CanStep work.old c × ((most_objects ≤ heap_objects) × (most_fields ≤ heap_fields)) }
    ensures { Does work.old c work.new result (step_of (record { objects = most_objects; fields = most_fields }) (program_in work.old)) }
{
    let row = c.row as usize;
    match tables::kind_at(work, row) {
        RowKind::SET => run_steps::set_step(work, c),
        RowKind::LET => run_steps::let_step(work, c),
        RowKind::NEW => run_calls::new_step(work, c, most_objects, most_fields),
        RowKind::CALL => run_calls::call_step(work, c),
        RowKind::RETURN | RowKind::END => run_returns::back_step(work, c),
        RowKind::ASSERT | RowKind::JOIN => run_steps::assert_step(work, c),
        RowKind::RELEASE => run_steps::release_step(work, c),
        RowKind::IF => run_steps::if_step(work, c),
        RowKind::LOOP => run_steps::loop_step(work, c),
        RowKind::ELSE | RowKind::AGAIN => run_steps::jump_step(work, c),
        RowKind::OPEN => run_steps::open_step(work, c),
        RowKind::SHUT => run_steps::shut_step(work, c),
        RowKind::ADD | RowKind::SUB => run_steps::compute_step(work, c),
        // No row is of another kind, so that any answer meets the contract.
        0..=RowKind::DECLARATION | RowKind::UNKNOWN..=u8::MAX => Ok(None),
    }
}

// "from the empty heap and main's frame"
fn begin(work: &mut Area) -> Machine
    requires { Tables work.old }
    ensures { (result ≡ fresh_machine (main_first work.old)) × (work.new ≡ fill work.old frames_at frame_variables 0) }
{
    let row = tables::main_first(work);
    run_heap::fill_words(work, Layout::FRAMES, Stores::VARIABLES, 0);
    Machine::new(row as u32)
}

// At most so many steps of the program in the tables, on a heap with these two limits: "A run tests 21 before each step"; "A stopped
// step is not counted".
pub fn run(work: &mut Area, steps: u32, most_objects: u32, most_fields: u32) -> Ran
    requires { Tables work.old × ((most_objects ≤ heap_objects) × (most_fields ≤ heap_fields)) }
    ensures { RanAs (record { objects = most_objects; fields = most_fields }) work.old steps work.new result }
{
    let mut c = begin(work);
    // A while: the machine itself counts its steps.
    while c.steps < steps {
        match step(work, c, most_objects, most_fields) {
            Ok(Some(d)) => {
                c = d;
            }
            Err(s) => {
                return run_steps::ended(work, c.row, Ending::Stopped(s), c.steps);
            }
            Ok(None) => {
                return run_steps::ended(work, c.row, Ending::Finished, c.steps + 1);
            }
        }
    }
    run_steps::ended(work, c.row, Ending::StepsTaken, c.steps)
}
