// The calls of a host, `check`, `run`, `trial`, `lean`, `bound` and `fill`, and what the program prints. Each reads the text, does its work, and
// clears the work area. The module `counts` has `count`. After `areas::fit` the lent work area is an `Area`, so the way out where it is none is never
// taken.
#![tactic(auto)]

mod bounds;
mod counts;
mod fills;
mod leans;
mod numbers;

ghost use Rattle.std.specs.Prelude.{◌≡◌, Ok, ◌∷◌, ◌≤◌, length};
ghost use Rattle.rules.specs.Limits.{results_bytes, heap_objects};
ghost use Rattle.rules.specs.Answers.{then};
ghost use Rattle.rules.specs.Reading.{read_text};
ghost use Rattle.rules.specs.Rules.{check_program};
ghost use Rattle.rules.specs.Calls.{verdict_numbers, check_text};
ghost use Rattle.rules.specs.Areas.{words_bytes, check_call, run_call, trial_call, lean_call, bound_call, fill_call};
ghost use Rattle.tables.specs.Decode.{program_in};
ghost use Rattle.tables.specs.Tables.{Tables};
ghost use Rattle.reader.specs.Readings.{framed_verdict};
ghost use Rattle.machine.specs.Runs.{main_values};
ghost use Rattle.station.specs.Station.{unread, unchecked, numbers_found, Found, RunAs, unless_refused, share_run, CheckLeaves, RunLeaves, BoundLeaves, FillLeaves};

use bounds::bound_found;
pub use counts::count;
use fills::fill_text;
use leans::lean_found;
use numbers::{pack, told};
use rules::{Machine, Number};
use tables::{Area, Bytes, Layout};

// Why a call is refused.
#[derive(Clone, Copy)]
pub enum Refusal {
    // the text is not read
    Reading(reader::Refusal),
    // it is not accepted
    Unframed,
    Checking(check_entailment::Refusal),
    // it has no bound
    Unbounded,
    BoundPassed,
    // no set fills it in
    NotOneStar,
    NoSetAccepted,
}

// A refusal, and the line that it goes with.
#[derive(Clone, Copy)]
pub struct Refused {
    pub why: Refusal,
    pub line: usize,
}

// Two conversions: those of both reasons would have to stand here as well if one were to serve both types.
impl From<reader::RefusedLine> for Refused {
    ghost from_gives = { λ e r. r ≡ unread e };

    fn from(e: reader::RefusedLine) -> Refused {
        Refused {
            why: Refusal::Reading(e.why),
            line: e.line,
        }
    }
}

impl From<checker::RefusedLine> for Refused {
    ghost from_gives = { λ e r. r ≡ unchecked e };

    fn from(e: checker::RefusedLine) -> Refused {
        Refused {
            why: Refusal::Checking(e.why),
            line: e.line,
        }
    }
}

// What C is told: a number of document 01's table, and the line that it goes with.
#[derive(Clone, Copy)]
pub struct Reply {
    pub number: u32,
    pub line: usize,
}

impl Reply {
    // Number 1 at line 0, as it is returned: a lent area of wrong length.
    const WRONG_LENGTH: u32 = Number::WRONG_LENGTH * Number::FACTOR;

    // Number 19 at line 0: no scripts, too many, or shares that do not fit into the heap.
    const WRONG_SHARES: u32 = Number::WRONG_SHARES * Number::FACTOR;
}

// The steps taken and main's twelve values. The value i is that of main's variable i + 1: `this` and the parameter come first. The results stay
// a slice, from here to C's calls: as an array they would need a test that cannot fail in each call, and in `count` at each script's part.
fn put_results(work: &Area, results: &mut [u8], steps: u32)
    requires { length results.old ≡ results_bytes }
    ensures { results.new ≡ words_bytes (steps ∷ main_values work.now) }
{
    tables::put_word(results, 0, steps);
    for i in 1..=Machine::VALUES {
        let v = tables::word_at(work, Layout::FRAMES + Bytes::WORD + i * Bytes::WORD);
        tables::put_word(results, i * Bytes::WORD, v);
    }
}

// READING AND CHECK

// Number 10, then the rules, over the tables of a text that is read; `unframed` is the first line that number 10 refuses, if any.
fn check_tables(work: &Area, unframed: Option<usize>) -> Result<(), Refused>
    requires { Tables work.now }
    ensures { numbers_found result ≡ verdict_numbers (then (framed_verdict unframed) (λ u. check_program (program_in work.now))) }
{
    if let Some(line) = unframed {
        return Err(Refused {
            why: Refusal::Unframed,
            line,
        });
    }
    checker::check(work)?;
    Ok(())
}

// Reads the text.
fn read_text(text: &[u8], work: &mut Area) -> Result<(), Refused>
    ensures { Found (verdict_numbers (read_text text.now)) text.now result work.new }
{
    reader::read(text, work)?;
    Ok(())
}

// Reads and checks the text.
fn check_text(text: &[u8], work: &mut Area) -> Result<(), Refused>
    ensures { Found (check_text text.now) text.now result work.new }
{
    let unframed = reader::read(text, work)?;
    check_tables(work, unframed)
}

// Is the text a script that keeps to its permissions? The number and line of document 01's table, as number × 65,536 + line.
pub fn check(text: &[u8], work: &mut [u8]) -> u32
    ensures { CheckLeaves (check_call text.now work.old) result work.new }
{
    let Some(work) = work.as_mut_array() else {
        return Reply::WRONG_LENGTH;
    };
    let f = told(check_text(text, work));
    areas::clear(work);
    pack(f)
}

// RUN AND TRIAL

// With a share of so many objects for the heap, and four times as many fields.
fn run_tables(work: &mut Area, steps: u32, share: u32, results: &mut [u8]) -> Reply
    requires { (Tables work.old × (share ≤ heap_objects)) × (length results.old ≡ results_bytes) }
    ensures { RunAs (share_run share (program_in work.old) steps) result results.new work.new }
{
    let r = machine::run(work, steps, share, Machine::FIELDS_EACH as u32 * share);
    put_results(work, results, r.steps);
    Reply {
        number: machine::number_of(r.ending),
        line: r.line as usize,
    }
}

// Runs the tables, unless a refusal was found: then there are zeros in results.
fn run_found(
    found: Result<(), Refused>,
    work: &mut Area,
    steps: u32,
    share: u32,
    results: &mut [u8],
) -> Reply
    requires { (found ≡ Ok tt → Tables work.old) × (share ≤ heap_objects) × (length results.old ≡ results_bytes) }
    ensures { RunAs (unless_refused found (share_run share (program_in work.old) steps)) result results.new work.new }
{
    if found.is_err() {
        areas::clear(results);
        return told(found);
    }
    run_tables(work, steps, share, results)
}

// Runs main for at most so many steps, if check accepts the text: the number and line as for check; the steps taken and main's values in
// `results`.
pub fn run(text: &[u8], work: &mut [u8], steps: u32, results: &mut [u8]) -> u32
    ensures { RunLeaves (run_call text.now work.old steps results.old) result work.new results.new }
{
    if !areas::fit(work, results, Machine::RESULTS_BYTES) {
        return Reply::WRONG_LENGTH;
    }
    let Some(work) = work.as_mut_array() else {
        return Reply::WRONG_LENGTH;
    };
    let found = check_text(text, work);
    let f = run_found(found, work, steps, Machine::OBJECTS as u32, results);
    areas::clear(work);
    pack(f)
}

// Runs main as `run` does, of each text that the reader takes, accepted or not.
// Not one with `run`: a function that takes the reading would have to say of it in a clause what `Found` says, and that is as long as this.
pub fn trial(text: &[u8], work: &mut [u8], steps: u32, results: &mut [u8]) -> u32
    ensures { RunLeaves (trial_call text.now work.old steps results.old) result work.new results.new }
{
    if !areas::fit(work, results, Machine::RESULTS_BYTES) {
        return Reply::WRONG_LENGTH;
    }
    let Some(work) = work.as_mut_array() else {
        return Reply::WRONG_LENGTH;
    };
    let found = read_text(text, work);
    let f = run_found(found, work, steps, Machine::OBJECTS as u32, results);
    areas::clear(work);
    pack(f)
}

// LEAN

// Runs main as `run` does, with the same answer and the same bytes, by the machine that tests no permission: of an accepted text none can
// be missing.
pub fn lean(text: &[u8], work: &mut [u8], steps: u32, results: &mut [u8]) -> u32
    ensures { RunLeaves (lean_call text.now work.old steps results.old) result work.new results.new }
{
    if !areas::fit(work, results, Machine::RESULTS_BYTES) {
        return Reply::WRONG_LENGTH;
    }
    let Some(work) = work.as_mut_array() else {
        return Reply::WRONG_LENGTH;
    };
    let found = check_text(text, work);
    let f = lean_found(found, work, steps, results);
    areas::clear(work);
    pack(f)
}

// BOUND

// How many steps can an accepted script take, and how many frames? The number and line as for check; main's bound and the most frames on a
// route of calls in `bounds`.
pub fn bound(text: &[u8], work: &mut [u8], bounds: &mut [u8]) -> u32
    ensures { BoundLeaves (bound_call text.now work.old bounds.old) result work.new bounds.new }
{
    if !areas::fit(work, bounds, Machine::BOUNDS_BYTES) {
        return Reply::WRONG_LENGTH;
    }
    let Some(work) = work.as_mut_array() else {
        return Reply::WRONG_LENGTH;
    };
    let found = check_text(text, work);
    let f = told(bound_found(found, work, bounds));
    areas::clear(work);
    pack(f)
}

// FILL

// Which permissions does the one line `requires *` need? The number and line as for check, or 17 or 18; the places of the first set with which the
// text is accepted in `places`.
pub fn fill(text: &[u8], work: &mut [u8], places: &mut [u8]) -> u32
    ensures { FillLeaves (fill_call text.now work.old places.old) result work.new places.new }
{
    if !areas::fit(work, places, Machine::PLACES_BYTES) {
        return Reply::WRONG_LENGTH;
    }
    let Some(work) = work.as_mut_array() else {
        return Reply::WRONG_LENGTH;
    };
    let f = told(fill_text(text, work, places));
    areas::clear(work);
    pack(f)
}
