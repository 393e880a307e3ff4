// The calls as C programs link them, each under its own name: `station` makes the answers and promises what they are.
#![tactic(auto)]

ghost use Rattle.rules.specs.Areas.{check_call, run_call, trial_call, lean_call, bound_call, fill_call};
ghost use Rattle.station.specs.Station.{CheckLeaves, RunLeaves, BoundLeaves, FillLeaves};
ghost use Rattle.station.specs.Parts.{CountLeaves};

// Is the text a script that keeps to its permissions? The number and line of document 01's table, as number × 65,536 + line.
#[unsafe(no_mangle)]
pub extern "C" fn check(text: &[u8], work: &mut [u8]) -> u32
    ensures { CheckLeaves (check_call text.now work.old) result work.new }
{
    station::check(text, work)
}

// Runs main for at most so many steps, if check accepts the text: the number and line as for check; the steps taken and main's values in
// `results`.
#[unsafe(no_mangle)]
pub extern "C" fn run(text: &[u8], work: &mut [u8], steps: u32, results: &mut [u8]) -> u32
    ensures { RunLeaves (run_call text.now work.old steps results.old) result work.new results.new }
{
    station::run(text, work, steps, results)
}

// Runs main as `run` does, of each text that the reader takes, accepted or not.
#[unsafe(no_mangle)]
pub extern "C" fn trial(text: &[u8], work: &mut [u8], steps: u32, results: &mut [u8]) -> u32
    ensures { RunLeaves (trial_call text.now work.old steps results.old) result work.new results.new }
{
    station::trial(text, work, steps, results)
}

// Runs main as `run` does, with the same answer and the same bytes, by the machine that tests no permission: of an accepted text none can
// be missing.
#[unsafe(no_mangle)]
pub extern "C" fn lean(text: &[u8], work: &mut [u8], steps: u32, results: &mut [u8]) -> u32
    ensures { RunLeaves (lean_call text.now work.old steps results.old) result work.new results.new }
{
    station::lean(text, work, steps, results)
}

// How many steps can an accepted script take, and how many frames? The number and line as for check; main's bound and the most frames on a
// route of calls in `bounds`.
#[unsafe(no_mangle)]
pub extern "C" fn bound(text: &[u8], work: &mut [u8], bounds: &mut [u8]) -> u32
    ensures { BoundLeaves (bound_call text.now work.old bounds.old) result work.new bounds.new }
{
    station::bound(text, work, bounds)
}

// Which permissions does the one line `requires *` need? The number and line as for check, or 17 or 18; the places of the first set with which the
// text is accepted in `places`.
#[unsafe(no_mangle)]
pub extern "C" fn fill(text: &[u8], work: &mut [u8], places: &mut [u8]) -> u32
    ensures { FillLeaves (fill_call text.now work.old places.old) result work.new places.new }
{
    station::fill(text, work, places)
}

// Up to four scripts over one heap, each in its share, one step a round: 0, or number 19; for each script what run returns, then its results,
// in `results`.
#[unsafe(no_mangle)]
pub extern "C" fn count(
    scripts: u32,
    rounds: u32,
    text1: &[u8],
    text2: &[u8],
    text3: &[u8],
    text4: &[u8],
    work: &mut [u8],
    share1: u32,
    share2: u32,
    share3: u32,
    share4: u32,
    results: &mut [u8],
) -> u32
    ensures { CountLeaves scripts rounds text1.entry text2.entry text3.entry text4.entry work.entry share1 share2 share3 share4 results.entry result work.exit results.exit }
{
    station::count(
        scripts, rounds, text1, text2, text3, text4, work, share1, share2, share3, share4, results,
    )
}
