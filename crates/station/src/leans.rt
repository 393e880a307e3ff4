// A run by the lean machine, for `lean`; zeros where the text is refused.
ghost use Rattle.std.specs.Prelude.{◌≡◌, Ok, length};
ghost use Rattle.rules.specs.Limits.{results_bytes};
ghost use Rattle.tables.specs.Decode.{program_in};
ghost use Rattle.tables.specs.Tables.{Tables};
ghost use Rattle.lean_machine.specs.Runs.{Accepted};
ghost use Rattle.station.specs.Station.{RunAs, unless_refused, lean_run};

use crate::numbers::told;
use crate::{Refused, Reply, put_results};
use tables::Area;

fn lean_tables(work: &mut Area, steps: u32, results: &mut [u8]) -> Reply
    requires { (Tables work.old × Accepted (program_in work.old)) × (length results.old ≡ results_bytes) }
    ensures { RunAs (lean_run (program_in work.old) steps) result results.new work.new }
{
    let r = lean_machine::run(work, steps);
    put_results(work, results, r.steps);
    Reply {
        number: lean_machine::number_of(r.ending),
        line: r.line as usize,
    }
}

// Runs the tables, unless a refusal was found.
pub fn lean_found(
    found: Result<(), Refused>,
    work: &mut Area,
    steps: u32,
    results: &mut [u8],
) -> Reply
    requires { (found ≡ Ok tt → Tables work.old × Accepted (program_in work.old)) × (length results.old ≡ results_bytes) }
    ensures { RunAs (unless_refused found (lean_run (program_in work.old) steps)) result results.new work.new }
{
    if found.is_err() {
        areas::clear(results);
        return told(found);
    }
    lean_tables(work, steps, results)
}
