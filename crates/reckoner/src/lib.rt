// Main's bound and the most frames on a route of calls, or why there are none: what `bound_program` says of the tables' program.
#![tactic(auto)]

ghost use Rattle.std.specs.Prelude.{◌≡◌};
ghost use Rattle.rules.specs.Bounds.{bound_program};
ghost use Rattle.tables.specs.Decode.{program_in};
ghost use Rattle.tables.specs.Tables.{Tables};
ghost use Rattle.reckoner.specs.Reckoned.{verdict_of};

use bound_walk::{Bound, Refusal as Why};
use tables::Area;

// Why there is no bound: a line leaves none, or it is passed.
#[derive(Clone, Copy)]
pub enum Refusal {
    Unbounded(usize),
    Passed,
}

pub fn bound(work: &Area) -> Result<Bound, Refusal>
    requires { Tables work.now }
    ensures { verdict_of result ≡ bound_program (program_in work.now) }
{
    match bound_walk::reckon(work) {
        Ok(b) => Ok(b),
        Err(Why::Passed) => Err(Refusal::Passed),
        Err(Why::Unbounded) => {
            let l = bound_lines::first_line(work).unwrap();
            Err(Refusal::Unbounded(l))
        }
    }
}
