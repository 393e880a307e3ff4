// Main's bound and the most frames, written for `bound`; zeros where there are none.
ghost use Rattle.std.specs.Prelude.{◌≡◌, Ok, [], ◌∷◌, length};
ghost use Rattle.rules.specs.Limits.{bounds_bytes};
ghost use Rattle.rules.specs.Bounds.{bound_program};
ghost use Rattle.rules.specs.Calls.{bound_numbers};
ghost use Rattle.rules.specs.Areas.{words_bytes};
ghost use Rattle.tables.specs.Decode.{program_in};
ghost use Rattle.tables.specs.Tables.{Tables};
ghost use Rattle.station.specs.Station.{BoundAs, bound_found};

use crate::{Refusal, Refused};
use tables::{Area, Bytes};

// The bounds stay a slice, as the results do: as an array they would need a second test in `bound`, which cannot fail after `areas::fit`.
fn put_bounds(bounds: &mut [u8], bound: u32, frames: u32)
    requires { length bounds.old ≡ bounds_bytes }
    ensures { bounds.new ≡ words_bytes (bound ∷ frames ∷ []) }
{
    tables::put_word(bounds, 0, bound);
    tables::put_word(bounds, Bytes::WORD, frames);
}

fn bound_tables(work: &Area, bounds: &mut [u8]) -> Result<(), Refused>
    requires { Tables work.now × (length bounds.old ≡ bounds_bytes) }
    ensures { BoundAs (bound_numbers (bound_program (program_in work.now))) result bounds.new }
{
    match reckoner::bound(work) {
        Ok(b) => {
            put_bounds(bounds, b.steps, b.frames);
            Ok(())
        }
        Err(reckoner::Refusal::Unbounded(line)) => {
            areas::clear(bounds);
            Err(Refused {
                why: Refusal::Unbounded,
                line,
            })
        }
        Err(reckoner::Refusal::Passed) => {
            areas::clear(bounds);
            Err(Refused {
                why: Refusal::BoundPassed,
                line: 0,
            })
        }
    }
}

// Of the tables, unless a refusal was found.
pub fn bound_found(
    found: Result<(), Refused>,
    work: &Area,
    bounds: &mut [u8],
) -> Result<(), Refused>
    requires { (found ≡ Ok tt → Tables work.now) × (length bounds.old ≡ bounds_bytes) }
    ensures { BoundAs (bound_found found (program_in work.now)) result bounds.new }
{
    if found.is_err() {
        areas::clear(bounds);
        return found;
    }
    bound_tables(work, bounds)
}
