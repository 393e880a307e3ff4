// The set that fills in a requires line, for `fill`; zeros where the text is refused.
ghost use Rattle.std.specs.Prelude.{◌≡◌, ◌+◌, ◌≤◌, ◌<◌, length, replicate};
ghost use Rattle.rules.specs.Limits.{most_filled, places_bytes};
ghost use Rattle.rules.specs.Calls.{fill_numbers, fill_text};
ghost use Rattle.tables.specs.Layout.{most_atom_rows};
ghost use Rattle.tables.specs.Decode.{program_in, atom_count, method_count};
ghost use Rattle.tables.specs.Tables.{Tables};
ghost use Rattle.station.specs.Station.{starless, FillAs, set_at_star};

use crate::{Refusal, Refused};
use star_reader::{NoStar, Star};
use tables::Area;

impl From<NoStar> for Refused {
    ghost from_gives = { λ e r. r ≡ starless e };

    fn from(e: NoStar) -> Refused {
        match e {
            NoStar::Refused(line) => Refused::from(line),
            NoStar::Missing => Refused {
                why: Refusal::NotOneStar,
                line: 0,
            },
            NoStar::Second(line) => Refused {
                why: Refusal::NotOneStar,
                line,
            },
        }
    }
}

// By the tables, for the star of the text: its places are left in `set`. No set makes good a line that number 10 refuses.
fn fill_star(work: &mut Area, star: Star, set: &mut [u8]) -> Result<(), Refused>
    requires { Tables work.old × (star.method < method_count work.old) × (atom_count work.old + most_filled ≤ most_atom_rows) × (set.old ≡ replicate places_bytes 0) }
    ensures { FillAs (fill_numbers (set_at_star (program_in work.old) star)) result set.new }
{
    if star.unframed.is_some() {
        return Err(Refused {
            why: Refusal::NoSetAccepted,
            line: star.line,
        });
    }
    if filler::fill(work, star.method, star.class, star.parameter, set) {
        return Ok(());
    }
    areas::clear(set);
    Err(Refused {
        why: Refusal::NoSetAccepted,
        line: star.line,
    })
}

// Of the text, unless it is refused. The places stay a slice, as the results do.
pub fn fill_text(text: &[u8], work: &mut Area, places: &mut [u8]) -> Result<(), Refused>
    requires { length places.old ≡ places_bytes }
    ensures { FillAs (fill_text text.now) result places.new }
{
    areas::clear(places);
    let star = star_reader::read(text, work)?;
    fill_star(work, star, places)
}
