// What C is told of a refusal: the numbers of document 01's table.
ghost use Rattle.std.specs.Prelude.{◌≡◌, ◌<◌};
ghost use Rattle.rules.specs.Answers.{refusal_number};
ghost use Rattle.rules.specs.Areas.{packed};
ghost use Rattle.tables.specs.Numbers.{half_values};
ghost use Rattle.reader.specs.Readings as Reader;
ghost use Rattle.check_entailment.specs.Answers as Checker;
ghost use Rattle.station.specs.Station.{refusal_of, numbers_in, numbers_found};

use crate::{Refusal, Refused, Reply};
use rules::Number;

#[tactic(auto, unfolding(rules::specs::Answers::refusal_number, reader::specs::Readings::refusal_of))]
fn reading_number(r: reader::Refusal) -> u32
    ensures { result ≡ refusal_number (Reader.refusal_of r) }
{
    match r {
        reader::Refusal::TextTooLong => Number::TEXT_TOO_LONG,
        reader::Refusal::BadByte => Number::BAD_BYTE,
        reader::Refusal::Malformed => Number::MALFORMED,
        reader::Refusal::LimitPassed => Number::LIMIT_PASSED,
        reader::Refusal::Undeclared => Number::UNDECLARED,
        reader::Refusal::WrongType => Number::WRONG_TYPE,
        reader::Refusal::TextEnds => Number::TEXT_ENDS,
        reader::Refusal::WrongTarget => Number::WRONG_TARGET,
    }
}

#[tactic(auto, unfolding(rules::specs::Answers::refusal_number, check_entailment::specs::Answers::refusal_of))]
fn checking_number(r: check_entailment::Refusal) -> u32
    ensures { result ≡ refusal_number (Checker.refusal_of r) }
{
    match r {
        check_entailment::Refusal::Unresolved => Number::UNRESOLVED,
        check_entailment::Refusal::NoPermission => Number::NO_PERMISSION,
        check_entailment::Refusal::NotShown => Number::NOT_SHOWN,
        check_entailment::Refusal::Full => Number::STATE_FULL,
        // A text that is read has no malformed row.
        check_entailment::Refusal::Malformed => Number::MALFORMED,
    }
}

#[tactic(auto, unfolding(rules::specs::Answers::refusal_number))]
fn number(r: Refusal) -> u32
    ensures { result ≡ refusal_number (refusal_of r) }
{
    match r {
        Refusal::Reading(why) => reading_number(why),
        Refusal::Unframed => Number::UNFRAMED,
        Refusal::Checking(why) => checking_number(why),
        Refusal::Unbounded => Number::UNBOUNDED,
        Refusal::BoundPassed => Number::BOUND_PASSED,
        Refusal::NotOneStar => Number::NOT_ONE_STAR,
        Refusal::NoSetAccepted => Number::NO_SET_ACCEPTED,
    }
}

// The C interface has numbers: 0 at line 0 where nothing is refused.
pub fn told(found: Result<(), Refused>) -> Reply
    ensures { numbers_in result ≡ numbers_found found }
{
    match found {
        Ok(()) => Reply { number: 0, line: 0 },
        Err(r) => Reply {
            number: number(r.why),
            line: r.line,
        },
    }
}

// number × 65,536 + line
pub fn pack(f: Reply) -> u32
    requires { (f.number < half_values) × (f.line < half_values) }
    ensures { result ≡ packed f.number f.line }
{
    f.number * Number::FACTOR + (f.line as u32)
}
