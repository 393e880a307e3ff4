// `add` and `sub` on numbers of 32 bits: the exact result, or that it does not fit.
#![tactic(auto)]

ghost use Rattle.std.specs.Prelude.{◌≡◌, ◌<◌};
ghost use Rattle.rules.specs.Syntax.{sum, difference, words, offset};
ghost use Rattle.rules.specs.Machine.{in_range, computed};
ghost use Rattle.tables.specs.Decode.{operation_of};
ghost use Rattle.run_numbers.specs.Computing.{computed_is};

use rules::Kind;

// How many numbers 32 bits hold, and the first that is negative.
const WORDS: u64 = 4294967296;

const SIGN: u64 = 2147483648;

// A number by its 32 bits, plus 2^31.
#[tactic(auto, unfolding(rules::specs::Syntax::offset))]
fn offset(v: u32) -> u64
    ensures { (result ≡ offset v) × (result < words) }
{
    (v as u64 + SIGN) % WORDS
}

#[tactic(auto, unfolding(rules::specs::Machine::in_range))]
fn in_range(n: u64) -> bool
    ensures { result ≡ in_range n }
{
    if n < SIGN {
        return false;
    }
    n < WORDS + SIGN
}

// The 32 bits of a sum do not wait for the test of its range, which goes by the sum plus 2^32.
fn add(v: u32, w: u32) -> Option<u32>
    ensures { computed_is result ≡ computed sum v w }
{
    if in_range(offset(v) + offset(w)) {
        return Some(((v as u64 + w as u64) % WORDS) as u32);
    }
    None
}

fn subtract(v: u32, w: u32) -> Option<u32>
    ensures { computed_is result ≡ computed difference v w }
{
    if in_range(offset(v) + (WORDS - offset(w))) {
        return Some(((v as u64 + (WORDS - w as u64)) % WORDS) as u32);
    }
    None
}

// The result's 32 bits, or `None`: "A result beyond 32 bits signed stops the run".
#[tactic(auto, unfolding(tables::specs::Decode::operation_of))]
pub fn compute(kind: u8, v: u32, w: u32) -> Option<u32>
    ensures { computed_is result ≡ computed (operation_of kind) v w }
{
    if kind == Kind::Add as u8 {
        return add(v, w);
    }
    subtract(v, w)
}
