// The keys of terms.
ghost use Rattle.std.specs.Prelude.{◌≡◌, ◌+◌, ◌*◌, ◌<◌};
ghost use Rattle.rules.specs.Syntax as Syntax;
ghost use Rattle.check_equality.specs.Keys.{term_of, meaning, null_key, first_path, first_number, paths};

use crate::{State, Term};

// A variable's key.
pub fn variable_key(x: u8) -> u64
    ensures { (term_of result ≡ Syntax.var x) × (result ≡ x) × (result < null_key) }
{
    u64::from(x)
}

// A path's key.
pub fn path_key(x: u8, f: u8) -> u64
    ensures { (term_of result ≡ Syntax.path x f) × (result ≡ first_path + x * paths + f) × (result < first_number) }
{
    State::FIRST_PATH + u64::from(x) * State::PATHS + u64::from(f)
}

fn number_key(n: u32) -> u64
    ensures { term_of result ≡ Syntax.num n }
{
    State::FIRST_NUMBER + u64::from(n)
}

// A term's key.
// A match on an enum: each kind of term has a key of its own making.
pub fn key_of(t: Term) -> u64
    ensures { term_of result ≡ meaning t }
{
    match t {
        Term::Num(n) => number_key(n),
        Term::Null => State::NULL_KEY,
        Term::Var(x) => variable_key(x),
        Term::Path(x, f) => path_key(x, f),
    }
}
