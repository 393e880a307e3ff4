// Way (a): an inequality that is listed.
ghost use Rattle.std.specs.Prelude.{◌≡◌, false, ◌||◌, ◌≤◌, eqb};
ghost use Rattle.rules.specs.Base.{any};
ghost use Rattle.rules.specs.Limits.{most_facts};
ghost use Rattle.check_state.specs.Questions.{places};
ghost use Rattle.check_inequality.specs.Ways.{either_way, unequal_at, unequal_in};

use check_equality::State;

fn either_way(x: u8, y: u8, a: u8, b: u8) -> bool
    ensures { result ≡ either_way x y a b }
{
    ((x == a) & (y == b)) | ((x == b) & (y == a))
}

fn unequal_at(c: u8, x: u8, y: u8, a: u8, b: u8) -> bool
    ensures { result ≡ unequal_at c x y a b }
{
    if c == State::UNEQUAL {
        either_way(x, y, a, b)
    } else {
        false
    }
}

// So many facts are looked at together.
const BLOCK: usize = 8;

// Is one of eight facts an inequality?
fn some_unequal(a: u8, b: u8, c: u8, d: u8, e: u8, f: u8, g: u8, h: u8) -> bool
    ensures { result ≡ (((((((eqb a 1 || eqb b 1) || eqb c 1) || eqb d 1) || eqb e 1) || eqb f 1) || eqb g 1) || eqb h 1) }
{
    (a == State::UNEQUAL)
        | (b == State::UNEQUAL)
        | (c == State::UNEQUAL)
        | (d == State::UNEQUAL)
        | (e == State::UNEQUAL)
        | (f == State::UNEQUAL)
        | (g == State::UNEQUAL)
        | (h == State::UNEQUAL)
}

// Is an inequality whose sides have the labels x and y among the facts up to n, where none is before `from`?
// Not one with the searches of `by_numbers`: the test is the whole loop, and as a closure it would need a clause that says it again.
fn unequal_from(b: &[u8; State::BYTES], from: usize, n: usize, x: u8, y: u8) -> bool
    requires { (from ≤ n) × (n ≤ most_facts) × (any (unequal_in b.now x y) (places from) ≡ false) }
    ensures { result ≡ any (unequal_in b.now x y) (places n) }
{
    for i in from..n {
        if unequal_at(
            b[State::RELATIONS + i],
            b[State::LEFT + 2 * i],
            b[State::RIGHT + 2 * i],
            x,
            y,
        ) {
            return true;
        }
    }
    false
}

// (a) Is an inequality listed whose sides have the labels x and y?
pub fn listed_unequal(b: &[u8; State::BYTES], n: usize, x: u8, y: u8) -> bool
    requires { n ≤ most_facts }
    ensures { result ≡ any (unequal_in b.now x y) (places n) }
{
    let blocks = n / BLOCK;
    for g in 0..blocks {
        let i = g * BLOCK;
        if some_unequal(
            b[State::RELATIONS + i],
            b[State::RELATIONS + (i + 1)],
            b[State::RELATIONS + (i + 2)],
            b[State::RELATIONS + (i + 3)],
            b[State::RELATIONS + (i + 4)],
            b[State::RELATIONS + (i + 5)],
            b[State::RELATIONS + (i + 6)],
            b[State::RELATIONS + (i + 7)],
        ) {
            if unequal_from(b, i, i + BLOCK, x, y) {
                return true;
            }
        }
    }
    unequal_from(b, blocks * BLOCK, n, x, y)
}
