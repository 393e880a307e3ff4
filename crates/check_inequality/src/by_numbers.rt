// Way (b): two numbers that are ~ the terms.
ghost use Rattle.std.specs.Prelude.{◌≡◌, ◌≤◌, ◌<◌};
ghost use Rattle.rules.specs.Base.{any};
ghost use Rattle.rules.specs.Limits.{most_facts};
ghost use Rattle.check_state.specs.Questions.{places};
ghost use Rattle.check_inequality.specs.Ways.{most_terms, number_like, other_like, other_number, two_numbers, FactLabel, NumbersTold};

use check_equality::State;

// Is k a number's key, and the number ~ the term of l?
pub fn number_like(k: u64, c: u8, l: u64, b: u8) -> bool
    ensures { result ≡ number_like k c l b }
{
    if k < State::FIRST_NUMBER {
        return false;
    }
    check_equality::alike(k, c, l, b)
}

fn other_like(j: u64, l: u64, b: u8, k: u64, c: u8) -> bool
    ensures { result ≡ other_like j l b k c }
{
    if j == k {
        return false;
    }
    number_like(k, c, l, b)
}

// Is a number other than that of j ~ the term of l?
// Not one with the search below: each is a loop of one test, and a closure in its place would need a clause that says the test again.
fn other_number<'a>(
    key: &'a [u64; State::SLOTS],
    label: &'a [u8; State::BYTES],
    n: usize,
    l: u64,
    b: u8,
    j: u64,
) -> bool
    requires { n ≤ most_terms }
    ensures { result ≡ other_number key.now label.now n l b j }
{
    for i in 0..n {
        if other_like(j, l, b, key[State::TERMS + i], label[State::TERMS + i]) {
            return true;
        }
    }
    false
}

// Is the term in slot TERMS + i a number ~ the term of t, and another one ~ that of u?
fn two_numbers<'a>(
    key: &'a [u64; State::SLOTS],
    label: &'a [u8; State::BYTES],
    n: usize,
    t: u64,
    a: u8,
    u: u64,
    b: u8,
    i: usize,
) -> bool
    requires { (n ≤ most_terms) × (i < n) }
    ensures { result ≡ two_numbers key.now label.now n t a u b i }
{
    let k = key[State::TERMS + i];
    if number_like(k, label[State::TERMS + i], t, a) {
        return other_number(key, label, n, u, b, k);
    }
    false
}

// (b) Are two numbers ~ the terms of t and u?
fn different_numbers<'a>(
    key: &'a [u64; State::SLOTS],
    label: &'a [u8; State::BYTES],
    n: usize,
    t: u64,
    a: u8,
    u: u64,
    b: u8,
) -> bool
    requires { n ≤ most_terms }
    ensures { result ≡ any (two_numbers key.now label.now n t a u b) (places n) }
{
    for i in 0..n {
        if two_numbers(key, label, n, t, a, u, b, i) {
            return true;
        }
    }
    false
}

// (b) with the two terms in the slots before the facts.
pub fn numbers_apart<'a>(
    key: &'a [u64; State::SLOTS],
    label: &'a [u8; State::BYTES],
    n: usize,
    t: u64,
    a: u8,
    u: u64,
    b: u8,
) -> bool
    requires { (n ≤ most_facts) × FactLabel key.now label.now n t a × FactLabel key.now label.now n u b }
    ensures { NumbersTold key.now label.now n t u result }
{
    let mut k = *key;
    k[State::TERMS] = t;
    k[State::NULL] = u;
    let mut l = *label;
    l[State::TERMS] = a;
    l[State::NULL] = b;
    different_numbers(&k, &l, 2 + 2 * n, t, a, u, b)
}
