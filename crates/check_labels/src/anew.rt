// The facts that stay, linked one after the other, with labels made anew.
ghost use Rattle.std.specs.Prelude.{◌+◌, ◌<◌, ◌*◌};
ghost use Rattle.rules.specs.Limits.{most_facts};
ghost use Rattle.check_equality.specs.Layout.{left_sides};
ghost use Rattle.check_equality.specs.Links.{Marked};
ghost use Rattle.check_state.specs.States.{Linked};
ghost use Rattle.check_labels.specs.Facts.{Fresh, KeepsFact, Sized, Rebuilt};

use check_equality::State;

// The labels of the slots before the facts' are their own numbers.
// Not one with `header` of `check_forgetting`, which makes words and gives null a key of its own.
pub fn fresh(b: &mut [u8; State::BYTES])
    ensures { Fresh b.old b.new }
{
    for i in 0..State::LEFT {
        b[i] = i as u8;
    }
}

// One more fact, unless it is out; the count of facts then.
fn keep_fact(
    key: &mut [u64; State::SLOTS],
    b: &mut [u8; State::BYTES],
    marks: &mut [bool; State::MARKS],
    n: usize,
    out: bool,
    c: u8,
    l: u64,
    r: u64,
) -> usize
    requires { (n < most_facts) × Linked key.old b.old n × Marked key.old marks.old (left_sides + 2 * n) }
    ensures { KeepsFact key.old b.old n out c l r key.new b.new result × Marked key.new marks.new (left_sides + 2 * result) }
{
    if out {
        return n;
    }
    check_equality::push_marked(
        key,
        b,
        marks,
        State::LEFT + 2 * n,
        c == State::UNEQUAL,
        l,
        r,
    );
    b[State::RELATIONS + n] = c;
    n + 1
}

// The facts of which no side is gone, but for equalities with one term on both sides, with labels made anew.
pub fn rebuild(
    key: &mut [u64; State::SLOTS],
    b: &mut [u8; State::BYTES],
    gone: &[bool; State::SLOTS],
)
    requires { Sized key.old b.old }
    ensures { Rebuilt key.old b.old gone.now key.new b.new }
{
    let all = b[State::FACTS] as usize;
    let mut marks = [false; State::MARKS];
    fresh(b);
    let mut n = 0;
    for i in 0..all {
        let out = crate::is_out(key, b, gone, i);
        let c = b[State::RELATIONS + i];
        let left = key[State::LEFT + 2 * i];
        let right = key[State::RIGHT + 2 * i];
        n = keep_fact(key, b, &mut marks, n, out, c, left, right);
    }
    b[State::FACTS] = n as u8;
}
