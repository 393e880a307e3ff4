// Which methods a method is and reaches by calls: those that were come to are looked through in their order.
ghost use Rattle.std.specs.Prelude.{◌≡◌, ◌≤◌, ◌<◌};
ghost use Rattle.rules.specs.Limits.{most_methods};
ghost use Rattle.tables.specs.Decode.{method_count};
ghost use Rattle.tables.specs.Tables.{Tables};
ghost use Rattle.bound_lines.specs.Reach.{added, Seeking, Has, Gathered, Reaches, begun};

use crate::Reached;
use bound_rows::Line;
use rules::Machine;
use tables::Area;

// With the method c, if it is not there.
fn add(q: Reached, c: usize) -> Reached
    requires { (c < most_methods) × (q.count ≤ most_methods) }
    ensures { result ≡ added q c }
{
    let mut has = q.has;
    if has[c] {
        return q;
    }
    let at = q.count;
    if Machine::METHODS <= at {
        return q;
    }
    let mut order = q.order;
    has[c] = true;
    order[at] = c;
    Reached {
        has: has,
        order: order,
        count: at + 1,
    }
}

// With all that the method m calls; c is where the search began.
fn gather(work: &Area, q: Reached, m: usize, c: usize) -> Reached
    requires { Tables work.now × (Seeking work.now c q × (Has q m × (m < method_count work.now))) }
    ensures { Gathered work.now c m q result }
{
    let mut k = q;
    let mut row = tables::first_row_at(work, m);
    // A loop: which row is the method's `end` is known only there.
    loop {
        match bound_rows::line_at(work, row) {
            Line::Plain | Line::Loop => {}
            Line::Call(d) => {
                k = add(k, d);
            }
            Line::End => {
                return k;
            }
        }
        row += 1;
    }
}

#[tactic(auto, unfolding(crate::specs::Reach::begun))]
fn begin(c: usize) -> Reached
    requires { c < most_methods }
    ensures { result ≡ begun c }
{
    let mut has = [false; Machine::METHODS];
    let mut order = [0; Machine::METHODS];
    has[c] = true;
    order[0] = c;
    Reached {
        has: has,
        order: order,
        count: 1,
    }
}

// What the method c is and reaches.
pub fn reach(work: &Area, c: usize) -> Reached
    requires { Tables work.now × (c < method_count work.now) }
    ensures { Reaches work.now c result }
{
    let mut q = begin(c);
    let mut head = 0;
    // A while: the queue grows as it is looked through.
    while head < q.count {
        q = gather(work, q, q.order[head], c);
        head += 1;
    }
    q
}
