// The route: its top block is counted on, left when it is done, and waits for the methods that it calls.
ghost use Rattle.std.specs.Prelude.{◌≡◌, suc, ◌≤◌, ◌<◌};
ghost use Rattle.rules.specs.Limits.{most_methods};
ghost use Rattle.tables.specs.Decode.{first_row_at};
ghost use Rattle.tables.specs.Tables.{Tables};
ghost use Rattle.bound_walk.specs.Walk.{Walking, Turned, left, into, waiting, begun};

use crate::counting::scan;
use crate::{Halt, Marks, Open, Reckoned, Route, Visit};
use rules::Machine;
use tables::Area;

// The block on top is done: its method has its bound.
#[tactic(auto, unfolding(crate::specs::Walk::left))]
fn leave(mut r: Route, top: usize, b: Open) -> Route
    requires { (b.method < most_methods) × (b.frames ≤ suc most_methods) }
    ensures { result ≡ left r top b }
{
    r.marks[b.method] = Reckoned {
        visit: Visit::Done(b.sum),
        frames: b.frames + 1,
    };
    r.depth = top;
    r
}

// The block on top waits for the method c, whose block is the new top.
#[tactic(auto, unfolding(crate::specs::Walk::into))]
fn enter(mut r: Route, top: usize, b: Open, c: usize, first: usize) -> Route
    requires { (top < most_methods) × (c < most_methods) }
    ensures { result ≡ into r top b c first }
{
    r.blocks[top] = b;
    r.blocks[top + 1] = Open {
        method: c,
        row: first,
        sum: 0,
        frames: 0,
    };
    r.marks[c] = Reckoned {
        visit: Visit::OnRoute,
        frames: 0,
    };
    r.depth = top + 2;
    r
}

// The block on top waits for the method c: if it is on the route, there is no bound, and if not, it is entered.
#[tactic(auto, unfolding(crate::specs::Walk::waiting))]
fn wait(work: &Area, r: Route, top: usize, b: Open, c: usize, v: Visit) -> Option<Route>
    requires { (top < most_methods) × (c < most_methods) }
    ensures { result ≡ waiting r top b c (first_row_at work.now c) v }
{
    match v {
        Visit::OnRoute => None,
        Visit::NotVisited | Visit::Done(_) => {
            Some(enter(r, top, b, c, tables::first_row_at(work, c)))
        }
    }
}

// One turn of the walk, or that there is no bound.
pub fn turn(work: &Area, r: Route) -> Option<Route>
    requires { Tables work.now × (Walking work.now r × (0 < r.depth)) }
    ensures { Turned work.now r result }
{
    let top = r.depth - 1;
    let s = scan(work, r.marks, r.blocks[top]);
    match s.found {
        Halt::End => Some(leave(r, top, s.block)),
        Halt::Loop => None,
        Halt::Wait(c) => wait(work, r, top, s.block, c, r.marks[c].visit),
    }
}

// The walk at its start: only this method is on the route.
#[tactic(auto, unfolding(crate::specs::Walk::begun))]
pub fn begin(work: &Area, mut marks: Marks, start: usize) -> Route
    requires { start < most_methods }
    ensures { result ≡ begun marks start (first_row_at work.now start) }
{
    let mut blocks = [Open {
        method: 0,
        row: 0,
        sum: 0,
        frames: 0,
    }; Machine::METHODS + 1];
    blocks[0] = Open {
        method: start,
        row: tables::first_row_at(work, start),
        sum: 0,
        frames: 0,
    };
    marks[start] = Reckoned {
        visit: Visit::OnRoute,
        frames: 0,
    };
    Route {
        marks,
        blocks,
        depth: 1,
    }
}
