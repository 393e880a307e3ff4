// The walk over the calls of a program, which gives main's bound and the most frames on a route of calls: "a struct per method with an
// enum: not visited, on the present route, or done with its bound". The present route is a stack of blocks.
#![tactic(auto)]

mod counting;
mod turns;

ghost use Rattle.std.specs.Prelude.{◌≡◌, ◌<◌};
ghost use Rattle.tables.specs.Decode.{method_count, program_in};
ghost use Rattle.tables.specs.Tables.{Tables};
ghost use Rattle.bound_walk.specs.Walk.{Rested, Settles, FreshAt, Reckons, AllReckoned, reckoned};

use counting::scan;
use rules::Machine;
use tables::Area;
use turns::{begin, turn};

#[derive(Clone, Copy)]
pub enum Visit {
    NotVisited,
    OnRoute,
    Done(u32),
}

// A method; frames: where it is done, the most on a route that starts with it.
#[derive(Clone, Copy)]
pub struct Reckoned {
    pub visit: Visit,
    pub frames: u32,
}

// A block whose rows before `row` are counted: their sum, and the most frames on a route that starts with one of their calls.
#[derive(Clone, Copy)]
pub struct Open {
    pub method: usize,
    pub row: usize,
    pub sum: u32,
    pub frames: u32,
}

// Where the counting of a block stops: at a call of a method that is not done, at a loop, or at the block's `end`.
#[derive(Clone, Copy)]
pub enum Halt {
    Wait(usize),
    Loop,
    End,
}

#[derive(Clone, Copy)]
pub struct Scanned {
    pub block: Open,
    pub found: Halt,
}

// What is known of each method.
pub type Marks = [Reckoned; Machine::METHODS];

// And the blocks of the present route, the outermost first: a buffer and how many there are, since nothing is on a heap.
#[derive(Clone, Copy)]
pub struct Route {
    pub marks: Marks,
    pub blocks: [Open; Machine::METHODS + 1],
    pub depth: usize,
}

// Main's bound and the most frames on a route of calls.
#[derive(Clone, Copy)]
pub struct Bound {
    pub steps: u32,
    pub frames: u32,
}

// Why there is none: a line leaves no bound, or it is passed.
#[derive(Clone, Copy)]
pub enum Refusal {
    Unbounded,
    Passed,
}

// What is known once a method and all that it reaches are reckoned, or that there is no bound.
fn settle(work: &Area, marks: Marks, start: usize) -> Option<Marks>
    requires { Tables work.now × (Rested work.now marks × (FreshAt marks start × (start < method_count work.now))) }
    ensures { Settles work.now marks start result }
{
    let mut r = begin(work, marks, start);
    while 0 < r.depth {
        r = turn(work, r)?;
    }
    Some(r.marks)
}

// The same of a method that may be reckoned already.
fn settle_one(work: &Area, marks: Marks, n: usize) -> Option<Marks>
    requires { Tables work.now × (Rested work.now marks × (n < method_count work.now)) }
    ensures { Settles work.now marks n result }
{
    match marks[n].visit {
        Visit::NotVisited => settle(work, marks, n),
        Visit::OnRoute | Visit::Done(_) => Some(marks),
    }
}

// All methods are reckoned, or there is no bound.
fn settle_all(work: &Area) -> Option<Marks>
    requires { Tables work.now }
    ensures { Reckons work.now result }
{
    let mut marks = [Reckoned {
        visit: Visit::NotVisited,
        frames: 0,
    }; Machine::METHODS];
    for n in 0..tables::method_count(work) {
        marks = settle_one(work, marks, n)?;
    }
    Some(marks)
}

// Main's rows, where all methods are reckoned.
fn reckon_main(work: &Area, marks: Marks) -> Result<Bound, Refusal>
    requires { Tables work.now × AllReckoned work.now marks }
    ensures { result ≡ reckoned (program_in work.now) }
{
    let main = Open {
        method: 0,
        row: tables::main_first(work),
        sum: 0,
        frames: 0,
    };
    let s = scan(work, marks, main);
    let b = s.block;
    match s.found {
        Halt::Wait(_) | Halt::Loop => Err(Refusal::Unbounded),
        Halt::End => {
            if (Machine::BOUND as u32) < b.sum {
                return Err(Refusal::Passed);
            }
            Ok(Bound {
                steps: b.sum,
                frames: b.frames + 1,
            })
        }
    }
}

// Main's bound and the most frames on a route of calls; or that a line leaves no bound, or that it is passed.
pub fn reckon(work: &Area) -> Result<Bound, Refusal>
    requires { Tables work.now }
    ensures { result ≡ reckoned (program_in work.now) }
{
    let Some(marks) = settle_all(work) else {
        return Err(Refusal::Unbounded);
    };
    reckon_main(work, marks)
}
