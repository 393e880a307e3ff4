// The first line that leaves no bound: a loop, or a call that can come back to the method that the line is in.
#![tactic(auto)]

mod queue;

ghost use Rattle.std.specs.Prelude.{◌≡◌, ◌<◌};
ghost use Rattle.rules.specs.Bounds.{first_repeating};
ghost use Rattle.tables.specs.Decode.{row_count, method_count, program_in};
ghost use Rattle.tables.specs.Tables.{Tables};
ghost use Rattle.bound_rows.specs.Lines.{blocks_in};
ghost use Rattle.bound_lines.specs.Lines.{OwnerFits, CallThere, owner_of, looked_at, place_of, first_of};

use bound_rows::Line;
use queue::reach;
use rules::Machine;
use tables::Area;

// The methods that were come to: which they are, and in which order. Arrays and a count, since the library has no heap.
#[derive(Clone, Copy)]
pub struct Reached {
    pub has: [bool; Machine::METHODS],
    pub order: [usize; Machine::METHODS],
    pub count: usize,
}

#[derive(Clone, Copy)]
pub enum Seen {
    Repeats,
    Ends,
    Goes,
}

// In each function the owner is the method that the line is in; in main there is none.
fn look_call(work: &Area, owner: Option<usize>, c: usize) -> Seen
    requires { Tables work.now × (OwnerFits owner × (c < method_count work.now)) }
    ensures { result ≡ looked_at (blocks_in work.now) (owner_of owner) (Line.Call c) }
{
    let Some(a) = owner else {
        return Seen::Goes;
    };
    let q = reach(work, c);
    if q.has[a] {
        return Seen::Repeats;
    }
    Seen::Goes
}

// Is the line one that leaves no bound, or the last of its block?
#[tactic(auto, unfolding(crate::specs::Lines::looked_at))]
fn look(work: &Area, owner: Option<usize>, line: Line) -> Seen
    requires { Tables work.now × (OwnerFits owner × CallThere work.now line) }
    ensures { result ≡ looked_at (blocks_in work.now) (owner_of owner) line }
{
    match line {
        Line::Plain => Seen::Goes,
        Line::Call(c) => look_call(work, owner, c),
        Line::Loop => Seen::Repeats,
        Line::End => Seen::Ends,
    }
}

// The first such line of the block that starts at this row.
fn first_in(work: &Area, owner: Option<usize>, start: usize) -> Option<usize>
    requires { Tables work.now × (OwnerFits owner × (start < row_count work.now)) }
    ensures { result ≡ first_of work.now (owner_of owner) start }
{
    let mut row = start;
    // A loop: which row is the block's `end` is known only there.
    loop {
        let line = bound_rows::line_at(work, row);
        match look(work, owner, line) {
            Seen::Repeats => {
                return Some(tables::line_at(work, row));
            }
            Seen::Ends => {
                return None;
            }
            Seen::Goes => {
                row += 1;
            }
        }
    }
}

// The first such line of the text.
pub fn first_line(work: &Area) -> Option<usize>
    requires { Tables work.now }
    ensures { result ≡ place_of (first_repeating (program_in work.now)) }
{
    for a in 0..tables::method_count(work) {
        if let Some(l) = first_in(work, Some(a), tables::first_row_at(work, a)) {
            return Some(l);
        }
    }
    first_in(work, None, tables::main_first(work))
}
