// Where `if`, `else`, `loop` and `again` go on, by one walk over the rows; the tables ended.
#![tactic(auto)]

ghost use Rattle.std.specs.Prelude.{◌≡◌, ◌+◌, ◌≤◌, ◌<◌, []};
ghost use Rattle.rules.specs.Numbered.{number};
ghost use Rattle.rules.specs.Limits.{most_statements};
ghost use Rattle.tables.specs.Numbers.{byte_values, half_values};
ghost use Rattle.targets.specs.Targets.{StackFits, stack_of, pushed, popped, replaced, open_after, put_target, closed, work_after, targets_from};
ghost use Rattle.write_rows.specs.Puts.{put_header};

use rules::{Kind, Machine};
use tables::{Area, Bytes, Layout, RowAt, kind_at, put_half};

// The rows of the open branches and loops: how many, and their numbers as bytes, the innermost lowest. Not an array with a length: as one
// number it is passed and pushed to without an index.
#[derive(Clone, Copy)]
pub struct Open {
    pub depth: usize,
    pub rows: usize,
}

fn push(o: Open, i: usize) -> Open
    requires { (StackFits o.depth o.rows) × (i < most_statements) }
    ensures { (stack_of result.depth result.rows ≡ pushed i (stack_of o.depth o.rows)) × (StackFits result.depth result.rows) }
{
    let depth = o.depth;
    if depth < Machine::BRANCHES {
        return Open {
            depth: depth + 1,
            rows: o.rows * Bytes::VALUES + i,
        };
    }
    o
}

fn pop(o: Open) -> Open
    requires { StackFits o.depth o.rows }
    ensures { (stack_of result.depth result.rows ≡ popped (stack_of o.depth o.rows)) × (StackFits result.depth result.rows) }
{
    let depth = o.depth;
    if depth == 0 {
        return o;
    }
    Open {
        depth: depth - 1,
        rows: o.rows / Bytes::VALUES,
    }
}

fn replace(o: Open, i: usize) -> Open
    requires { (StackFits o.depth o.rows) × (i < most_statements) }
    ensures { (stack_of result.depth result.rows ≡ replaced i (stack_of o.depth o.rows)) × (StackFits result.depth result.rows) }
{
    let depth = o.depth;
    if depth == 0 {
        return o;
    }
    Open {
        depth: depth,
        rows: o.rows / Bytes::VALUES * Bytes::VALUES + i,
    }
}

// The open rows after row i of kind k.
// A match and no closure: `push` and `replace` take the row and `pop` does not.
fn open_after(k: Kind, i: usize, o: Open) -> Open
    requires { (StackFits o.depth o.rows) × (i < most_statements) }
    ensures { (stack_of result.depth result.rows ≡ open_after (number k) i (stack_of o.depth o.rows)) × (StackFits result.depth result.rows) }
{
    match k {
        Kind::If => push(o, i),
        Kind::Else => replace(o, i),
        Kind::Join => pop(o),
        Kind::Loop => push(o, i),
        Kind::Again => pop(o),
        _ => o,
    }
}

// Row t goes on to row v.
#[tactic(auto, unfolding(crate::specs::Targets::put_target))]
fn put_target(work: &mut Area, t: usize, v: usize)
    requires { (t < most_statements) × (v < half_values) }
    ensures { work.new ≡ put_target work.old t v }
{
    put_half(
        work,
        Layout::ROWS + t * Layout::ROW_BYTES + RowAt::TARGET,
        v,
    );
}

// What row i of kind k says of row t, which it closes.
fn close(work: &mut Area, k: Kind, i: usize, t: usize)
    requires { (i < most_statements) × (t < most_statements) }
    ensures { work.new ≡ closed work.old (number k) i t }
{
    match k {
        Kind::Else => put_target(work, t, i + 1),
        Kind::Join => put_target(work, t, i),
        Kind::Again => {
            put_target(work, t, i + 1);
            put_target(work, i, t);
        }
        _ => {}
    }
}

// What it says of the innermost open row.
fn work_after(work: &mut Area, k: Kind, i: usize, o: Open)
    requires { i < most_statements }
    ensures { work.new ≡ work_after work.old (number k) i (stack_of o.depth o.rows) }
{
    if o.depth != 0 {
        close(work, k, i, o.rows % Bytes::VALUES);
    }
}

// Gives each `if`, `else`, `loop` and `again` of n rows the row that it goes on to.
#[tactic(auto, unfolding(crate::specs::Targets::power, crate::specs::Targets::stack_of))]
pub fn set_targets(work: &mut Area, n: usize)
    requires { n ≤ most_statements }
    ensures { work.new ≡ targets_from work.old 0 n [] }
{
    let mut o = Open { depth: 0, rows: 0 };
    for i in 0..n {
        if let Ok(k) = Kind::try_from(kind_at(work, i)) {
            work_after(work, k, i, o);
            o = open_after(k, i, o);
        }
    }
}

// Ends the tables of a text: where rows go on, then the counts and main's first row.
pub fn finish(
    work: &mut Area,
    rows: usize,
    atoms: usize,
    classes: usize,
    methods: usize,
    main: usize,
)
    requires { ((rows ≤ most_statements) × (atoms < half_values)) × ((classes < byte_values) × ((methods < byte_values) × (main < half_values))) }
    ensures { work.new ≡ put_header (targets_from work.old 0 rows []) rows atoms classes methods main }
{
    set_targets(work, rows);
    write_rows::put_header(work, rows, atoms, classes, methods, main);
}
