// What a row of the tables is to a bound: the end of its block, a call, a loop, or one more line.
#![tactic(auto)]

ghost use Rattle.std.specs.Prelude.{◌≡◌, ◌<◌};
ghost use Rattle.tables.specs.Decode.{row_count};
ghost use Rattle.tables.specs.Tables.{Tables};
ghost use Rattle.bound_rows.specs.Lines.{line_in};

use rules::Kind;
use tables::Area;

#[derive(Clone, Copy)]
pub enum Line {
    Plain,
    Call(usize),
    Loop,
    End,
}

// The row i.
pub fn line_at(work: &Area, i: usize) -> Line
    requires { Tables work.now × (i < row_count work.now) }
    ensures { result ≡ line_in work.now i }
{
    match tables::row_kind(work, i) {
        Kind::Call => Line::Call(tables::member_at(work, i)),
        Kind::Loop => Line::Loop,
        Kind::End => Line::End,
        _ => Line::Plain,
    }
}
