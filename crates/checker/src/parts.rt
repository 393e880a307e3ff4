// How a row ends, and a part of a branch or a loop's body.
ghost use Rattle.std.specs.Prelude.{◌≡◌, ◌+◌, ◌≤◌, ◌<◌};
ghost use Rattle.rules.specs.Limits.{most_statements};
ghost use Rattle.rules.specs.Grammar.{Return, Loop};
ghost use Rattle.tables.specs.Layout.{most_atom_rows};
ghost use Rattle.tables.specs.Decode.{row_count, atoms_from};
ghost use Rattle.tables.specs.Tables.{Tables};
ghost use Rattle.check_state.specs.States.{state_of};
ghost use Rattle.check_rows.specs.Rows.{RowIs};
ghost use Rattle.checker.specs.Checked.{at_row, passed_at, Returns, Ended, Turned, BranchClosed, BodyClosed};

use crate::{Reached, RefusedRow};
use check_entailment::Refusal;
use check_state::Known;
use rules::Kind;
use tables::Area;

// A row's refusal, if there is one.
pub fn at_row(r: Result<(), Refusal>, row: usize) -> Result<(), RefusedRow>
    ensures { result ≡ at_row r row tt }
{
    r.map_err(|why| RefusedRow { why, row })
}

// Row i is done, or why not.
pub fn passed(r: Result<(), Refusal>, i: usize) -> Result<Reached, RefusedRow>
    requires { i < most_statements }
    ensures { result ≡ passed_at r i }
{
    at_row(r, i)?;
    Ok(Reached {
        at: i + 1,
        returned: false,
    })
}

// `return x` in a block that must show n atoms from the atom a on. No state is left after it.
pub fn return_at(
    w: &Area,
    i: usize,
    a: usize,
    n: usize,
    known: &mut Known,
) -> Result<Reached, RefusedRow>
    requires { Tables w.now × (i < row_count w.now) × RowIs w.now i Return × (a + n ≤ most_atom_rows) }
    ensures { Returns w.now i (atoms_from w.now a n) (state_of known.old.keys known.old.bytes) result known.new.keys known.new.bytes }
{
    let x = tables::x_at(w, i) as u8;
    at_row(check_statements::return_rule(w, known, x, a, n), i)?;
    Ok(Reached {
        at: i + 1,
        returned: true,
    })
}

// A first part's end, which must be its `else`.
pub fn turned(w: &Area, one: Reached) -> Result<(), RefusedRow>
    requires { Tables w.now × Ended w.now one }
    ensures { Turned w.now one result }
{
    if tables::row_kind(w, one.at) == Kind::Else {
        return Ok(());
    }
    Err(RefusedRow {
        why: Refusal::Malformed,
        row: one.at,
    })
}

// A second part's end, which must be its `join`. The first part's end, in `known`, becomes the state after it.
pub fn joined(
    w: &Area,
    two: Reached,
    returned: bool,
    known: &mut Known,
    other: &Known,
) -> Result<Reached, RefusedRow>
    requires { Tables w.now × Ended w.now two }
    ensures { BranchClosed w.now two other.now.keys other.now.bytes returned known.old.keys known.old.bytes result known.new.keys known.new.bytes }
{
    let at = two.at;
    if tables::row_kind(w, at) == Kind::Join {
        let l = check_rows::join_at(w, at, returned, known, two.returned, other);
        return passed(l, at);
    }
    Err(RefusedRow {
        why: Refusal::Malformed,
        row: at,
    })
}

// The end of the body of the `loop` at row i, which must be its `again`.
pub fn closed(w: &Area, i: usize, end: Reached, known: &mut Known) -> Result<Reached, RefusedRow>
    requires { Tables w.now × (i < row_count w.now) × RowIs w.now i Loop × Ended w.now end }
    ensures { BodyClosed w.now i end (state_of known.old.keys known.old.bytes) result known.new.keys known.new.bytes }
{
    let at = end.at;
    if tables::row_kind(w, at) == Kind::Again {
        let l = check_rows::again_at(w, i, end.returned, known);
        return passed(l, at);
    }
    Err(RefusedRow {
        why: Refusal::Malformed,
        row: at,
    })
}
