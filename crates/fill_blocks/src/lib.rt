// Which blocks of a program are accepted, and which of them call a method: what a change of its requires leaves as it was.
#![tactic(auto)]

ghost use Rattle.std.specs.Prelude.{◌≡◌, ◌<◌};
ghost use Rattle.rules.specs.Calls.{is_accepted};
ghost use Rattle.tables.specs.Decode.{row_count, program_in};
ghost use Rattle.tables.specs.Tables.{Tables};
ghost use Rattle.checker.specs.Checked.{verdict_of};
ghost use Rattle.fill_blocks.specs.Blocks.{block_verdict, first_row, calls_from, is_looked_at, passes, others_pass};

use bound_rows::Line;
use check_state::Known;
use checker::RefusedLine;
use tables::{Area, HeaderAt};

// ONE BLOCK: a method by its number, or main after them

fn check_block(work: &Area, j: usize, known: &mut Known) -> Result<(), RefusedLine>
    requires { Tables work.now }
    ensures { verdict_of result ≡ block_verdict (program_in work.now) j }
{
    if j < tables::method_count(work) {
        return checker::check_method(work, j, known);
    }
    checker::check_main(work, known)
}

// Is the block j accepted?
pub fn accepted(work: &Area, j: usize) -> bool
    requires { Tables work.now }
    ensures { result ≡ is_accepted (block_verdict (program_in work.now) j) }
{
    let mut known = check_forgetting::nothing();
    check_block(work, j, &mut known).is_ok()
}

// ITS CALLS

fn first_row(work: &Area, j: usize) -> usize
    requires { Tables work.now }
    ensures { (result ≡ first_row (program_in work.now) j) × (result < row_count work.now) }
{
    if j < tables::method_count(work) {
        return tables::first_row_at(work, j);
    }
    tables::main_first(work)
}

// Does the block from a row on call the method m?
fn calls(work: &Area, from: usize, m: usize) -> bool
    requires { Tables work.now × (from < row_count work.now) }
    ensures { result ≡ calls_from (program_in work.now) m from }
{
    // The block's `end` is one of the rows, so the loop does not run out.
    for i in from..tables::half_at(work, HeaderAt::ROWS) {
        match bound_rows::line_at(work, i) {
            Line::End => return false,
            Line::Call(n) => {
                if n == m {
                    return true;
                }
            }
            Line::Plain | Line::Loop => {}
        }
    }
    false
}

// Is the block j another than the method m, and one that calls it, or one that does not?
fn is_looked_at(work: &Area, m: usize, calling: bool, j: usize) -> bool
    requires { Tables work.now }
    ensures { result ≡ is_looked_at (program_in work.now) m calling j }
{
    if j == m {
        return false;
    }
    calls(work, first_row(work, j), m) == calling
}

// Is it accepted, if it is looked at?
fn passes(work: &Area, m: usize, calling: bool, j: usize) -> bool
    requires { Tables work.now }
    ensures { result ≡ passes (program_in work.now) m calling j }
{
    if is_looked_at(work, m, calling, j) {
        return accepted(work, j);
    }
    true
}

// ALL BLOCKS

// Are all other blocks accepted that call the method m, or all that do not?
pub fn others_pass(work: &Area, m: usize, calling: bool) -> bool
    requires { Tables work.now }
    ensures { result ≡ others_pass (program_in work.now) m calling }
{
    for j in 0..=tables::method_count(work) {
        if !passes(work, m, calling, j) {
            return false;
        }
    }
    true
}
