// How far pass 2 is.
#![tactic(auto)]

use read_scopes::{Above, Names};

// How far pass 2 is: what a line may name, what the lines above declare, the rows and atoms that are written, main's first row, how
// many lines are above, and the first of them that number 10 refuses, if any.
#[derive(Clone, Copy)]
pub struct Pass {
    pub names: Names,
    pub above: Above,
    pub rows: usize,
    pub atoms: usize,
    pub main: usize,
    pub line: usize,
    pub unframed: Option<usize>,
}
