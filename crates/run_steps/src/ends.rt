// How a run ends, of this machine and of the lean one: they differ in why a step is not done.
ghost use Rattle.std.specs.Prelude.{◌≡◌, ◌<◌};
ghost use Rattle.rules.specs.Limits.{most_statements};
ghost use Rattle.tables.specs.Decode.{line_at};

use tables::Area;

// How a run ends.
#[derive(Clone, Copy)]
pub enum Ending<S> {
    Finished,
    StepsTaken,
    Stopped(S),
}

// What a run ends with; main's values are in its frame, from byte FRAMES + 8 of the work area on.
#[derive(Clone, Copy)]
pub struct Ran<S> {
    pub ending: Ending<S>,
    pub line: u32,
    pub steps: u32,
}

// A run that stands at a row.
pub fn ended<S>(work: &Area, row: u32, e: Ending<S>, n: u32) -> Ran<S>
    requires { row < most_statements }
    ensures { ((result.ending ≡ e) × (result.line ≡ line_at work.now row)) × (result.steps ≡ n) }
{
    let line = tables::line_at(work, row as usize);
    Ran {
        ending: e,
        line: line as u32,
        steps: n,
    }
}
