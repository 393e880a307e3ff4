// A text with the line `requires *`, read with its star as a formula without atoms; the star's line, its method and that method's classes.
#![tactic(auto)]

ghost use Rattle.std.specs.Prelude.{◌≡◌, pred, ◌≤◌};
ghost use Rattle.rules.specs.Scope.{declarations};
ghost use Rattle.rules.specs.Names.{class_number};
ghost use Rattle.filling.specs.Sets.{header_of};
ghost use Rattle.read_scan.specs.Table.{most_lines};
ghost use Rattle.read_declarations.specs.Texts.{lines_of};
ghost use Rattle.reader.specs.Readings.{Tabled};
ghost use Rattle.star_reader.specs.declared.NoStar.TheVariants.{Refused};
ghost use Rattle.star_reader.specs.StarRead.{headers_in, class_names, MethodHere, LineHere, StarAt, HasText, CopyIs, StarredIs};

use read_scopes::Names;
use reader::{Refusal, RefusedLine};
use rules::{Kind, Machine};
use tables::{Area, HeaderAt};

// The star's line, and the first line that number 10 refuses, if any; the star's method, its class, and the class of its parameter.
// No Option for an int's class: the definition `class_number` of the rules, which the contract cites, is the count of classes then.
#[derive(Clone, Copy)]
pub struct Star {
    pub line: usize,
    pub unframed: Option<usize>,
    pub method: usize,
    pub class: usize,
    pub parameter: usize,
}

// Why a text has no star to fill in: it is refused, it has none, or it has a second one, at this line.
#[derive(Clone, Copy)]
pub enum NoStar {
    Refused(RefusedLine),
    Missing,
    Second(usize),
}

impl From<RefusedLine> for NoStar {
    ghost from_gives = { λ e r. r ≡ Refused e };

    fn from(e: RefusedLine) -> NoStar {
        NoStar::Refused(e)
    }
}

// THE STAR'S METHOD

// The last method whose header is one of the first `line` lines.
fn last_method(work: &Area, line: usize) -> usize
    requires { line ≤ most_lines }
    ensures { result ≡ pred (headers_in work.now line) }
{
    let mut last = 0;
    let mut next = 0;
    for i in 0..line {
        let w = read_scan::line_word(work, i);
        // A byte of the table of lines, where 0 is no kind.
        if w.kind == Kind::Method as u8 {
            last = next;
            next += 1;
        }
    }
    last
}

// How many classes there are, to look one up by its name.
fn class_names(work: &Area) -> Names
    ensures { result ≡ class_names work.now }
{
    Names {
        classes: tables::byte_at(work, HeaderAt::CLASSES),
        fields: 0,
        methods: 0,
        method: false,
        locals: 0,
        result: false,
    }
}

// The class of a method's parameter.
fn parameter_class(text: &[u8], work: &Area, method: usize) -> usize
    requires { MethodHere text.now work.now method }
    ensures { result ≡ class_number (declarations (lines_of text.now)) (header_of (declarations (lines_of text.now)) method).parameter_type }
{
    let c = class_names(work);
    let takes = read_names::takes_at(work, read_names::METHODS + method);
    read_lookups::class_number(text, work, c, read_names::name_in(text, takes))
}

fn star_at(text: &[u8], work: &Area, line: usize, unframed: Option<usize>) -> Star
    requires { LineHere text.now work.now line }
    ensures { StarAt text.now line unframed result }
{
    let method = last_method(work, line);
    let class = read_names::owner_at(work, read_names::METHODS + method);
    let parameter = parameter_class(text, work, method);
    Star {
        line,
        unframed,
        method,
        class,
        parameter,
    }
}

// THE TEXT

// By its copy, which is read.
fn read_star(
    text: &[u8],
    work: &Area,
    first: Option<usize>,
    second: Option<usize>,
    unframed: Option<usize>,
) -> Result<Star, NoStar>
    requires { HasText text.now first second × Tabled text.now work.now unframed }
    ensures { CopyIs text.now work.now first second result }
{
    let Some(line) = first else {
        return Err(NoStar::Missing);
    };
    if let Some(next) = second {
        return Err(NoStar::Second(next));
    }
    Ok(star_at(text, work, line, unframed))
}

// By its copy, and the lines of the first two stars.
fn read_copy(
    text: &[u8],
    work: &mut Area,
    first: Option<usize>,
    second: Option<usize>,
) -> Result<Star, NoStar>
    requires { HasText text.now first second }
    ensures { CopyIs text.now work.new first second result }
{
    let unframed = reader::read(text, work)?;
    read_star(text, work, first, second, unframed)
}

// The text, which leaves its tables in the work area.
pub fn read(text: &[u8], work: &mut Area) -> Result<Star, NoStar>
    ensures { StarredIs text.now work.new result }
{
    if Machine::TEXT_BYTES < text.len() {
        return Err(NoStar::Refused(RefusedLine {
            why: Refusal::TextTooLong,
            line: 0,
        }));
    }
    let mut copy = [0u8; Machine::TEXT_BYTES];
    let s = unstarring::unstar(text, &mut copy);
    read_copy(&copy[..s.len], work, s.first, s.second)
}
