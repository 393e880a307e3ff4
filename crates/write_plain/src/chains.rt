// The rows of `open` and `shut`, which name a chain.
ghost use Rattle.std.specs.Prelude.{◌≡◌, ◌≤◌, length};
ghost use Rattle.tables.specs.Layout.{frame_variables};
ghost use Rattle.read_names.specs.Rows.{name_in};
ghost use Rattle.read_scopes.specs.Meanings.{AreaFits};
ghost use Rattle.read_types.specs.Types.{ChainIn};
ghost use Rattle.write_plain.specs.Plain.{open_row, shut_row, open_judged, shut_judged, TriedAfter, may_open};

use read_names::Span;
use read_scopes::Names;
use read_types::{Fault, Member};
use rules::Kind;
use tables::{Area, Operands};

// `chain x f`, by the places of both names
fn chain_at(text: &[u8], work: &Area, c: Names, x: Span, f: Span) -> Member
    requires { AreaFits work.now c }
    ensures { ChainIn text.now work.now c (name_in text.now x) (name_in text.now f) result }
{
    read_types::look_chain(
        text,
        work,
        c,
        read_names::name_in(text, x),
        read_names::name_in(text, f),
    )
}

// May the chain x.f be opened as y?
#[tactic(auto, unfolding(read_types::specs::Verdicts::opened))]
fn judge_open(text: &[u8], work: &Area, x: Member, y: usize) -> Result<(), Fault>
    requires { (x.variable ≤ frame_variables) × (y ≤ frame_variables) }
    ensures { result ≡ may_open text.now work.now x y }
{
    read_types::test(y < read_names::NO_VARIABLE, Fault::Undeclared)?;
    x.verdict?;
    let same = read_lookups::same_name(
        text,
        read_lookups::type_of(work, y),
        read_lookups::type_of(work, x.variable),
    );
    read_types::test(same, Fault::WrongType)?;
    read_types::test(crate::is_local(y), Fault::WrongTarget)?;
    read_types::test(y != x.variable, Fault::WrongTarget)
}

// `open y x f`, the word of which ends at r
pub fn open_row(
    text: &[u8],
    work: &Area,
    c: Names,
    r: usize,
    line: usize,
) -> Result<Operands, Fault>
    requires { AreaFits work.now c × (r ≤ length text.now) }
    ensures { TriedAfter text.now work.now c r open_judged open_row line result }
{
    let a = read_declarations::span_after(text, r);
    let b = read_declarations::span_after(text, a.start + a.len);
    let d = read_declarations::span_after(text, b.start + b.len);
    let y = crate::variable_at(text, work, c, a);
    let x = chain_at(text, work, c, b, d);
    let v = judge_open(text, work, x, y);
    crate::row_if(
        v,
        crate::row(Kind::Open as u8, y, x.variable, 0, x.number, line),
    )
}

// `shut x f`
pub fn shut_row(
    text: &[u8],
    work: &Area,
    c: Names,
    r: usize,
    line: usize,
) -> Result<Operands, Fault>
    requires { AreaFits work.now c × (r ≤ length text.now) }
    ensures { TriedAfter text.now work.now c r shut_judged shut_row line result }
{
    let a = read_declarations::span_after(text, r);
    let b = read_declarations::span_after(text, a.start + a.len);
    let x = chain_at(text, work, c, a, b);
    crate::row_if(
        x.verdict,
        crate::row(Kind::Shut as u8, x.variable, 0, 0, x.number, line),
    )
}
