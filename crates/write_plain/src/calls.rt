// The row of `call`.
ghost use Rattle.std.specs.Prelude.{◌≡◌, ◌≤◌, length, get_or};
ghost use Rattle.rules.specs.Names.{no_declaration};
ghost use Rattle.tables.specs.Layout.{frame_variables};
ghost use Rattle.read_scopes.specs.Meanings.{AreaFits, declarations_in};
ghost use Rattle.write_plain.specs.Plain.{call_row, call_judged, TriedAfter, are_known, may_name, may_take, agree_with, may_call};

use read_names::Span;
use read_scopes::Names;
use read_types::Fault;
use rules::Kind;
use tables::{Area, Operands};

// Are x, y and z variables?
pub fn are_known(x: usize, y: usize, z: usize) -> bool
    ensures { result ≡ are_known x y z }
{
    if read_names::NO_VARIABLE <= x {
        return false;
    }
    if read_names::NO_VARIABLE <= y {
        return false;
    }
    z < read_names::NO_VARIABLE
}

// May a line name the method named at m of a class, if i, of n methods, is its number?
#[tactic(auto, unfolding(read_types::specs::Verdicts::opened))]
fn judge_method(text: &[u8], class: Span, m: Span, i: usize, n: usize) -> Result<(), Fault>
    ensures { result ≡ may_name text.now class m i n }
{
    let reserved = read_words::is_reserved(read_names::name_in(text, m));
    read_types::test(!reserved, Fault::Undeclared)?;
    read_types::test(!read_lookups::is_int(text, class), Fault::WrongType)?;
    read_types::test(i < n, Fault::Undeclared)
}

// May a call that reads y and z assign to x?
#[tactic(auto, unfolding(read_types::specs::Verdicts::opened))]
fn judge_target(x: usize, y: usize, z: usize) -> Result<(), Fault>
    ensures { result ≡ may_take x y z }
{
    read_types::test(crate::is_local(x), Fault::WrongTarget)?;
    read_types::test(x != y, Fault::WrongTarget)?;
    read_types::test(x != z, Fault::WrongTarget)
}

// Are x and z of the types of the result and of the parameter of the method i?
fn call_agrees(text: &[u8], work: &Area, c: Names, x: usize, z: usize, i: usize) -> bool
    requires { AreaFits work.now c × (x ≤ frame_variables) × (z ≤ frame_variables) }
    ensures { result ≡ agree_with text.now work.now x z (get_or (declarations_in text.now work.now c).methods i no_declaration) }
{
    if read_lookups::same_name(
        text,
        read_lookups::type_of(work, x),
        read_lookups::result_type(work, c, i),
    ) {
        return read_lookups::same_name(
            text,
            read_lookups::type_of(work, z),
            read_lookups::parameter_type(work, c, i),
        );
    }
    false
}

// May the method named at m, which has the number i, be called of y, of this class?
#[tactic(auto, unfolding(read_types::specs::Verdicts::opened))]
fn judge_call(
    text: &[u8],
    work: &Area,
    c: Names,
    x: usize,
    y: usize,
    z: usize,
    class: Span,
    m: Span,
    i: usize,
) -> Result<(), Fault>
    requires { AreaFits work.now c × (x ≤ frame_variables) × (z ≤ frame_variables) }
    ensures { result ≡ may_call text.now work.now c x y z class m i }
{
    read_types::test(are_known(x, y, z), Fault::Undeclared)?;
    judge_method(text, class, m, i, c.methods)?;
    read_types::test(call_agrees(text, work, c, x, z, i), Fault::WrongType)?;
    judge_target(x, y, z)
}

// `call x y m z`
pub fn call_row(
    text: &[u8],
    work: &Area,
    c: Names,
    r: usize,
    line: usize,
) -> Result<Operands, Fault>
    requires { AreaFits work.now c × (r ≤ length text.now) }
    ensures { TriedAfter text.now work.now c r call_judged call_row line result }
{
    let a = read_declarations::span_after(text, r);
    let b = read_declarations::span_after(text, a.start + a.len);
    let d = read_declarations::span_after(text, b.start + b.len);
    let e = read_declarations::span_after(text, d.start + d.len);
    let x = crate::variable_at(text, work, c, a);
    let y = crate::variable_at(text, work, c, b);
    let z = crate::variable_at(text, work, c, e);
    let class = read_lookups::type_of(work, y);
    let m = read_lookups::method_number(text, work, c, class, read_names::name_in(text, d));
    let v = judge_call(text, work, c, x, y, z, class, d, m);
    crate::row_if(v, crate::row(Kind::Call as u8, x, y, z, m, line))
}
