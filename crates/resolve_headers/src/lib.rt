// `class`, `field`, `method`, `main` and `var` lines of pass 2.
#![tactic(auto)]

ghost use Rattle.std.specs.Prelude.{◌≡◌, true, ◌≤◌, ◌<◌, length};
ghost use Rattle.rules.specs.Numbered.{number};
ghost use Rattle.rules.specs.Limits.{most_bytes};
ghost use Rattle.rules.specs.Grammar.{Class, Field, Method, Var, class_kind, field_kind, method_kind, var_kind};
ghost use Rattle.tables.specs.Numbers.{half_values};
ghost use Rattle.read_scopes.specs.Meanings.{AboveFits};
ghost use Rattle.read_declarations.specs.Declares.{FormedAfter};
ghost use Rattle.resolve_pass.specs.Passes.{PassFits, LineRoom, after, one_more, with_block, above_after, line_after, LineTried};
ghost use Rattle.resolve_headers.specs.Headers.{DeclarationFollows, Held, moved};

use read_scopes::{Above, Names, Range};
use read_types::Fault;
use resolve_pass::Pass;
use rules::Kind;
use tables::Area;

// THE COUNTS

fn moved(p: Pass, names: Names, above: Above, main: usize) -> Pass
    requires { p.line < most_bytes }
    ensures { result ≡ moved p names above main }
{
    Pass {
        names,
        above,
        main,
        line: p.line + 1,
        ..p
    }
}

fn after(r: Range) -> usize
    requires { after r < half_values }
    ensures { result ≡ after r }
{
    r.first + r.count
}

#[tactic(auto, unfolding(resolve_pass::specs::Passes::above_after, resolve_pass::specs::Passes::next_range, rules::specs::Grammar::opened))]
fn with_class(a: Above) -> Above
    requires { AboveFits a }
    ensures { result ≡ above_after Class a }
{
    Above {
        classes: a.classes + 1,
        fields: Range {
            first: after(a.fields),
            count: 0,
        },
        methods: Range {
            first: after(a.methods),
            count: 0,
        },
    }
}

#[tactic(auto, unfolding(resolve_pass::specs::Passes::one_more))]
fn one_more(r: Range) -> Range
    requires { after r < half_values }
    ensures { result ≡ one_more r }
{
    Range {
        count: r.count + 1,
        ..r
    }
}

#[tactic(auto, unfolding(resolve_pass::specs::Passes::above_after, rules::specs::Grammar::opened))]
fn with_field(a: Above) -> Above
    requires { AboveFits a }
    ensures { result ≡ above_after Field a }
{
    Above {
        fields: one_more(a.fields),
        ..a
    }
}

#[tactic(auto, unfolding(resolve_pass::specs::Passes::above_after, rules::specs::Grammar::opened))]
fn with_method(a: Above) -> Above
    requires { AboveFits a }
    ensures { result ≡ above_after Method a }
{
    Above {
        methods: one_more(a.methods),
        ..a
    }
}

#[tactic(auto, unfolding(resolve_pass::specs::Passes::with_block))]
fn in_method(c: Names) -> Names
    ensures { result ≡ with_block true c }
{
    Names {
        method: true,
        locals: 0,
        result: true,
        ..c
    }
}

// ONE LINE: its word ends at r

// `class C`: the next class, if C is a new name. Its name stands in its row.
fn put_class(text: &[u8], work: &mut Area, p: Pass, r: usize) -> Result<Pass, Fault>
    requires { PassFits text.now work.old p × (r ≤ length text.now) × FormedAfter text.now r Class × LineRoom text.now work.old p (line_after text.now r class_kind) }
    ensures { LineTried text.now work.old p (line_after text.now r class_kind) work.new result }
{
    let above = p.above;
    let s = read_declarations::span_after(text, r);
    let name = read_names::name_in(text, s);
    if !read_lookups::is_new(text, work, read_names::CLASSES, above.classes, name) {
        return Err(Fault::Undeclared);
    }
    write_rows::put_class_row(work, above.classes);
    Ok(moved(p, p.names, with_class(above), p.main))
}

// `main`: its first row is the next.
fn put_main(p: Pass) -> Pass
    requires { p.line < most_bytes }
    ensures { result ≡ moved p p.names p.above p.rows }
{
    moved(p, p.names, p.above, p.rows)
}

// Tries the line of this kind (`class` or `main`) whose word ends at r.
// It takes what `put_statement` and `put_header` of `resolve_bodies` take: the contracts tie each of these to the text and the pass (`LineRoom`, `Follows`).
pub fn put_declaration(
    text: &[u8],
    work: &mut Area,
    p: Pass,
    kind: Kind,
    r: usize,
) -> Result<Pass, Fault>
    requires { PassFits text.now work.old p × (r ≤ length text.now) × DeclarationFollows text.now (number kind) r × LineRoom text.now work.old p (line_after text.now r (number kind)) }
    ensures { LineTried text.now work.old p (line_after text.now r (number kind)) work.new result }
{
    match kind {
        Kind::Class => put_class(text, work, p, r),
        _ => Ok(put_main(p)),
    }
}

// `field T f`, whose word ends at r: one more field of the last class, if T is a type and f a new name.
pub fn put_field(text: &[u8], work: &mut Area, p: Pass, r: usize) -> Result<Pass, Fault>
    requires { PassFits text.now work.old p × (r ≤ length text.now) × FormedAfter text.now r Field × LineRoom text.now work.old p (line_after text.now r field_kind) × Held work.old p }
    ensures { LineTried text.now work.old p (line_after text.now r field_kind) work.new result }
{
    let names = p.names;
    let above = p.above;
    let gives = read_declarations::span_after(text, r);
    let name = read_declarations::span_after(text, gives.start + gives.len);
    if !read_lookups::may_add_field(text, work, names, above, name, gives) {
        return Err(Fault::Undeclared);
    }
    let int = read_lookups::is_int(text, gives);
    let f = read_lookups::field_number(text, work, names, read_names::name_in(text, name));
    write_rows::put_class_field(work, above.classes - 1, f, int);
    Ok(moved(p, names, with_field(above), p.main))
}

// `method T m U w`, whose word ends at r: the next method, from the next row on, and its block, if T and U are types and m and
// w new names.
pub fn put_method(text: &[u8], work: &mut Area, p: Pass, r: usize) -> Result<Pass, Fault>
    requires { PassFits text.now work.old p × (r ≤ length text.now) × FormedAfter text.now r Method × LineRoom text.now work.old p (line_after text.now r method_kind) × Held work.old p }
    ensures { LineTried text.now work.old p (line_after text.now r method_kind) work.new result }
{
    let names = p.names;
    let above = p.above;
    let methods = above.methods;
    let owner = above.classes - 1;
    let m = read_declarations::method_row(text, r, owner);
    let takes = m.takes;
    let parameter = read_declarations::span_after(text, takes.start + takes.len);
    if !read_lookups::may_add_method(text, work, names, above, m, parameter) {
        return Err(Fault::Undeclared);
    }
    let class = read_names::name_at(text, work, owner);
    write_rows::put_method_row(work, after(methods), p.rows);
    read_scopes::put_block(text, work, class, m, parameter);
    Ok(moved(p, in_method(names), with_method(above), p.main))
}

// `var T x`, whose word ends at r: one more local, if T is a type and x a new name.
pub fn put_var(text: &[u8], work: &mut Area, p: Pass, r: usize) -> Result<Pass, Fault>
    requires { PassFits text.now work.old p × (r ≤ length text.now) × FormedAfter text.now r Var × LineRoom text.now work.old p (line_after text.now r var_kind) }
    ensures { LineTried text.now work.old p (line_after text.now r var_kind) work.new result }
{
    let names = p.names;
    let above = p.above;
    let gives = read_declarations::span_after(text, r);
    let name = read_declarations::span_after(text, gives.start + gives.len);
    if !read_lookups::may_declare(text, work, names, name, gives) {
        return Err(Fault::Undeclared);
    }
    let grown = read_scopes::put_local(text, work, names, name, gives);
    Ok(moved(p, grown, above, p.main))
}
