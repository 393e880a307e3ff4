// Expressions looked up, with their numbers, type and verdict; types that agree.
#![tactic(auto)]

ghost use Rattle.std.specs.Prelude.{◌≡◌, Ok, Err, true, false, ◌+◌, ◌≤◌, ◌<◌};
ghost use Rattle.std.proofs.Math.Option.{some};
ghost use Rattle.rules.specs.Base.{is};
ghost use Rattle.rules.specs.Syntax.{var, path};
ghost use Rattle.rules.specs.Text.{is_expr, expr_of};
ghost use Rattle.rules.specs.Names.{agree};
ghost use Rattle.read_names.specs.Rows.{name_in};
ghost use Rattle.read_scopes.specs.Meanings.{NamesFit};
ghost use Rattle.read_lookups.specs.LookUps.{no_variable};
ghost use Rattle.read_types.specs.Types.{is_int_type, type_meant, may_name, of_own_class, MemberIn, ChainIn, LookIn};
ghost use Rattle.read_types.specs.Verdicts.{test, and_then, lower_fault, lower};
ghost use Rattle.read_types.specs.declared.Fault.{Fault};

use read_names::Span;
use read_scopes::Names;
use tables::{Area, Expr};

// The type of an expression: null's, a number's, or that of a declaration, by its name.
#[derive(Clone, Copy)]
pub enum ExprType {
    Null,
    Int,
    Named(Span),
}

// Why names and types refuse a line or a part of it: numbers 6, 7 and 9; of two faults the lower.
#[derive(Clone, Copy, PartialEq, Eq, PartialOrd, Ord)]
pub enum Fault {
    Undeclared,
    WrongType,
    WrongTarget,
}

// What looking up x.f gives: the numbers of x and of the name f, the type of the field, and whether a line may name it.
#[derive(Clone, Copy)]
pub struct Member {
    pub variable: usize,
    pub number: usize,
    pub is: Span,
    pub verdict: Result<(), Fault>,
}

// What looking up an expression gives: the expression by its numbers, its type, and whether a line may name it.
#[derive(Clone, Copy)]
pub struct Lookup {
    pub expr: Expr,
    pub is: ExprType,
    pub verdict: Result<(), Fault>,
}

// VERDICTS

// One test.
#[tactic(auto, unfolding(crate::specs::Verdicts::opened))]
pub fn test(passed: bool, f: Fault) -> Result<(), Fault>
    ensures { result ≡ test passed f (Ok tt) }
{
    if passed {
        return Ok(());
    }
    Err(f)
}

fn lower_fault(f: Fault, g: Fault) -> Fault
    ensures { result ≡ lower_fault f g }
{
    f.min(g)
}

// Of two parts of a line.
#[tactic(auto, unfolding(crate::specs::Verdicts::lower))]
pub fn lower(u: Result<(), Fault>, v: Result<(), Fault>) -> Result<(), Fault>
    ensures { result ≡ lower u v }
{
    match (u, v) {
        (Ok(()), _) => v,
        (Err(_), Ok(())) => u,
        (Err(f), Err(g)) => Err(lower_fault(f, g)),
    }
}

// TYPES THAT AGREE

#[tactic(auto, unfolding(crate::specs::Types::is_int_type))]
fn is_int_type(text: &[u8], a: ExprType) -> bool
    ensures { result ≡ is_int_type text.now a }
{
    match a {
        ExprType::Null => false,
        ExprType::Int => true,
        ExprType::Named(s) => read_lookups::is_int(text, s),
    }
}

#[tactic(auto, unfolding(rules::specs::Names::agree, crate::specs::Types::type_meant, rules::specs::Base::is))]
fn agree_named(text: &[u8], s: Span, b: ExprType) -> bool
    ensures { result ≡ agree (some (name_in text.now s)) (type_meant text.now b) }
{
    match b {
        ExprType::Null => !read_lookups::is_int(text, s),
        ExprType::Int => read_lookups::is_int(text, s),
        ExprType::Named(u) => read_lookups::same_name(text, s, u),
    }
}

#[tactic(auto, unfolding(crate::specs::Types::type_meant))]
pub fn agree(text: &[u8], a: ExprType, b: ExprType) -> bool
    ensures { result ≡ agree (type_meant text.now a) (type_meant text.now b) }
{
    match a {
        ExprType::Null => !is_int_type(text, b),
        ExprType::Int => is_int_type(text, b),
        ExprType::Named(s) => agree_named(text, s, b),
    }
}

// LOOKING UP: all that a line needs to know of an expression, its names looked up once

// May a line name f of the variable v, of this class, if i is where the class's field f stands?
#[tactic(auto, unfolding(crate::specs::Verdicts::opened, crate::specs::Types::may_name))]
fn judge_member(
    text: &[u8],
    c: Names,
    v: usize,
    class: Span,
    i: usize,
    f: &[u8],
) -> Result<(), Fault>
    ensures { result ≡ may_name text.now c v class i f.now }
{
    test(v < read_names::NO_VARIABLE, Fault::Undeclared)?;
    test(!read_words::is_reserved(f), Fault::Undeclared)?;
    test(!read_lookups::is_int(text, class), Fault::WrongType)?;
    test(i < c.fields, Fault::Undeclared)
}

pub fn look_path(text: &[u8], work: &Area, c: Names, x: &[u8], f: &[u8]) -> Member
    requires { NamesFit c }
    ensures { MemberIn text.now work.now c x.now f.now result }
{
    let v = read_lookups::variable(text, work, c, x);
    let class = read_lookups::type_of(work, v);
    let number = read_lookups::field_number(text, work, c, f);
    let i = read_lookups::owned_field(text, work, c, class, number, f);
    let is = read_lookups::field_gives(work, c, i);
    let verdict = judge_member(text, c, v, class, i, f);
    Member {
        variable: v,
        number,
        is,
        verdict,
    }
}

// W9: "f a field with x's class as its type (else 7)". Is the field that was looked up of its variable's class?
fn is_chain(text: &[u8], work: &Area, m: Member) -> bool
    requires { m.variable ≤ no_variable }
    ensures { result ≡ of_own_class text.now work.now m }
{
    read_lookups::same_name(text, m.is, read_lookups::type_of(work, m.variable))
}

// What a line may say of it as a chain.
#[tactic(auto, unfolding(crate::specs::Verdicts::and_then))]
fn judge_chain(text: &[u8], work: &Area, m: Member) -> Result<(), Fault>
    requires { m.variable ≤ no_variable }
    ensures { result ≡ and_then m.verdict (test (of_own_class text.now work.now m) Fault.WrongType (Ok tt)) }
{
    m.verdict?;
    test(is_chain(text, work, m), Fault::WrongType)
}

// As look_path, for `chain x f`: good only if x's field f is of x's class.
pub fn look_chain(text: &[u8], work: &Area, c: Names, x: &[u8], f: &[u8]) -> Member
    requires { NamesFit c }
    ensures { ChainIn text.now work.now c x.now f.now result }
{
    let m = look_path(text, work, c, x, f);
    Member {
        verdict: judge_chain(text, work, m),
        ..m
    }
}

#[tactic(auto, unfolding(tables::specs::Stores::meaning, rules::specs::Items::resolve_expr, crate::specs::Types::type_meant, rules::specs::Names::expr_type))]
fn path_look(text: &[u8], work: &Area, c: Names, x: &[u8], f: &[u8]) -> Lookup
    requires { NamesFit c }
    ensures { LookIn text.now work.now c (path x.now f.now) result }
{
    let m = look_path(text, work, c, x, f);
    Lookup {
        expr: Expr::Path(m.variable, m.number),
        is: ExprType::Named(m.is),
        verdict: m.verdict,
    }
}

#[tactic(auto, unfolding(tables::specs::Stores::meaning, rules::specs::Items::resolve_expr, crate::specs::Types::type_meant, rules::specs::Names::expr_type, crate::specs::Types::expr_judged, crate::specs::Verdicts::opened, rules::specs::Names::known_expr, rules::specs::Names::of_class_in))]
fn var_look(text: &[u8], work: &Area, c: Names, x: &[u8]) -> Lookup
    requires { NamesFit c }
    ensures { LookIn text.now work.now c (var x.now) result }
{
    let v = read_lookups::variable(text, work, c, x);
    let is = read_lookups::type_of(work, v);
    let verdict = test(v < read_names::NO_VARIABLE, Fault::Undeclared);
    Lookup {
        expr: Expr::Var(v),
        is: ExprType::Named(is),
        verdict,
    }
}

#[tactic(auto, unfolding(tables::specs::Stores::meaning, rules::specs::Items::resolve_expr, crate::specs::Types::type_meant, rules::specs::Names::expr_type, crate::specs::Types::expr_judged, crate::specs::Verdicts::opened, rules::specs::Names::known_expr, rules::specs::Names::of_class_in))]
pub fn look(text: &[u8], work: &Area, c: Names, w: &[u8]) -> Lookup
    requires { NamesFit c × (is_expr w.now ≡ true) }
    ensures { LookIn text.now work.now c (expr_of w.now) result }
{
    let e = read_tokens::known_expr(w);
    match e {
        read_tokens::Expr::Num(n) => Lookup {
            expr: Expr::Num(n),
            is: ExprType::Int,
            verdict: Ok(()),
        },
        read_tokens::Expr::Var => var_look(text, work, c, w),
        read_tokens::Expr::Path(d) => {
            let f = d + 1;
            path_look(text, work, c, &w[..d], &w[f..])
        }
        read_tokens::Expr::Null => Lookup {
            expr: Expr::Null,
            is: ExprType::Null,
            verdict: Ok(()),
        },
    }
}
