// Classes, variables, fields and methods looked up by name; whether a name is new.
#![tactic(auto)]

mod members;

ghost use Rattle.std.specs.Prelude.{◌≡◌, map, ◌+◌, ◌≤◌};
ghost use Rattle.rules.specs.Base.{is, eq_name};
ghost use Rattle.rules.specs.Syntax.{result_variable};
ghost use Rattle.rules.specs.Names.{class_number, is_class, is_type, variable_type};
ghost use Rattle.read_names.specs.Rows.{most_rows, name_in};
ghost use Rattle.read_scopes.specs.Meanings.{NamesFit, AboveFits, names_from, declarations_in, variables_in, block_in};
ghost use Rattle.read_lookups.specs.LookUps.{no_variable, may_declare, may_add, may_add_field, may_add_method, type_of, own_in, Looked, is_new};

pub use members::{
    field_gives, field_number, method_number, owned_field, parameter_type, result_type,
};
use read_names::{Row, Span};
use read_scopes::{Above, Names, Range};
use tables::Area;

// CLASSES AND TYPES

#[tactic(auto, unfolding(rules::specs::Base::is, rules::specs::Base::bytes))]
fn is_int_word(x: &[u8]) -> bool
    ensures { result ≡ is "int" x.now }
{
    read_bytes::same(b"int", x)
}

// Is the name at this place `int`?
pub fn is_int(text: &[u8], s: Span) -> bool
    ensures { result ≡ is "int" (name_in text.now s) }
{
    is_int_word(read_names::name_in(text, s))
}

// Are the names at two places the same?
pub fn same_name(text: &[u8], s: Span, u: Span) -> bool
    ensures { result ≡ eq_name (name_in text.now s) (name_in text.now u) }
{
    read_bytes::same(read_names::name_in(text, s), read_names::name_in(text, u))
}

// The number of the first class that is named x; the count of classes if there is none (`class_number`).
pub fn class_number(text: &[u8], work: &Area, c: Names, x: &[u8]) -> usize
    requires { NamesFit c }
    ensures { (result ≡ class_number (declarations_in text.now work.now c) x.now) × (result ≤ c.classes) }
{
    let n = c.classes;
    read_names::find(text, work, read_names::CLASSES, n, read_names::ANY_OWNER, x)
}

#[tactic(auto, unfolding(rules::specs::Names::is_class))]
pub fn is_class(text: &[u8], work: &Area, c: Names, x: &[u8]) -> bool
    requires { NamesFit c }
    ensures { result ≡ is_class (declarations_in text.now work.now c) x.now }
{
    if read_words::is_reserved(x) {
        return false;
    }
    class_number(text, work, c, x) < c.classes
}

#[tactic(auto, unfolding(rules::specs::Names::is_type))]
pub fn is_type(text: &[u8], work: &Area, c: Names, x: &[u8]) -> bool
    requires { NamesFit c }
    ensures { result ≡ is_type (declarations_in text.now work.now c) x.now }
{
    if is_int_word(x) {
        return true;
    }
    is_class(text, work, c, x)
}

// VARIABLES

// Of n variables from the number `from` on, and `result` if the line may name it.
fn own_variable(text: &[u8], work: &Area, from: usize, n: usize, res: bool, x: &[u8]) -> usize
    requires { from + n ≤ result_variable }
    ensures { Looked text.now work.now (own_in text.now work.now from n res) x.now result }
{
    let i = read_names::find(
        text,
        work,
        read_names::VARIABLES + from,
        n,
        read_names::ANY_OWNER,
        x,
    );
    if i < n {
        return from + i;
    }
    if !res {
        return read_names::NO_VARIABLE;
    }
    if read_bytes::same(b"result", x) {
        return read_names::RESULT;
    }
    read_names::NO_VARIABLE
}

// The number of the variable that is named x, or NO_VARIABLE and no Option: `variable_number` of the rules numbers every name.
#[tactic(auto, unfolding(read_scopes::specs::Meanings::variables_in, read_scopes::specs::Meanings::block_in, read_scopes::specs::Meanings::own_variables, crate::specs::LookUps::own_in, rules::specs::Base::bytes))]
pub fn variable(text: &[u8], work: &Area, c: Names, x: &[u8]) -> usize
    requires { NamesFit c }
    ensures { Looked text.now work.now (variables_in text.now work.now c) x.now result }
{
    let n = c.locals;
    let result = c.result;
    if !c.method {
        return own_variable(text, work, read_scopes::FIRST_LOCAL, n, result, x);
    }
    if read_bytes::same(b"this", x) {
        return read_scopes::THIS;
    }
    own_variable(text, work, read_scopes::PARAMETER, n + 1, result, x)
}

// The type of the variable v.
#[tactic(auto, unfolding(crate::specs::LookUps::type_of))]
pub fn type_of(work: &Area, v: usize) -> Span
    requires { v ≤ no_variable }
    ensures { result ≡ type_of work.now v }
{
    if v == read_names::NO_VARIABLE {
        return read_names::no_span();
    }
    read_names::gives_at(work, read_names::VARIABLES + v)
}

pub fn variable_type(text: &[u8], work: &Area, c: Names, x: &[u8]) -> Span
    requires { NamesFit c }
    ensures { name_in text.now result ≡ variable_type (variables_in text.now work.now c) x.now }
{
    let v = variable(text, work, c, x);
    type_of(work, v)
}

// NEW NAMES

// Is x no reserved word, and no name of n rows from `from` on?
#[tactic(auto, unfolding(crate::specs::LookUps::is_new))]
pub fn is_new(text: &[u8], work: &Area, from: usize, n: usize, x: &[u8]) -> bool
    requires { from + n ≤ most_rows }
    ensures { result ≡ is_new x.now (names_from text.now work.now from n) }
{
    if read_words::is_reserved(x) {
        return false;
    }
    read_names::find(text, work, from, n, read_names::ANY_OWNER, x) == n
}

pub fn is_new_variable(text: &[u8], work: &Area, c: Names, x: &[u8]) -> bool
    requires { NamesFit c }
    ensures { result ≡ is_new x.now (map (λ v. v.name) (block_in text.now work.now c).variables) }
{
    let n = c.locals;
    if c.method {
        return is_new(
            text,
            work,
            read_names::VARIABLES + read_scopes::PARAMETER,
            n + 1,
            x,
        );
    }
    is_new(
        text,
        work,
        read_names::VARIABLES + read_scopes::FIRST_LOCAL,
        n,
        x,
    )
}

// May a line declare a variable of this name and of this type?
pub fn may_declare(text: &[u8], work: &Area, c: Names, name: Span, gives: Span) -> bool
    requires { NamesFit c }
    ensures { result ≡ may_declare text.now work.now c name gives }
{
    if is_type(text, work, c, read_names::name_in(text, gives)) {
        return is_new_variable(text, work, c, read_names::name_in(text, name));
    }
    false
}

// The same of n rows of this range, those of its kind beginning at `from`.
pub fn is_new_member(text: &[u8], work: &Area, from: usize, r: Range, x: &[u8]) -> bool
    requires { from + r.first + r.count ≤ most_rows }
    ensures { result ≡ is_new x.now (names_from text.now work.now (from + r.first) r.count) }
{
    is_new(text, work, from + r.first, r.count, x)
}

// May a class with the members of this range have one more, of this name and of this type?
fn may_add(
    text: &[u8],
    work: &Area,
    c: Names,
    from: usize,
    r: Range,
    name: Span,
    gives: Span,
) -> bool
    requires { NamesFit c × (from + r.first + r.count ≤ most_rows) }
    ensures { result ≡ may_add text.now work.now c (from + r.first) r.count name gives }
{
    if is_type(text, work, c, read_names::name_in(text, gives)) {
        return is_new_member(text, work, from, r, read_names::name_in(text, name));
    }
    false
}

// May the present class have a field of this name and of this type?
#[tactic(auto, unfolding(read_scopes::specs::Meanings::scope_in))]
pub fn may_add_field(text: &[u8], work: &Area, c: Names, a: Above, name: Span, gives: Span) -> bool
    requires { NamesFit c × AboveFits a }
    ensures { result ≡ may_add_field text.now work.now c a name gives }
{
    let r = a.fields;
    may_add(text, work, c, read_names::FIELDS, r, name, gives)
}

// May it have the method m, with a parameter of this name? The parameter passes the tests of `may_declare`.
#[tactic(auto, unfolding(read_scopes::specs::Meanings::scope_in))]
pub fn may_add_method(text: &[u8], work: &Area, c: Names, a: Above, m: Row, parameter: Span) -> bool
    requires { NamesFit c × AboveFits a }
    ensures { result ≡ may_add_method text.now work.now c a m parameter }
{
    let r = a.methods;
    let name = m.name;
    let gives = m.gives;
    let takes = m.takes;
    if !may_add(text, work, c, read_names::METHODS, r, name, gives) {
        return false;
    }
    if is_type(text, work, c, read_names::name_in(text, takes)) {
        return is_new_variable(text, work, c, read_names::name_in(text, parameter));
    }
    false
}
