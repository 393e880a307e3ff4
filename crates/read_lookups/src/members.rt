// Fields and methods looked up by name, and what they give.
ghost use Rattle.std.specs.Prelude.{◌≡◌, ◌&&◌, List, eqb, ltb, ℕ, ◌+◌, ◌≤◌, get_or};
ghost use Rattle.rules.specs.Names.{field_number, method_number, no_field, no_declaration};
ghost use Rattle.read_names.specs.Rows.{name_in, owner_at, fields_first};
ghost use Rattle.read_scopes.specs.Meanings.{NamesFit, declarations_in};
ghost use Rattle.read_lookups.specs.LookUps.{field_index};

use read_names::Span;
use read_scopes::Names;
use tables::Area;

// The type of the field i. Three functions alike, of a field, a result and a parameter: one for all would need their rows and columns as
// closures, and a contract of its own.
pub fn field_gives(work: &Area, c: Names, i: usize) -> Span
    requires { NamesFit c }
    ensures { (t : List ℕ) → name_in t result ≡ (get_or (declarations_in t work.now c).fields i no_field).type }
{
    if i < c.fields {
        return read_names::gives_at(work, read_names::FIELDS + i);
    }
    read_names::no_span()
}

// The number of a field's name: where the first field of that name stands, of whatever class. No Option where there is none: the definition
// `field_number` of the rules, which the contract cites, is the count of fields then.
pub fn field_number(text: &[u8], work: &Area, c: Names, f: &[u8]) -> usize
    requires { NamesFit c }
    ensures { (result ≡ field_number (declarations_in text.now work.now c) f.now) × (result ≤ c.fields) }
{
    let n = c.fields;
    read_names::find(text, work, read_names::FIELDS, n, read_names::ANY_OWNER, f)
}

// Is there a field i, and is it of the class k?
fn is_field_of(work: &Area, c: Names, k: usize, i: usize) -> bool
    requires { NamesFit c }
    ensures { result ≡ (ltb i c.fields && eqb (owner_at work.now (fields_first + i)) k) }
{
    if i < c.fields {
        return read_names::owner_at(work, read_names::FIELDS + i) == k;
    }
    false
}

// Where the first field f of a class stands among the fields; their count if there is none. The first field of that name, which
// `number` is, needs no other search if it is of the class.
pub fn owned_field(
    text: &[u8],
    work: &Area,
    c: Names,
    class: Span,
    number: usize,
    f: &[u8],
) -> usize
    requires { NamesFit c × (number ≡ field_number (declarations_in text.now work.now c) f.now) }
    ensures { result ≡ field_index text.now work.now c class f.now }
{
    let k = crate::class_number(text, work, c, read_names::name_in(text, class));
    if is_field_of(work, c, k, number) {
        return number;
    }
    read_names::find(text, work, read_names::FIELDS, c.fields, k, f)
}

// The number of the first method m of a class. No Option where there is none: the definition `method_number` of the rules, which the contract cites,
// is the count of methods then.
pub fn method_number(text: &[u8], work: &Area, c: Names, class: Span, m: &[u8]) -> usize
    requires { NamesFit c }
    ensures { (result ≡ method_number (declarations_in text.now work.now c) (name_in text.now class) m.now) × (result ≤ c.methods) }
{
    let k = crate::class_number(text, work, c, read_names::name_in(text, class));
    let n = c.methods;
    read_names::find(text, work, read_names::METHODS, n, k, m)
}

// The type of the result of the method i.
pub fn result_type(work: &Area, c: Names, i: usize) -> Span
    requires { NamesFit c }
    ensures { (t : List ℕ) → name_in t result ≡ (get_or (declarations_in t work.now c).methods i no_declaration).result }
{
    if i < c.methods {
        return read_names::gives_at(work, read_names::METHODS + i);
    }
    read_names::no_span()
}

// The type of its parameter.
pub fn parameter_type(work: &Area, c: Names, i: usize) -> Span
    requires { NamesFit c }
    ensures { (t : List ℕ) → name_in t result ≡ (get_or (declarations_in t work.now c).methods i no_declaration).parameter_type }
{
    if i < c.methods {
        return read_names::takes_at(work, read_names::METHODS + i);
    }
    read_names::no_span()
}
