// What the rows of names mean: declarations and the variables of a block; a name added.
#![tactic(auto)]

ghost use Rattle.std.specs.Prelude.{◌≡◌, ◌+◌, ◌<◌};
ghost use Rattle.rules.specs.Limits.{most_classes, most_methods, most_locals};
ghost use Rattle.rules.specs.Syntax.{first_local};
ghost use Rattle.tables.specs.Layout.{most_names, frame_variables};
ghost use Rattle.read_names.specs.Rows.{SpanFits, RowFits, put_row, classes_first, fields_first, methods_first, variables_first};
ghost use Rattle.read_scopes.specs.Meanings.{class_row, field_row, variable_row, more_classes, more_fields, more_methods, more_locals, put_block};

use read_names::{Row, Span};
use tables::Area;

// How many rows there are of what the text declares, and what a line may name of its block: `this` and the parameter of a method,
// locals, `result`. The two tests are last: a record with less padding is copied faster. That the counts fit (`NamesFit`) is no fact of the
// type, since `more_classes`, `more_fields`, `more_methods` and `more_locals` raise a count of any `Names`.
#[derive(Clone, Copy)]
pub struct Names {
    pub classes: usize,
    pub fields: usize,
    pub methods: usize,
    pub locals: usize,
    pub method: bool,
    pub result: bool,
}

// The variables of a block by number: `this`, the parameter, the locals; `read_names::RESULT` is `result`.
pub const THIS: usize = 0;

pub const PARAMETER: usize = 1;

pub const FIRST_LOCAL: usize = 2;

// Rows of one kind that follow each other.
#[derive(Clone, Copy)]
pub struct Range {
    pub first: usize,
    pub count: usize,
}

// What the lines above declare: classes, and fields and methods of the present class.
#[derive(Clone, Copy)]
pub struct Above {
    pub classes: usize,
    pub fields: Range,
    pub methods: Range,
}

// One more class.
#[tactic(auto, unfolding(crate::specs::Meanings::more_classes))]
pub fn add_class(text: &[u8], work: &mut Area, c: Names, name: Span) -> Names
    requires { (c.classes < most_classes) × SpanFits name }
    ensures { (result ≡ more_classes c) × (work.new ≡ put_row text.now work.old (classes_first + c.classes) (class_row name)) }
{
    let none = read_names::no_span();
    read_names::put_row(
        text,
        work,
        read_names::CLASSES + c.classes,
        Row {
            owner: 0,
            name,
            gives: none,
            takes: none,
        },
    );
    Names {
        classes: c.classes + 1,
        ..c
    }
}

// One more field, of this type, of the class `owner`.
#[tactic(auto, unfolding(crate::specs::Meanings::more_fields))]
pub fn add_field(
    text: &[u8],
    work: &mut Area,
    c: Names,
    owner: usize,
    name: Span,
    gives: Span,
) -> Names
    requires { (c.fields < most_names) × RowFits (field_row owner name gives) }
    ensures { (result ≡ more_fields c) × (work.new ≡ put_row text.now work.old (fields_first + c.fields) (field_row owner name gives)) }
{
    let takes = read_names::no_span();
    read_names::put_row(
        text,
        work,
        read_names::FIELDS + c.fields,
        Row {
            owner,
            name,
            gives,
            takes,
        },
    );
    Names {
        fields: c.fields + 1,
        ..c
    }
}

// One more method.
#[tactic(auto, unfolding(crate::specs::Meanings::more_methods))]
pub fn add_method(text: &[u8], work: &mut Area, c: Names, m: Row) -> Names
    requires { (c.methods < most_methods) × RowFits m }
    ensures { (result ≡ more_methods c) × (work.new ≡ put_row text.now work.old (methods_first + c.methods) m) }
{
    read_names::put_row(text, work, read_names::METHODS + c.methods, m);
    Names {
        methods: c.methods + 1,
        ..c
    }
}

fn put_variable(text: &[u8], work: &mut Area, v: usize, name: Span, gives: Span)
    requires { (v < frame_variables) × SpanFits name × SpanFits gives }
    ensures { work.new ≡ put_row text.now work.old (variables_first + v) (variable_row name gives) }
{
    let takes = read_names::no_span();
    read_names::put_row(
        text,
        work,
        read_names::VARIABLES + v,
        Row {
            owner: 0,
            name,
            gives,
            takes,
        },
    );
}

// One more local.
#[tactic(auto, unfolding(crate::specs::Meanings::more_locals))]
pub fn put_local(text: &[u8], work: &mut Area, c: Names, name: Span, gives: Span) -> Names
    requires { (c.locals < most_locals) × SpanFits name × SpanFits gives }
    ensures { (result ≡ more_locals c) × (work.new ≡ put_row text.now work.old (variables_first + (first_local + c.locals)) (variable_row name gives)) }
{
    put_variable(text, work, FIRST_LOCAL + c.locals, name, gives);
    Names {
        locals: c.locals + 1,
        ..c
    }
}

// The variables that the block of the method m begins with: `this` is of the class named here, and its parameter has this name.
#[tactic(auto, unfolding(crate::specs::Meanings::put_block))]
pub fn put_block(text: &[u8], work: &mut Area, class: Span, m: Row, parameter: Span)
    requires { SpanFits class × RowFits m × SpanFits parameter }
    ensures { work.new ≡ put_block text.now work.old class m parameter }
{
    let none = read_names::no_span();
    let gives = m.gives;
    let takes = m.takes;
    put_variable(text, work, THIS, none, class);
    put_variable(text, work, PARAMETER, parameter, takes);
    put_variable(text, work, read_names::RESULT, none, gives);
}
