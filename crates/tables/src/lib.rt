// The tables in the lent work area: where each stands (`Layout`), and the functions that read bytes, words, sides and atoms there.
#![tactic(auto)]

mod columns;
mod declarations;
mod kinds;
mod offsets;
mod stores;

ghost use Rattle.std.specs.Prelude.{◌≡◌, ◌+◌, ◌≤◌, ◌<◌, length};
ghost use Rattle.tables.specs.Numbers.{byte_values, half_values};
ghost use Rattle.tables.specs.Layout.{most_atom_rows};
ghost use Rattle.tables.specs.Decode.{byte_at, half_at, word_at, expr_at, left_at, right_at, atom_kind_at, acc_variable_at, acc_field_at, method_count, main_first};
ghost use Rattle.tables.specs.Kinds.{kind_of};
ghost use Rattle.tables.specs.Stores.{meaning, offsets};

pub use columns::{
    atom_count_at, first_atom_at, is_closing_at, kind_at, line_at, member_at, row_kind, target_at,
    x_at, y_at, z_at,
};
pub use declarations::{
    ensures_count, ensures_first, field_count_at, field_kind_at, field_name_at, first_row_at,
    place_at, requires_count, requires_first,
};
pub use kinds::{AtomKind, RowKind, SideTag};
pub use offsets::{AtomAt, Bytes, ClassAt, HeaderAt, MethodAt, RowAt};
use rules::Machine;
pub use stores::{put_byte, put_half, put_word};

// The lent work area.
pub type Area = [u8; Machine::WORK_BYTES];

// Where each table stands in the work area: the constants below as one value.
#[derive(Clone, Copy)]
pub struct Layout {
    pub rows: usize,
    pub methods: usize,
    pub classes: usize,
    pub places: usize,
    pub atoms: usize,
    pub names: usize,
    pub lines: usize,
    pub values: usize,
    pub holders: usize,
    pub objects: usize,
    pub frames: usize,
    pub row_bytes: usize,
    pub atom_bytes: usize,
    pub method_bytes: usize,
    pub class_bytes: usize,
    pub object_bytes: usize,
    pub frame_bytes: usize,
    pub field_names: usize,
}

impl Layout {
    pub const ROWS: usize = 64;

    pub const METHODS: usize = 3136;

    pub const CLASSES: usize = 3648;

    pub const PLACES: usize = 4160;

    pub const ATOMS: usize = 6208;

    pub const NAMES: usize = 36880;

    pub const VALUES: usize = 40960;

    // The table of lines, while the text is read, stands where the machine's stores do later.
    pub const LINES: usize = 40960;

    pub const HOLDERS: usize = 45056;

    pub const OBJECTS: usize = 53248;

    pub const FRAMES: usize = 54272;

    pub const ROW_BYTES: usize = 12;

    pub const ATOM_BYTES: usize = 12;

    pub const METHOD_BYTES: usize = 8;

    pub const CLASS_BYTES: usize = 32;

    pub const OBJECT_BYTES: usize = 4;

    pub const FRAME_BYTES: usize = 72;

    pub const FIELD_NAMES: usize = 128;

    pub fn offsets() -> Layout
        ensures { result ≡ offsets }
    {
        Layout {
            rows: Layout::ROWS,
            methods: Layout::METHODS,
            classes: Layout::CLASSES,
            places: Layout::PLACES,
            atoms: Layout::ATOMS,
            names: Layout::NAMES,
            lines: Layout::LINES,
            values: Layout::VALUES,
            holders: Layout::HOLDERS,
            objects: Layout::OBJECTS,
            frames: Layout::FRAMES,
            row_bytes: Layout::ROW_BYTES,
            atom_bytes: Layout::ATOM_BYTES,
            method_bytes: Layout::METHOD_BYTES,
            class_bytes: Layout::CLASS_BYTES,
            object_bytes: Layout::OBJECT_BYTES,
            frame_bytes: Layout::FRAME_BYTES,
            field_names: Layout::FIELD_NAMES,
        }
    }
}

// One byte of the area.
pub fn byte_at(w: &[u8], i: usize) -> usize
    requires { i < length w.now }
    ensures { (result ≡ byte_at w.now i) × (result < byte_values) }
{
    usize::from(w[i])
}

// Two bytes, low byte first.
pub fn half_at(w: &[u8], i: usize) -> usize
    requires { i + 2 ≤ length w.now }
    ensures { (result ≡ half_at w.now i) × (result < half_values) }
{
    usize::from(u16::from_le_bytes([w[i], w[i + 1]]))
}

// Four bytes, low byte first.
pub fn word_at(w: &[u8], i: usize) -> u32
    requires { i + 4 ≤ length w.now }
    ensures { result ≡ word_at w.now i }
{
    u32::from_le_bytes([w[i], w[i + 1], w[i + 2], w[i + 3]])
}

// A statement row but for its target: the number of its kind, as the row has it and `operands_at` says, its variables, its field, class or method,
// how many atoms it has and the first of them, its line.
#[derive(Clone, Copy)]
pub struct Operands {
    pub kind: u8,
    pub x: usize,
    pub y: usize,
    pub z: usize,
    pub member: usize,
    pub atoms: usize,
    pub first: usize,
    pub line: usize,
}

// A side of an atom, resolved: a variable by its number, a field by the number of its name.
#[derive(Clone, Copy)]
pub enum Expr {
    Num(u32),
    Null,
    Var(usize),
    Path(usize, usize),
}

// A match: a tag of the tables says which variant stands there, and each is read in its own way.
#[tactic(auto, unfolding(crate::specs::Stores::meaning, crate::specs::Decode::expr_at, crate::specs::Kinds::side_of))]
fn expr_by(w: &[u8], tag: u8, i: usize) -> Expr
    requires { i + 4 ≤ length w.now }
    ensures { meaning result ≡ expr_at w.now tag i }
{
    match SideTag::from(tag) {
        SideTag::Num => Expr::Num(word_at(w, i)),
        SideTag::Null => Expr::Null,
        SideTag::Var => Expr::Var(byte_at(w, i)),
        SideTag::Path => Expr::Path(byte_at(w, i), byte_at(w, i + 1)),
    }
}

// The left side of the atom a.
#[tactic(auto, unfolding(crate::specs::Decode::left_at))]
pub fn left_at(w: &Area, a: usize) -> Expr
    requires { a < most_atom_rows }
    ensures { meaning result ≡ left_at w.now a }
{
    let i = Layout::ATOMS + a * Layout::ATOM_BYTES;
    expr_by(w, w[i + AtomAt::LEFT_TAG], i + AtomAt::LEFT)
}

// The right side of the atom a.
#[tactic(auto, unfolding(crate::specs::Decode::right_at))]
pub fn right_at(w: &Area, a: usize) -> Expr
    requires { a < most_atom_rows }
    ensures { meaning result ≡ right_at w.now a }
{
    let i = Layout::ATOMS + a * Layout::ATOM_BYTES;
    expr_by(w, w[i + AtomAt::RIGHT_TAG], i + AtomAt::RIGHT)
}

// THE HEADER

// How many methods there are.
pub fn method_count(w: &Area) -> usize
    ensures { (result ≡ method_count w.now) × (result < byte_values) }
{
    byte_at(w, HeaderAt::METHODS)
}

// The first row of main.
pub fn main_first(w: &Area) -> usize
    ensures { (result ≡ main_first w.now) × (result < half_values) }
{
    half_at(w, HeaderAt::MAIN)
}

// ATOMS

// The kind of the atom a, by its number.
pub fn atom_kind(w: &Area, a: usize) -> usize
    requires { a < most_atom_rows }
    ensures { (result ≡ atom_kind_at w.now a) × (result < byte_values) }
{
    byte_at(w, Layout::ATOMS + a * Layout::ATOM_BYTES)
}

// The kind of the atom a.
pub fn kind_of_atom(w: &Area, a: usize) -> AtomKind
    requires { a < most_atom_rows }
    ensures { result ≡ kind_of (atom_kind_at w.now a) }
{
    AtomKind::from(w[Layout::ATOMS + a * Layout::ATOM_BYTES])
}

// How many halves the atom a takes, an `acc` or a `read`: the number of its kind.
pub fn atom_halves(w: &Area, a: usize) -> usize
    requires { a < most_atom_rows }
    ensures { (result ≡ atom_kind_at w.now a) × (result < byte_values) }
{
    atom_kind(w, a)
}

// The variable of the atom a, an `acc`, a `read` or a `chain`.
pub fn atom_variable(w: &Area, a: usize) -> usize
    requires { a < most_atom_rows }
    ensures { (result ≡ acc_variable_at w.now a) × (result < byte_values) }
{
    byte_at(w, Layout::ATOMS + a * Layout::ATOM_BYTES + AtomAt::VARIABLE)
}

// The field of the atom a, an `acc`, a `read` or a `chain`.
pub fn atom_field(w: &Area, a: usize) -> usize
    requires { a < most_atom_rows }
    ensures { (result ≡ acc_field_at w.now a) × (result < byte_values) }
{
    byte_at(w, Layout::ATOMS + a * Layout::ATOM_BYTES + AtomAt::FIELD)
}
