// The final rows written: atoms, statements, methods, classes, header.
#![tactic(auto)]

ghost use Rattle.std.specs.Prelude.{◌≡◌, [], ◌∷◌, ◌+◌, ◌*◌, ◌≤◌, ◌<◌, length};
ghost use Rattle.rules.specs.Limits.{most_statements, most_methods, most_classes, most_fields};
ghost use Rattle.tables.specs.Numbers.{byte_values, half_values};
ghost use Rattle.tables.specs.Layout.{most_atom_rows, most_names};
ghost use Rattle.tables.specs.Decode.{field_count_at};
ghost use Rattle.tables.specs.Kinds.{kind_number, side_number};
ghost use Rattle.write_rows.specs.Puts.{put_bytes, tag_of, word_of, put_atom, put_row, put_method, put_requires, put_ensures, blank, put_class, put_field, put_header, RowBytes, SideBytes};

use tables::{
    Area, AtomAt, AtomKind, Bytes, ClassAt, Expr, HeaderAt, Layout, MethodAt, Operands, RowAt,
    SideTag,
};

fn put_four(work: &mut Area, i: usize, a: usize, b: usize, c: usize, d: usize)
    requires { (i + 4 ≤ length work.old) × ((a < byte_values) × ((b < byte_values) × ((c < byte_values) × (d < byte_values)))) }
    ensures { work.new ≡ put_bytes work.old i (a ∷ b ∷ c ∷ d ∷ []) }
{
    work[i] = a as u8;
    work[i + 1] = b as u8;
    work[i + 2] = c as u8;
    work[i + 3] = d as u8;
}

// ATOMS

#[tactic(auto, unfolding(crate::specs::Puts::tag_of))]
fn tag_of(e: Expr) -> SideTag
    ensures { side_number result ≡ tag_of e }
{
    match e {
        Expr::Num(_) => SideTag::Num,
        Expr::Null => SideTag::Null,
        Expr::Var(_) => SideTag::Var,
        Expr::Path(_, _) => SideTag::Path,
    }
}

fn pair(x: usize, f: usize) -> u32
    requires { (x < byte_values) × (f < byte_values) }
    ensures { result ≡ x + f * byte_values }
{
    (x + f * Bytes::VALUES) as u32
}

fn word_of(e: Expr) -> u32
    requires { SideBytes e }
    ensures { result ≡ word_of e }
{
    match e {
        Expr::Num(n) => n,
        Expr::Null => 0,
        Expr::Var(x) => pair(x, 0),
        Expr::Path(x, f) => pair(x, f),
    }
}

// Writes the atom a: its kind and its sides. `acc x f` and `read x f` have the path x.f on the left, null on the right.
pub fn put_atom(work: &mut Area, a: usize, kind: AtomKind, left: Expr, right: Expr)
    requires { (a < most_atom_rows) × (SideBytes left × SideBytes right) }
    ensures { work.new ≡ put_atom work.old a (kind_number kind) left right }
{
    let i = Layout::ATOMS + a * Layout::ATOM_BYTES;
    let l = word_of(left);
    let r = word_of(right);
    put_four(
        work,
        i,
        u8::from(kind) as usize,
        u8::from(tag_of(left)) as usize,
        u8::from(tag_of(right)) as usize,
        0,
    );
    tables::put_word(work, i + AtomAt::LEFT, l);
    tables::put_word(work, i + AtomAt::RIGHT, r);
}

// ROWS

// Writes the statement row i, its target 0.
pub fn put_row(work: &mut Area, i: usize, r: Operands)
    requires { (i < most_statements) × RowBytes r }
    ensures { work.new ≡ put_row work.old i r }
{
    let at = Layout::ROWS + i * Layout::ROW_BYTES;
    let first = r.first;
    let line = r.line;
    put_four(work, at, r.kind as usize, r.x, r.y, r.z);
    put_four(
        work,
        at + RowAt::MEMBER,
        r.member,
        r.atoms,
        first % Bytes::VALUES,
        first / Bytes::VALUES,
    );
    put_four(
        work,
        at + RowAt::LINE,
        line % Bytes::VALUES,
        line / Bytes::VALUES,
        0,
        0,
    );
}

// METHODS

// Writes the method m with its first row; its requires and ensures are empty.
pub fn put_method_row(work: &mut Area, m: usize, first: usize)
    requires { (m < most_methods) × (first < half_values) }
    ensures { work.new ≡ put_method work.old m first }
{
    let at = Layout::METHODS + m * Layout::METHOD_BYTES;
    put_four(work, at, 0, 0, 0, 0);
    put_four(
        work,
        at + MethodAt::ENSURES,
        0,
        0,
        first % Bytes::VALUES,
        first / Bytes::VALUES,
    );
}

// The requires of the method m is n atoms from a on. As `put_ensures`, which has the two at other places: one function for both would take
// the places, and be no shorter.
pub fn put_requires(work: &mut Area, m: usize, a: usize, n: usize)
    requires { (m < most_methods) × ((a < half_values) × (n < byte_values)) }
    ensures { work.new ≡ put_requires work.old m a n }
{
    let at = Layout::METHODS + m * Layout::METHOD_BYTES;
    tables::put_half(work, at, a);
    tables::put_byte(work, at + MethodAt::REQUIRES_COUNT, n);
}

// Its ensures is n atoms from a on.
pub fn put_ensures(work: &mut Area, m: usize, a: usize, n: usize)
    requires { (m < most_methods) × ((a < half_values) × (n < byte_values)) }
    ensures { work.new ≡ put_ensures work.old m a n }
{
    let at = Layout::METHODS + m * Layout::METHOD_BYTES;
    tables::put_byte(work, at + MethodAt::ENSURES_COUNT, n);
    tables::put_half(work, at + MethodAt::ENSURES, a);
}

// CLASSES

// the place of a name that no field has, as a byte
const BLANK: u8 = ClassAt::NO_PLACE as u8;

fn fill(work: &mut Area, at: usize, n: usize)
    requires { at + n ≤ length work.old }
    ensures { work.new ≡ put_bytes work.old at (blank n) }
{
    for i in 0..n {
        work[at + i] = BLANK;
    }
}

// Writes the class c, which has no field yet.
pub fn put_class_row(work: &mut Area, c: usize)
    requires { c < most_classes }
    ensures { work.new ≡ put_class work.old c }
{
    tables::put_byte(work, Layout::CLASSES + c * Layout::CLASS_BYTES, 0);
    fill(
        work,
        Layout::PLACES + c * Layout::FIELD_NAMES,
        Layout::FIELD_NAMES,
    );
}

// One more field of the class c: the number of its name, and whether it is an int.
pub fn put_class_field(work: &mut Area, c: usize, name: usize, int: bool)
    requires { (c < most_classes) × ((name < most_names) × (field_count_at work.old c < most_fields)) }
    ensures { work.new ≡ put_field work.old c name int }
{
    let at = Layout::CLASSES + c * Layout::CLASS_BYTES;
    let j = tables::field_count_at(work, c);
    tables::put_byte(work, at, j + 1);
    tables::put_byte(work, at + ClassAt::NAME + j * ClassAt::FIELD_BYTES, name);
    tables::put_byte(
        work,
        at + ClassAt::KIND + j * ClassAt::FIELD_BYTES,
        usize::from(int),
    );
    tables::put_byte(work, Layout::PLACES + c * Layout::FIELD_NAMES + name, j);
}

// THE HEADER

// Writes how many rows, atoms, classes and methods there are, and main's first row.
pub fn put_header(
    work: &mut Area,
    rows: usize,
    atoms: usize,
    classes: usize,
    methods: usize,
    main: usize,
)
    requires { ((rows < half_values) × (atoms < half_values)) × ((classes < byte_values) × ((methods < byte_values) × (main < half_values))) }
    ensures { work.new ≡ put_header work.old rows atoms classes methods main }
{
    put_four(
        work,
        HeaderAt::ROWS,
        rows % Bytes::VALUES,
        rows / Bytes::VALUES,
        atoms % Bytes::VALUES,
        atoms / Bytes::VALUES,
    );
    put_four(
        work,
        HeaderAt::CLASSES,
        classes,
        methods,
        main % Bytes::VALUES,
        main / Bytes::VALUES,
    );
}
