// The columns of a statement row. An index is a number with its bound in the clause: most are sums, and a type with the bound would want it shown at
// each sum, where the check finds it alone.
ghost use Rattle.std.specs.Prelude.{◌≡◌, ◌<◌};
ghost use Rattle.rules.specs.Grammar.{is_closing_number, IsStatementNumber};
ghost use Rattle.rules.specs.Numbered.{number};
ghost use Rattle.rules.specs.Limits.{most_statements};
ghost use Rattle.tables.specs.Numbers.{byte_values, half_values};
ghost use Rattle.tables.specs.Decode.{kind_at, x_at, y_at, z_at, member_at, atom_count_at, first_atom_at, line_at, target_at};

use crate::{Area, Layout, RowAt};
use rules::Kind;

// The number of the kind of the row i.
pub fn kind_at(w: &Area, i: usize) -> u8
    requires { i < most_statements }
    ensures { result ≡ kind_at w.now i }
{
    w[Layout::ROWS + i * Layout::ROW_BYTES]
}

// The kind of the row i, which is a statement's.
pub fn row_kind(w: &Area, i: usize) -> Kind
    requires { (i < most_statements) × IsStatementNumber (kind_at w.now i) }
    ensures { number result ≡ kind_at w.now i }
{
    Kind::numbered(kind_at(w, i))
}

// Do the rows of a block, of a part of a branch or of a loop end before it?
pub fn is_closing_at(w: &Area, i: usize) -> bool
    requires { i < most_statements }
    ensures { result ≡ is_closing_number (kind_at w.now i) }
{
    Kind::is_closing(kind_at(w, i))
}

// Its first variable.
pub fn x_at(w: &Area, i: usize) -> usize
    requires { i < most_statements }
    ensures { (result ≡ x_at w.now i) × (result < byte_values) }
{
    crate::byte_at(w, Layout::ROWS + i * Layout::ROW_BYTES + RowAt::X)
}

// Its second variable.
pub fn y_at(w: &Area, i: usize) -> usize
    requires { i < most_statements }
    ensures { (result ≡ y_at w.now i) × (result < byte_values) }
{
    crate::byte_at(w, Layout::ROWS + i * Layout::ROW_BYTES + RowAt::Y)
}

// Its third variable.
pub fn z_at(w: &Area, i: usize) -> usize
    requires { i < most_statements }
    ensures { (result ≡ z_at w.now i) × (result < byte_values) }
{
    crate::byte_at(w, Layout::ROWS + i * Layout::ROW_BYTES + RowAt::Z)
}

// Its field, class or method.
pub fn member_at(w: &Area, i: usize) -> usize
    requires { i < most_statements }
    ensures { (result ≡ member_at w.now i) × (result < byte_values) }
{
    crate::byte_at(w, Layout::ROWS + i * Layout::ROW_BYTES + RowAt::MEMBER)
}

// How many atoms its formula has, that of a `loop` being the invariant.
pub fn atom_count_at(w: &Area, i: usize) -> usize
    requires { i < most_statements }
    ensures { (result ≡ atom_count_at w.now i) × (result < byte_values) }
{
    crate::byte_at(w, Layout::ROWS + i * Layout::ROW_BYTES + RowAt::ATOMS)
}

// The first of them. The condition of a `loop` is the atom before it.
pub fn first_atom_at(w: &Area, i: usize) -> usize
    requires { i < most_statements }
    ensures { (result ≡ first_atom_at w.now i) × (result < half_values) }
{
    crate::half_at(w, Layout::ROWS + i * Layout::ROW_BYTES + RowAt::FIRST)
}

// Its line.
pub fn line_at(w: &Area, i: usize) -> usize
    requires { i < most_statements }
    ensures { (result ≡ line_at w.now i) × (result < half_values) }
{
    crate::half_at(w, Layout::ROWS + i * Layout::ROW_BYTES + RowAt::LINE)
}

// Where an `if`, an `else`, a `loop` or an `again` goes.
pub fn target_at(w: &Area, i: usize) -> usize
    requires { i < most_statements }
    ensures { (result ≡ target_at w.now i) × (result < half_values) }
{
    crate::half_at(w, Layout::ROWS + i * Layout::ROW_BYTES + RowAt::TARGET)
}
