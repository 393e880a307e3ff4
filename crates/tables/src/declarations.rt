// Methods, classes and their fields.
ghost use Rattle.std.specs.Prelude.{◌≡◌, ◌<◌};
ghost use Rattle.rules.specs.Limits.{most_methods, most_classes, most_fields};
ghost use Rattle.tables.specs.Layout.{most_names};
ghost use Rattle.tables.specs.Numbers.{byte_values, half_values};
ghost use Rattle.tables.specs.Decode.{requires_first_at, requires_count_at, ensures_first_at, ensures_count_at, first_row_at, field_count_at, field_name_at, field_kind_at};
ghost use Rattle.tables.specs.Tables.{place_at};

use crate::{Area, ClassAt, Layout, MethodAt};

// METHODS

// The first atom of the requires of the method m.
pub fn requires_first(w: &Area, m: usize) -> usize
    requires { m < most_methods }
    ensures { (result ≡ requires_first_at w.now m) × (result < half_values) }
{
    crate::half_at(w, Layout::METHODS + m * Layout::METHOD_BYTES)
}

// How many atoms it has.
pub fn requires_count(w: &Area, m: usize) -> usize
    requires { m < most_methods }
    ensures { (result ≡ requires_count_at w.now m) × (result < byte_values) }
{
    crate::byte_at(
        w,
        Layout::METHODS + m * Layout::METHOD_BYTES + MethodAt::REQUIRES_COUNT,
    )
}

// The first atom of its ensures.
pub fn ensures_first(w: &Area, m: usize) -> usize
    requires { m < most_methods }
    ensures { (result ≡ ensures_first_at w.now m) × (result < half_values) }
{
    crate::half_at(
        w,
        Layout::METHODS + m * Layout::METHOD_BYTES + MethodAt::ENSURES,
    )
}

// How many atoms that has.
pub fn ensures_count(w: &Area, m: usize) -> usize
    requires { m < most_methods }
    ensures { (result ≡ ensures_count_at w.now m) × (result < byte_values) }
{
    crate::byte_at(
        w,
        Layout::METHODS + m * Layout::METHOD_BYTES + MethodAt::ENSURES_COUNT,
    )
}

// Its first row.
pub fn first_row_at(w: &Area, m: usize) -> usize
    requires { m < most_methods }
    ensures { (result ≡ first_row_at w.now m) × (result < half_values) }
{
    crate::half_at(
        w,
        Layout::METHODS + m * Layout::METHOD_BYTES + MethodAt::FIRST_ROW,
    )
}

// CLASSES

// How many fields the class c has.
pub fn field_count_at(w: &Area, c: usize) -> usize
    requires { c < most_classes }
    ensures { (result ≡ field_count_at w.now c) × (result < byte_values) }
{
    crate::byte_at(w, Layout::CLASSES + c * Layout::CLASS_BYTES)
}

// The name of its field j.
pub fn field_name_at(w: &Area, c: usize, j: usize) -> usize
    requires { (c < most_classes) × (j < most_fields) }
    ensures { (result ≡ field_name_at w.now c j) × (result < byte_values) }
{
    crate::byte_at(
        w,
        Layout::CLASSES + c * Layout::CLASS_BYTES + ClassAt::NAME + j * ClassAt::FIELD_BYTES,
    )
}

// 1 where that field is an int, 0 where it is a reference.
pub fn field_kind_at(w: &Area, c: usize, j: usize) -> usize
    requires { (c < most_classes) × (j < most_fields) }
    ensures { (result ≡ field_kind_at w.now c j) × (result < byte_values) }
{
    crate::byte_at(
        w,
        Layout::CLASSES + c * Layout::CLASS_BYTES + ClassAt::KIND + j * ClassAt::FIELD_BYTES,
    )
}

// The place in the class c of the field with the name n, `ClassAt::NO_PLACE` where it has none.
pub fn place_at(w: &Area, c: usize, n: usize) -> usize
    requires { (c < most_classes) × (n < most_names) }
    ensures { (result ≡ place_at w.now c n) × (result < byte_values) }
{
    crate::byte_at(w, Layout::PLACES + c * Layout::FIELD_NAMES + n)
}
