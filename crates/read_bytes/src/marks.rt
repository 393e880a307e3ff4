// Eight bytes at a time: as one number, and the bytes of it that may be in a set, each marked by its bit 7.
ghost use Rattle.std.specs.Prelude.{◌≡◌, ◌+◌, ◌≤◌, length};
ghost use Rattle.read_bytes.specs.Marks.{wide_bytes, eight, little_endian, ones, value, line_form, field_form, name_form, digit_form, form_of};

use crate::{Byte, Set};

// Eight bytes as one number, and what such a number is tested by, each byte apart. A sum with FROM or PAST tells in bit 7 of a byte, if the
// byte is below 128, whether it is at least the first of a range, or past the last.
#[derive(Clone, Copy)]
pub struct Wide {}

impl Wide {
    pub const BYTES: usize = 8;

    pub const TWICE: usize = 2 * Wide::BYTES;

    // The last of them.
    pub const LAST: usize = Wide::BYTES - 1;

    const ONES: u64 = 0x0101010101010101;

    // Bit 7 of each byte, and the bits below it.
    const HIGH: u64 = 0x80 * Wide::ONES;

    const LOW: u64 = 0x7f * Wide::ONES;

    // Bits 5 and 6, which tab and LF do not have.
    const MIDDLE: u64 = 0x60 * Wide::ONES;

    // The bit that a small letter has and a capital has not.
    const CASE: u64 = 0x20 * Wide::ONES;

    const TABS: u64 = Byte::TAB as u64 * Wide::ONES;

    const FROM_GRAPHIC: u64 = (0x80 - Byte::FIRST_GRAPHIC as u64) * Wide::ONES;

    const PAST_GRAPHIC: u64 = (0x7f - Byte::LAST_GRAPHIC as u64) * Wide::ONES;

    const FROM_A: u64 = (0x80 - Byte::LOWER_A as u64) * Wide::ONES;

    const PAST_Z: u64 = (0x7f - Byte::LOWER_Z as u64) * Wide::ONES;

    const FROM_ZERO: u64 = (0x80 - Byte::ZERO as u64) * Wide::ONES;

    const PAST_NINE: u64 = (0x7f - Byte::NINE as u64) * Wide::ONES;
}

// Eight bytes from i on as one number, the first lowest.
#[tactic(auto, unfolding(crate::specs::Marks::little_endian))]
pub fn word8(l: &[u8], i: usize) -> u64
    requires { i + wide_bytes ≤ length l.now }
    ensures { result ≡ little_endian (eight l.now i) }
{
    u64::from_le_bytes([
        l[i],
        l[i + 1],
        l[i + 2],
        l[i + 3],
        l[i + 4],
        l[i + 5],
        l[i + 6],
        l[i + 7],
    ])
}

// Bit 7 of each byte that may end a field.
fn field_marks(x: u64) -> u64
    ensures { result ≡ value ones x field_form }
{
    (((x & Wide::MIDDLE) + Wide::MIDDLE) & Wide::HIGH) ^ Wide::HIGH
}

// Bit 7 of each byte that is not tab or 33 to 126.
fn line_marks(x: u64) -> u64
    ensures { result ≡ value ones x line_form }
{
    let y = x & Wide::LOW;
    let low = y + Wide::FROM_GRAPHIC;
    let del = y + Wide::PAST_GRAPHIC;
    let tab = (y ^ Wide::TABS) + Wide::LOW;
    (((low ^ Wide::HIGH) & tab) | del | x) & Wide::HIGH
}

// Bit 7 of each byte that is no letter or digit.
pub fn name_marks(x: u64) -> u64
    ensures { result ≡ value ones x name_form }
{
    let y = x & Wide::LOW;
    let u = y | Wide::CASE;
    let letter = (u + Wide::FROM_A) & ((u + Wide::PAST_Z) ^ Wide::HIGH);
    let digit = (y + Wide::FROM_ZERO) & ((y + Wide::PAST_NINE) ^ Wide::HIGH);
    (((letter | digit) ^ Wide::HIGH) | x) & Wide::HIGH
}

// Bit 7 of each byte that is no digit.
pub fn digit_marks(x: u64) -> u64
    ensures { result ≡ value ones x digit_form }
{
    let y = x & Wide::LOW;
    (((y + Wide::FROM_ZERO) ^ Wide::HIGH) | (y + Wide::PAST_NINE) | x) & Wide::HIGH
}

// Bit 7 of each byte that may be in the set.
// A match and no closure: `form_of` names the form of each set.
pub fn marks(x: u64, set: Set) -> u64
    ensures { result ≡ value ones x (form_of set) }
{
    match set {
        Set::LineEnd => line_marks(x),
        Set::FieldEnd => field_marks(x),
        Set::NotLetterOrDigit => name_marks(x),
        Set::FullStop => Wide::HIGH,
    }
}
