// Words by number: those that begin lines, and the reserved ones.
#![tactic(auto)]

ghost use Rattle.std.specs.Prelude.{◌≡◌, false, ◌+◌, ◌≤◌, length};
ghost use Rattle.rules.specs.Base.{is};
ghost use Rattle.rules.specs.Text.{reserved};
ghost use Rattle.rules.specs.Grammar.{kind_of};
ghost use Rattle.read_bytes.specs.Marks.{wide_bytes};
ghost use Rattle.read_words.specs.Words.{words, word_number, kind_or0, packed, packed_in};

use read_bytes::{Byte, Wide};
use rules::Kind;

// WORDS

// Words by number: those that begin a line, by their kinds; then the reserved ones.
const INT: u8 = Kind::LAST + 1;

const NULL: u8 = INT + 1;

const THIS: u8 = NULL + 1;

const RESULT: u8 = THIS + 1;

// The words as numbers: their bytes to the base 256, the first highest.
#[derive(Clone, Copy)]
struct Packed {}

impl Packed {
    const CLASS: u64 = 0x636c617373;

    const FIELD: u64 = 0x6669656c64;

    const METHOD: u64 = 0x6d6574686f64;

    const REQUIRES: u64 = 0x7265717569726573;

    const ENSURES: u64 = 0x656e7375726573;

    const MAIN: u64 = 0x6d61696e;

    const VAR: u64 = 0x766172;

    const SET: u64 = 0x736574;

    const LET: u64 = 0x6c6574;

    const NEW: u64 = 0x6e6577;

    const CALL: u64 = 0x63616c6c;

    const RETURN: u64 = 0x72657475726e;

    const ASSERT: u64 = 0x617373657274;

    const RELEASE: u64 = 0x72656c65617365;

    const IF: u64 = 0x6966;

    const ELSE: u64 = 0x656c7365;

    const JOIN: u64 = 0x6a6f696e;

    const END: u64 = 0x656e64;

    const ADD: u64 = 0x616464;

    const SUB: u64 = 0x737562;

    const LOOP: u64 = 0x6c6f6f70;

    const AGAIN: u64 = 0x616761696e;

    const OPEN: u64 = 0x6f70656e;

    const SHUT: u64 = 0x73687574;

    const INT: u64 = 0x696e74;

    const NULL: u64 = 0x6e756c6c;

    const THIS: u64 = 0x74686973;

    const RESULT: u64 = 0x726573756c74;
}

// At most 8 bytes as one number, the first byte highest.
pub fn pack(w: &[u8]) -> u64
    requires { length w.now ≤ wide_bytes }
    ensures { result ≡ packed 0 w.now }
{
    let mut n: u64 = 0;
    for b in w {
        n = n * Byte::VALUES + *b as u64;
    }
    n
}

// The number of a packed word, or 0.
#[tactic(auto, unfolding(crate::specs::Words::opened, rules::specs::Base::opened))]
fn numbered(k: u64) -> u8
    ensures { result ≡ packed_in words 1 k }
{
    match k {
        Packed::CLASS => Kind::Class as u8,
        Packed::FIELD => Kind::Field as u8,
        Packed::METHOD => Kind::Method as u8,
        Packed::REQUIRES => Kind::Requires as u8,
        Packed::ENSURES => Kind::Ensures as u8,
        Packed::MAIN => Kind::Main as u8,
        Packed::VAR => Kind::Var as u8,
        Packed::SET => Kind::Set as u8,
        Packed::LET => Kind::Let as u8,
        Packed::NEW => Kind::New as u8,
        Packed::CALL => Kind::Call as u8,
        Packed::RETURN => Kind::Return as u8,
        Packed::ASSERT => Kind::Assert as u8,
        Packed::RELEASE => Kind::Release as u8,
        Packed::IF => Kind::If as u8,
        Packed::ELSE => Kind::Else as u8,
        Packed::JOIN => Kind::Join as u8,
        Packed::END => Kind::End as u8,
        Packed::ADD => Kind::Add as u8,
        Packed::SUB => Kind::Sub as u8,
        Packed::LOOP => Kind::Loop as u8,
        Packed::AGAIN => Kind::Again as u8,
        Packed::OPEN => Kind::Open as u8,
        Packed::SHUT => Kind::Shut as u8,
        Packed::INT => INT,
        Packed::NULL => NULL,
        Packed::THIS => THIS,
        Packed::RESULT => RESULT,
        _ => 0,
    }
}

// The number of a word, or 0.
#[tactic(auto, unfolding(crate::specs::Words::opened, rules::specs::Base::opened))]
fn word(w: &[u8]) -> u8
    ensures { result ≡ word_number w.now }
{
    if Wide::BYTES < w.len() {
        return 0;
    }
    if read_bytes::byte_at(w, 0) == 0 {
        return 0;
    }
    numbered(pack(w))
}

// The number of the kind of line that a word begins, or 0 and no Option: the number is a byte of the table of lines (`read_scan::Word`).
pub fn kind_of(w: &[u8]) -> u8
    ensures { result ≡ kind_or0 (kind_of w.now) }
{
    let k = word(w);
    if k <= Kind::LAST { k } else { 0 }
}

// The bytes of `int` and of `result`, and those of `null`.
const SHORTEST_RESERVED: usize = 3;

const LONGEST_RESERVED: usize = 6;

const NULL_BYTES: usize = 4;

// Many names are shorter or longer than any reserved word.
pub fn is_reserved(w: &[u8]) -> bool
    ensures { result ≡ reserved w.now }
{
    if w.len() < SHORTEST_RESERVED {
        return false;
    }
    if LONGEST_RESERVED < w.len() {
        return false;
    }
    INT <= word(w)
}

#[tactic(auto, unfolding(rules::specs::Base::opened, crate::specs::Words::opened))]
pub fn is_null(w: &[u8]) -> bool
    ensures { result ≡ is "null" w.now }
{
    if w.len() != NULL_BYTES {
        return false;
    }
    pack(w) == Packed::NULL
}
