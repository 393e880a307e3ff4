// Atoms by number: the row of each, and which one a letter begins.
#![tactic(auto)]

ghost use Rattle.std.specs.Prelude.{◌≡◌};
ghost use Rattle.read_atoms.specs.Atoms.{row_with, atom_row, Begins};
ghost use Rattle.tables.specs.Kinds.{kind_number};

use read_grammar::OperandNumber;
use tables::AtomKind;

// The words as numbers: their bytes to the base 256, the first highest.
#[derive(Clone, Copy)]
struct Packed {}

impl Packed {
    const READ: u64 = 0x72656164;

    const ACC: u64 = 0x616363;

    const CHAIN: u64 = 0x636861696e;

    const EQ: u64 = 0x6571;

    const NE: u64 = 0x6e65;
}

// Their lengths.
#[derive(Clone, Copy)]
struct Bytes {}

impl Bytes {
    const READ: usize = 4;

    const ACC: usize = 3;

    const CHAIN: usize = 5;

    const EQ: usize = 2;

    const NE: usize = 2;
}

// The operands of a permission, a variable and a field, and those of a comparison, two expressions.
const PATH: u32 = OperandNumber::READ + OperandNumber::BASE * OperandNumber::FIELD;

const SIDES: u32 = OperandNumber::EXPRESSION * (1 + OperandNumber::BASE);

// What the grammar says of an atom: its word as one number and the length of that; its operands as one number; whether it may be the
// condition of `if` or `loop`.
#[derive(Clone, Copy)]
pub struct Row {
    pub word: u64,
    pub bytes: usize,
    pub operands: u32,
    pub condition: bool,
}

fn columns(word: u64, bytes: usize, operands: u32, condition: bool) -> Row
    ensures { result ≡ row_with word bytes operands condition }
{
    Row {
        word,
        bytes,
        operands,
        condition,
    }
}

// The row of the atom of this kind.
// A match and no array: one function makes each row of the table from its columns.
pub fn row_of_kind(kind: AtomKind) -> Row
    ensures { result ≡ atom_row (kind_number kind) }
{
    match kind {
        AtomKind::Read => columns(Packed::READ, Bytes::READ, PATH, false),
        AtomKind::Acc => columns(Packed::ACC, Bytes::ACC, PATH, false),
        AtomKind::Chain => columns(Packed::CHAIN, Bytes::CHAIN, PATH, false),
        AtomKind::Eq => columns(Packed::EQ, Bytes::EQ, SIDES, true),
        AtomKind::Ne => columns(Packed::NE, Bytes::NE, SIDES, true),
    }
}

// Their numbers.
const READ: usize = AtomKind::Read as usize;

const ACC: usize = AtomKind::Acc as usize;

const CHAIN: usize = AtomKind::Chain as usize;

const EQ: usize = AtomKind::Eq as usize;

const NE: usize = AtomKind::Ne as usize;

// The same by its number. A number that is no kind has no operands.
pub fn row_of(kind: usize) -> Row
    ensures { result ≡ atom_row kind }
{
    match kind {
        READ => row_of_kind(AtomKind::Read),
        ACC => row_of_kind(AtomKind::Acc),
        CHAIN => row_of_kind(AtomKind::Chain),
        EQ => row_of_kind(AtomKind::Eq),
        NE => row_of_kind(AtomKind::Ne),
        _ => columns(0, 0, 0, false),
    }
}

// The kind of the atom whose word begins with this letter, which is no number of the kind.
#[tactic(auto, unfolding(crate::specs::Atoms::opened, rules::specs::Base::opened))]
pub fn begun_by(letter: u8) -> Option<AtomKind>
    ensures { Begins letter result }
{
    match letter {
        b'r' => Some(AtomKind::Read),
        b'a' => Some(AtomKind::Acc),
        b'c' => Some(AtomKind::Chain),
        b'e' => Some(AtomKind::Eq),
        b'n' => Some(AtomKind::Ne),
        _ => None,
    }
}
