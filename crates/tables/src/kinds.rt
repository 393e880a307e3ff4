// What a byte of a row says: its kind; and what a byte of an atom says: its kind, and what each of its sides is.

ghost use Rattle.std.specs.Prelude.{◌≡◌};

use rules::Kind;

// The kinds of the rows of statements, by their numbers: `match` on the byte of a row, with ranges for the bytes that are no statement's.
#[derive(Clone, Copy)]
pub struct RowKind {}

impl RowKind {
    // The kinds up to this one are those of declarations.
    pub const DECLARATION: u8 = Kind::Var as u8;

    pub const SET: u8 = Kind::Set as u8;

    pub const LET: u8 = Kind::Let as u8;

    pub const NEW: u8 = Kind::New as u8;

    pub const CALL: u8 = Kind::Call as u8;

    pub const RETURN: u8 = Kind::Return as u8;

    pub const ASSERT: u8 = Kind::Assert as u8;

    pub const RELEASE: u8 = Kind::Release as u8;

    pub const IF: u8 = Kind::If as u8;

    pub const ELSE: u8 = Kind::Else as u8;

    pub const JOIN: u8 = Kind::Join as u8;

    pub const END: u8 = Kind::End as u8;

    pub const ADD: u8 = Kind::Add as u8;

    pub const SUB: u8 = Kind::Sub as u8;

    pub const LOOP: u8 = Kind::Loop as u8;

    pub const AGAIN: u8 = Kind::Again as u8;

    pub const OPEN: u8 = Kind::Open as u8;

    pub const SHUT: u8 = Kind::Shut as u8;

    // No kind from this one on.
    pub const UNKNOWN: u8 = Kind::LAST + 1;
}

// The kinds of atoms, by their numbers: that of a permission is the number of its halves.
#[derive(Clone, Copy, PartialEq, Eq)]
pub enum AtomKind {
    Read = 1,
    Acc,
    Chain,
    Eq,
    Ne,
}

impl AtomKind {
    const ACC: u8 = AtomKind::Acc as u8;

    const CHAIN: u8 = AtomKind::Chain as u8;

    const EQ: u8 = AtomKind::Eq as u8;
}

// Every byte has a meaning: one below them is a `read`, one above them an `ne`. No match: a test of the kind that a match gives takes ten instructions
// more, where this one becomes a test of the byte.
impl From<u8> for AtomKind {
    ghost use Rattle.tables.specs.Kinds.{kind_of};

    ghost from_gives = { λ b k. k ≡ kind_of b };

    #[tactic(auto, unfolding(crate::specs::Kinds::kind_of))]
    #[inline(always)]
    fn from(b: u8) -> AtomKind {
        if b < AtomKind::CHAIN {
            if b < AtomKind::ACC {
                return AtomKind::Read;
            }
            return AtomKind::Acc;
        }
        if b == AtomKind::CHAIN {
            return AtomKind::Chain;
        }
        if b == AtomKind::EQ {
            return AtomKind::Eq;
        }
        AtomKind::Ne
    }
}

impl From<AtomKind> for u8 {
    ghost use Rattle.tables.specs.Kinds.{kind_number};

    ghost from_gives = { λ k b. b ≡ kind_number k };

    fn from(k: AtomKind) -> u8 {
        k as u8
    }
}

// What the four bytes of a side are, by its tag.
#[derive(Clone, Copy, PartialEq, Eq)]
pub enum SideTag {
    Num,
    Null,
    Var,
    Path,
}

impl SideTag {
    const NUM: u8 = SideTag::Num as u8;

    const NULL: u8 = SideTag::Null as u8;

    const VAR: u8 = SideTag::Var as u8;
}

// Every byte is a tag: one above them is that of a path.
impl From<u8> for SideTag {
    ghost use Rattle.tables.specs.Kinds.{side_of};

    ghost from_gives = { λ b t. t ≡ side_of b };

    #[tactic(auto, unfolding(crate::specs::Kinds::side_of))]
    fn from(b: u8) -> SideTag {
        match b {
            SideTag::NUM => SideTag::Num,
            SideTag::NULL => SideTag::Null,
            SideTag::VAR => SideTag::Var,
            _ => SideTag::Path,
        }
    }
}

impl From<SideTag> for u8 {
    ghost use Rattle.tables.specs.Kinds.{side_number};

    ghost from_gives = { λ t b. b ≡ side_number t };

    fn from(t: SideTag) -> u8 {
        t as u8
    }
}
