// The grammar by numbers: the row of each kind of line. Where a line may stand, and the limits of the text: `places`.
#![tactic(auto)]

mod places;

ghost use Rattle.std.specs.Prelude.{◌≡◌};
ghost use Rattle.rules.specs.Grammar.{form};
ghost use Rattle.rules.specs.Numbered.{number};
ghost use Rattle.read_grammar.specs.Rows.{kind_numbered, row_of, row_number};

pub use places::{first_place, is_in_place, is_within, place_after};
use rules::Kind;

// THE ROW OF A KIND

// The operands, by their numbers; several as one number to the base 16, the first lowest. No enum, since an operand is a digit of a kind's row
// (`operands_number`).
#[derive(Clone, Copy)]
pub struct OperandNumber {}

impl OperandNumber {
    pub const BASE: u32 = 16;

    pub const NEW_CLASS: u32 = 1;

    pub const NEW_FIELD: u32 = 2;

    pub const NEW_METHOD: u32 = 3;

    pub const NEW_VARIABLE: u32 = 4;

    pub const TYPE_NAME: u32 = 5;

    pub const CLASS_NAME: u32 = 6;

    pub const READ: u32 = 7;

    pub const ASSIGNED: u32 = 8;

    pub const FIELD: u32 = 9;

    pub const METHOD: u32 = 10;

    pub const EXPRESSION: u32 = 11;
}

// What follows the operands, by its number; any other is a condition and then a formula. No enum, since it is a digit of a kind's row
// (`tail_number`).
#[derive(Clone, Copy)]
pub struct TailNumber {}

impl TailNumber {
    pub const NONE: u32 = 0;

    pub const CONDITION: u32 = 1;

    pub const FORMULA: u32 = 2;
}

// The stages that no row of a kind leads to, by their numbers; no enum, since a stage is a digit of a kind's row (`stage_number`).
#[derive(Clone, Copy)]
pub struct Stage {}

impl Stage {
    pub const BEGINNING: u32 = 0;

    pub const AFTER_METHOD: u32 = 2;

    pub const AFTER_MAIN: u32 = 8;
}

// What the grammar says of a kind of line: its operands as one number; what follows them; the stages at which it may stand; and the stage
// after it.
#[derive(Clone, Copy)]
pub struct Row {
    pub operands: u32,
    pub tail: u32,
    pub first: u32,
    pub last: u32,
    pub next: u32,
}

// A row as one number to the base 16: what each part of it counts there.
impl Row {
    const BASE: u32 = 16;

    const TAIL: u32 = 0x1_0000;

    const FIRST: u32 = 0x10_0000;

    const LAST: u32 = 0x100_0000;

    const NEXT: u32 = 0x1000_0000;
}

// From the right: four operands, tail, first stage, last stage, next stage.
#[tactic(auto, unfolding(crate::specs::Rows::opened, read_words::specs::Words::opened, rules::specs::Grammar::opened, rules::specs::Base::opened, rules::specs::Places::stage_number))]
fn row_number(kind: Kind) -> u32
    ensures { result ≡ row_number (row_of (form (kind_numbered (number kind)))) }
{
    match kind {
        Kind::Class => 0x1200_0001,
        Kind::Field => 0x1110_0025,
        Kind::Method => 0x3210_4535,
        Kind::Requires => 0x4332_0000,
        Kind::Ensures => 0x5442_0000,
        Kind::Main => 0x5200_0000,
        Kind::Var => 0x5550_0045,
        Kind::Set => 0x6650_0797,
        Kind::Let => 0x6650_00b8,
        Kind::New => 0x6650_0068,
        Kind::Call => 0x6650_7a78,
        Kind::Return => 0x7650_0007,
        Kind::Assert => 0x6652_0000,
        Kind::Release => 0x6652_0000,
        Kind::If => 0x6651_0000,
        Kind::Else => 0x6750_0000,
        Kind::Join => 0x6752_0000,
        Kind::End => 0x6750_0000,
        Kind::Add => 0x6650_0778,
        Kind::Sub => 0x6650_0778,
        Kind::Loop => 0x6653_0000,
        Kind::Again => 0x6750_0000,
        Kind::Open => 0x6650_0978,
        Kind::Shut => 0x6650_0097,
    }
}

pub fn row_of(kind: Kind) -> Row
    ensures { result ≡ row_of (form (kind_numbered (number kind))) }
{
    let n = row_number(kind);
    Row {
        operands: n % Row::TAIL,
        tail: n / Row::TAIL % Row::BASE,
        first: n / Row::FIRST % Row::BASE,
        last: n / Row::LAST % Row::BASE,
        next: n / Row::NEXT,
    }
}

// THE PLACE OF A LINE

// Where a line stands: the stage by its number, whether `main` is above, the open branches and loops as one number (`places::Open`), and
// what the lines above have used of each limit. That these fit (`within_limits`) is no fact of the type: `place_after` passes a limit before it
// is tested (`AfterWithin`).
#[derive(Clone, Copy)]
pub struct Place {
    pub stage: u32,
    pub main: bool,
    pub branches: usize,
    pub classes: usize,
    pub fields: usize,
    pub methods: usize,
    pub locals: usize,
    pub statements: usize,
}
