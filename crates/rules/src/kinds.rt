// What kinds of line and their numbers tell of each other.
ghost use Rattle.std.specs.Prelude.{◌≡◌, map};
ghost use Rattle.rules.specs.Grammar.{kinds, kind_number, IsKindNumber, is_statement_number, is_closing_number};
ghost use Rattle.rules.specs.Numbered.{number, Numbers};

use crate::{Kind, NoKind};

impl Kind {
    // Their numbers, by name where a byte is matched.
    const CLASS: u8 = Kind::Class as u8;

    const FIELD: u8 = Kind::Field as u8;

    const METHOD: u8 = Kind::Method as u8;

    const REQUIRES: u8 = Kind::Requires as u8;

    const ENSURES: u8 = Kind::Ensures as u8;

    const MAIN: u8 = Kind::Main as u8;

    const VAR: u8 = Kind::Var as u8;

    const SET: u8 = Kind::Set as u8;

    const LET: u8 = Kind::Let as u8;

    const NEW: u8 = Kind::New as u8;

    const CALL: u8 = Kind::Call as u8;

    const RETURN: u8 = Kind::Return as u8;

    const ASSERT: u8 = Kind::Assert as u8;

    const RELEASE: u8 = Kind::Release as u8;

    const IF: u8 = Kind::If as u8;

    const ELSE: u8 = Kind::Else as u8;

    const JOIN: u8 = Kind::Join as u8;

    const END: u8 = Kind::End as u8;

    const ADD: u8 = Kind::Add as u8;

    const SUB: u8 = Kind::Sub as u8;

    const LOOP: u8 = Kind::Loop as u8;

    const AGAIN: u8 = Kind::Again as u8;

    const OPEN: u8 = Kind::Open as u8;

    const SHUT: u8 = Kind::Shut as u8;

    // The kinds are numbered from 1 on.
    pub const LAST: u8 = Kind::Shut as u8;

    // All of them, in the order of the table.
    pub fn numbers() -> [u8; Kind::LAST as usize]
        ensures { result ≡ map kind_number kinds }
    {
        [
            Kind::Class as u8,
            Kind::Field as u8,
            Kind::Method as u8,
            Kind::Requires as u8,
            Kind::Ensures as u8,
            Kind::Main as u8,
            Kind::Var as u8,
            Kind::Set as u8,
            Kind::Let as u8,
            Kind::New as u8,
            Kind::Call as u8,
            Kind::Return as u8,
            Kind::Assert as u8,
            Kind::Release as u8,
            Kind::If as u8,
            Kind::Else as u8,
            Kind::Join as u8,
            Kind::End as u8,
            Kind::Add as u8,
            Kind::Sub as u8,
            Kind::Loop as u8,
            Kind::Again as u8,
            Kind::Open as u8,
            Kind::Shut as u8,
        ]
    }

    // The kind of this number.
    pub fn numbered(byte: u8) -> Kind
        requires { IsKindNumber byte }
        ensures { number result ≡ byte }
    {
        match Kind::try_from(byte) {
            Ok(kind) => kind,
            Err(_) => unreachable!(),
        }
    }

    pub fn is_statement(kind: u8) -> bool
        ensures { result ≡ is_statement_number kind }
    {
        Kind::SET <= kind
    }

    // Do the statements before a line of this kind end there?
    #[tactic(auto, unfolding(crate::specs::Grammar::is_closing_number, crate::specs::Grammar::statement_number))]
    pub fn is_closing(kind: u8) -> bool
        ensures { result ≡ is_closing_number kind }
    {
        matches!(kind, Kind::ELSE | Kind::JOIN | Kind::END | Kind::AGAIN)
    }
}

impl TryFrom<u8> for Kind {
    type Error = NoKind;

    ghost try_from_gives = { Numbers };

    fn try_from(byte: u8) -> Result<Kind, NoKind> {
        Ok(match byte {
            Kind::CLASS => Kind::Class,
            Kind::FIELD => Kind::Field,
            Kind::METHOD => Kind::Method,
            Kind::REQUIRES => Kind::Requires,
            Kind::ENSURES => Kind::Ensures,
            Kind::MAIN => Kind::Main,
            Kind::VAR => Kind::Var,
            Kind::SET => Kind::Set,
            Kind::LET => Kind::Let,
            Kind::NEW => Kind::New,
            Kind::CALL => Kind::Call,
            Kind::RETURN => Kind::Return,
            Kind::ASSERT => Kind::Assert,
            Kind::RELEASE => Kind::Release,
            Kind::IF => Kind::If,
            Kind::ELSE => Kind::Else,
            Kind::JOIN => Kind::Join,
            Kind::END => Kind::End,
            Kind::ADD => Kind::Add,
            Kind::SUB => Kind::Sub,
            Kind::LOOP => Kind::Loop,
            Kind::AGAIN => Kind::Again,
            Kind::OPEN => Kind::Open,
            Kind::SHUT => Kind::Shut,
            _ => return Err(NoKind {}),
        })
    }
}
