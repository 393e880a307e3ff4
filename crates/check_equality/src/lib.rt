// Terms of the checker as keys, and ~ by labels that are kept as facts are added.
#![tactic(auto)]

mod marks;
mod slots;
mod terms;

ghost use Rattle.std.specs.Prelude.{◌≡◌};
ghost use Rattle.check_equality.specs.Layout.{offsets};

pub use marks::{mark, place, push_marked};
pub use slots::{alike, label_of, pick, push};
pub use terms::{key_of, path_key, variable_key};

// The checker's state stands in two arrays: the keys of its slots; and bytes, which are the slots' labels, and what is known besides.
// The constants below as one value.
#[derive(Clone, Copy)]
pub struct State {
    pub slots: usize,
    pub null: usize,
    pub left: usize,
    pub right: usize,
    pub relations: usize,
    pub variables: usize,
    pub fields: usize,
    pub facts: usize,
    pub entries: usize,
    pub kinds: usize,
    pub bytes: usize,
    pub read: u8,
    pub acc: u8,
    pub chain: u8,
    pub marks: usize,
}

impl State {
    // Slots: one for each variable, one for null, and two for each fact, its sides.
    pub const SLOTS: usize = 144;

    pub const NULL: usize = 15;

    // The sides of fact i have the slots LEFT + 2 i and RIGHT + 2 i.
    pub const LEFT: usize = 16;

    pub const RIGHT: usize = 17;

    // Two slots before the facts, which two more terms may take.
    pub const TERMS: usize = 14;

    // Bytes: after the labels UNEQUAL for each fact that is an inequality, the variables and the fields of the entries, two counts, and the
    // kinds of the entries.
    pub const RELATIONS: usize = 144;

    pub const UNEQUAL: u8 = 1;

    pub const VARIABLES: usize = 208;

    pub const FIELDS: usize = 272;

    pub const FACTS: usize = 336;

    pub const ENTRIES: usize = 337;

    pub const KINDS: usize = 338;

    pub const BYTES: usize = 402;

    // The kind of an entry. That of a listed path is the number of its halves: a `read` is one, an `acc` both. A chain is no path.
    pub const READ: u8 = 1;

    pub const ACC: u8 = 2;

    pub const CHAIN: u8 = 3;

    // Marks: one for each place of a key.
    pub const MARKS: usize = 512;

    // A key's place is the key and so many-th of it.
    pub const MARK_FOLD: u64 = 8;

    // Keys: the variables', null's, the paths', so many for each variable, and the numbers'.
    pub const VARIABLE_KEYS: u64 = 15;

    pub const NULL_KEY: u64 = 256;

    pub const FIRST_PATH: u64 = 257;

    pub const PATHS: u64 = 256;

    pub const FIRST_NUMBER: u64 = 65793;

    // The label of a term that has no slot. A byte and no Option: it is compared with the labels in the state, and is none of them.
    pub const NO_LABEL: u8 = 255;

    pub const VARIABLE_COUNT: u8 = 15;

    // The variables `this`, w and `result`.
    pub const THIS: u8 = 0;

    pub const PARAM: u8 = 1;

    pub const RESULT: u8 = 14;

    // No variable. A byte and no Option: it is compared with variables alone, and is none of them.
    pub const NO_VARIABLE: u8 = 255;

    pub fn offsets() -> State
        ensures { result ≡ offsets }
    {
        State {
            slots: State::SLOTS,
            null: State::NULL,
            left: State::LEFT,
            right: State::RIGHT,
            relations: State::RELATIONS,
            variables: State::VARIABLES,
            fields: State::FIELDS,
            facts: State::FACTS,
            entries: State::ENTRIES,
            kinds: State::KINDS,
            bytes: State::BYTES,
            read: State::READ,
            acc: State::ACC,
            chain: State::CHAIN,
            marks: State::MARKS,
        }
    }
}

// A term of the checker: a variable or a field by its number, a number by its 32 bits.
#[derive(Clone, Copy)]
pub enum Term {
    Num(u32),
    Null,
    Var(u8),
    Path(u8, u8),
}
