// The numbers of document 01's table and document 02's, as the calls return them.

#[derive(Clone, Copy)]
pub struct Number {}

impl Number {
    // A call returns number × FACTOR + line.
    pub const FACTOR: u32 = 65536;

    // Why a text gets no other answer.
    pub const WRONG_LENGTH: u32 = 1;

    pub const TEXT_TOO_LONG: u32 = 2;

    pub const BAD_BYTE: u32 = 3;

    pub const MALFORMED: u32 = 4;

    pub const LIMIT_PASSED: u32 = 5;

    pub const UNDECLARED: u32 = 6;

    pub const WRONG_TYPE: u32 = 7;

    pub const TEXT_ENDS: u32 = 8;

    pub const WRONG_TARGET: u32 = 9;

    pub const UNFRAMED: u32 = 10;

    pub const UNRESOLVED: u32 = 11;

    pub const NO_PERMISSION: u32 = 12;

    pub const NOT_SHOWN: u32 = 13;

    pub const STATE_FULL: u32 = 14;

    pub const UNBOUNDED: u32 = 15;

    pub const BOUND_PASSED: u32 = 16;

    pub const NO_SET_ACCEPTED: u32 = 17;

    pub const NOT_ONE_STAR: u32 = 18;

    pub const WRONG_SHARES: u32 = 19;

    // How a run ends.
    pub const STEPS_TAKEN: u32 = 21;

    pub const HEAP_FULL: u32 = 22;

    pub const FRAMES_FULL: u32 = 23;

    pub const PERMISSION_MISSING: u32 = 24;

    pub const NULL_FOLLOWED: u32 = 25;

    pub const FORMULA_FALSE: u32 = 26;

    pub const OVERFLOW: u32 = 27;
}
