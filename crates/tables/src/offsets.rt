// Where the columns of each row stand in it, and how bytes make numbers.

// The counts at the head of the work area.
#[derive(Clone, Copy)]
pub struct HeaderAt {}

impl HeaderAt {
    pub const ROWS: usize = 0;

    pub const ATOMS: usize = 2;

    pub const CLASSES: usize = 4;

    pub const METHODS: usize = 5;

    pub const MAIN: usize = 6;
}

// The columns of a statement row, after its kind.
#[derive(Clone, Copy)]
pub struct RowAt {}

impl RowAt {
    pub const X: usize = 1;

    pub const Y: usize = 2;

    pub const Z: usize = 3;

    pub const MEMBER: usize = 4;

    pub const ATOMS: usize = 5;

    pub const FIRST: usize = 6;

    pub const LINE: usize = 8;

    pub const TARGET: usize = 10;
}

// The columns of an atom, after its kind.
#[derive(Clone, Copy)]
pub struct AtomAt {}

impl AtomAt {
    pub const LEFT_TAG: usize = 1;

    pub const RIGHT_TAG: usize = 2;

    pub const LEFT: usize = 4;

    pub const RIGHT: usize = 8;

    // `acc x f` and `read x f` have x and f in the first two bytes of the left side.
    pub const VARIABLE: usize = AtomAt::LEFT;

    pub const FIELD: usize = AtomAt::LEFT + 1;
}

// The columns of a method, after the first atom of its requires.
#[derive(Clone, Copy)]
pub struct MethodAt {}

impl MethodAt {
    pub const REQUIRES_COUNT: usize = 2;

    pub const ENSURES_COUNT: usize = 3;

    pub const ENSURES: usize = 4;

    pub const FIRST_ROW: usize = 6;
}

// The columns of a class, after its count of fields: name and kind of the first field; each has so many bytes.
#[derive(Clone, Copy)]
pub struct ClassAt {}

impl ClassAt {
    pub const NAME: usize = 1;

    pub const KIND: usize = 2;

    pub const FIELD_BYTES: usize = 2;

    // the place of a name that no field of the class has; no Option, since it is a byte of the table of places, as the clause of `place_at` and
    // the definition `ClassFits` say
    pub const NO_PLACE: usize = 255;
}

// Numbers as bytes, low byte first.
#[derive(Clone, Copy)]
pub struct Bytes {}

impl Bytes {
    // how many values a byte has
    pub const VALUES: usize = 256;

    // the bytes of a word
    pub const WORD: usize = 4;
}
