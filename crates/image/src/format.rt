// Offsets and limits of the image, by name: the one place of the code that says them, as specs/Format.antt does for the contracts.

// The directory: where the pair of each section stands, and the place of the third pair's length.
pub const COUNTS_PAIR: usize = 0;

pub const MAP_PAIR: usize = 8;

pub const RULES_PAIR: usize = 16;

pub const RULES_SIZE: usize = 20;

// Sections: the counts and finals, the class map, the rules.
pub const COUNTS_OFFSET: usize = 24;

pub const COUNTS_LENGTH: usize = 8;

pub const FINALS_OFFSET: usize = 28;

pub const MAP_OFFSET: usize = 32;

pub const MAP_LENGTH: usize = 256;

pub const RULES_OFFSET: usize = 288;

// The counts: states, classes and symbols, and a byte that is 0.
pub const STATES_OFFSET: usize = 24;

pub const CLASSES_OFFSET: usize = 25;

pub const SYMBOLS_OFFSET: usize = 26;

pub const ZERO_OFFSET: usize = 27;

// A rule is four bytes: kind, state, symbol, direction.
pub const RULE_LENGTH: usize = 4;

// Its kinds.
// kept: bytes and no enums for kinds and directions, since the contracts of moved_head, rule_bad and the lookup say what any byte there means: an enum would have a case more, for other bytes, and be made of a byte and matched at once.
pub const KIND_NONE: u8 = 0;

pub const KIND_CHANGE: u8 = 1;

pub const KIND_PUSH: u8 = 2;

pub const KIND_POP: u8 = 3;

pub const KIND_HALT: u8 = 4;

// The directions of a change or a push.
pub const DIRECTION_STAY: u8 = 0;

pub const DIRECTION_RIGHT: u8 = 1;

pub const DIRECTION_LEFT: u8 = 2;

// The directions of a pop: the head stays, or returns to the entry's pointer.
pub const POP_STAY: u8 = 0;

pub const POP_RETURN: u8 = 1;

// Limits.
pub const MAX_STATES: u8 = 32;

pub const MAX_CLASSES: u8 = 64;

pub const MAX_SYMBOLS: u8 = 128;

// The longest capture, in bytes.
pub const MAX_CAPTURE: usize = 65535;
