// These are the numbers given back: first those of what is accepted, then the refusals in the order in which they are tried. The writer of an
// optional part alone tries 63 after 22. They are numbers and no enum, since C gets them (include/naustvri.h); each enum of refusals gives its own by From.

// The list was carried out, the table is valid, or the field or optional part was read or written.
pub const DONE: u8 = 0;

pub const SEIZED: u8 = 1;

pub const SEIZED_WITH_LOSS: u8 = 2;

pub const RESERVED: u8 = 3;

pub const RESERVED_WITH_LOSS: u8 = 4;

pub const RELEASED: u8 = 5;

pub const CANCELLED: u8 = 6;

pub const CLOCK_TAKEN: u8 = 7;

pub const UNMARKED: u8 = 8;

pub const NOW_ANSWERED: u8 = 9;

pub const WRONG_LENGTH: u8 = 20;

// The octets of an optional part run out inside a parameter.
pub const PARAMETER_CUT_SHORT: u8 = 61;

// The octets of an optional part run out before a name.
pub const NO_END: u8 = 62;

pub const PRECEDENCE_TWICE: u8 = 63;

pub const MALFORMED: u8 = 22;

pub const FLAG_OR_LEVEL: u8 = 41;

pub const DIGIT_OR_POINT_CODE: u8 = 42;

pub const NOT_ZERO: u8 = 43;

pub const NOT_ABOVE_HOLDER: u8 = 44;

pub const REPEATED_REFERENCE: u8 = 45;

pub const LOOK_AHEAD_NOT_ALLOWED: u8 = 23;

pub const LOOK_AHEAD_BY_ROUTINE: u8 = 24;

pub const ALREADY_PRESENT: u8 = 25;

pub const RESERVATION_DIFFERS: u8 = 26;

pub const NOT_PRESENT: u8 = 27;

pub const NO_CIRCUIT_ROUTINE: u8 = 30;

pub const NO_CIRCUIT_PRECEDENCE: u8 = 31;

pub const NO_CIRCUIT_LOOK_AHEAD: u8 = 32;
