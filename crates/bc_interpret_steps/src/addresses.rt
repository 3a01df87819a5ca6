//! The addresses at which the primitives are called. Their code is the first segment of every image, which begins at `SELECT_INPUT`.

/// The address of SELECTINPUT.
pub const SELECT_INPUT: u16 = 520;

/// The address of SELECTOUTPUT.
pub const SELECT_OUTPUT: u16 = 524;

/// The address of RDCH.
pub const READ_BYTE: u16 = 528;

/// The address of WRCH.
pub const WRITE_BYTE: u16 = 530;

/// The address of FINDINPUT.
pub const FIND_INPUT: u16 = 534;

/// The address of FINDOUTPUT.
pub const FIND_OUTPUT: u16 = 537;

/// The address of ENDREAD.
pub const END_INPUT: u16 = 540;

/// The address of ENDWRITE.
pub const END_OUTPUT: u16 = 543;
