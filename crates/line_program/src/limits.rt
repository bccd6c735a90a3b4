//! The limits on lines and on the input.

/// The most bytes that a line may have before its end.
pub const LAST_LINE_BYTES: usize = 262_144;

/// The most bytes that an input may have.
pub const LAST_INPUT_BYTES: usize = 268_435_456;
