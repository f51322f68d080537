//! The causes for which a value doesn't fit.

// The count of the arguments isn't that of the positions.
pub(crate) const COUNT: u8 = 2;

// The value is of another kind than its slot.
pub(crate) const KIND: u8 = 3;

// The value is outside of what its slot takes, a list has another length, or a variant isn't there, is missing or is given to no enum.
pub(crate) const RANGE: u8 = 4;

// An index isn't in the table, or its entry isn't one that may stand there.
pub(crate) const NO_ENTRY: u8 = 5;

// More than 16 levels of Format values.
pub(crate) const DEEP: u8 = 6;

// The weights of the Format values come to more than 8,192.
pub(crate) const MANY: u8 = 7;

// A text has what isn't supported.
pub(crate) const UNSUPPORTED: u8 = 8;
