//! The limit of an object's size.

/// The most bytes that an object measures at any version.
pub const MAX_MEASURE: u64 = 262_144;
