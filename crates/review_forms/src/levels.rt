//! The limit of a review.

/// The most levels of lists and objects of a review: the three that lead to an object, and the object's own 64.
pub const REVIEW_LEVELS: u32 = 67;
