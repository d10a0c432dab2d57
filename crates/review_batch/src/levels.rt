//! The limit of an answer.

/// The most bytes of an answer: 64 MiB. Objects of few bytes may be filled to many, so that without a limit a review of many such
/// objects would take all memory.
pub const ANSWER_ROOM: usize = 67_108_864;
