//! How long a peer is waited for, and how much of its answer is read.

/// So many seconds one address of a host is waited for until a connection is had.
pub const CONNECT_SECONDS: u64 = 10;

/// So many seconds a whole exchange may take, from before its connection is had to the end of the answer.
pub const EXCHANGE_SECONDS: u64 = 30;

/// So many bytes of an answer are read at most.
pub const MOST_ANSWER_BYTES: usize = 2_097_152;

/// So many bytes are read at once.
pub const READ_BYTES: usize = 16_384;
