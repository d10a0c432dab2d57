//! What many connections were answered, by one list of items: each connection has a span of the list in which one pass
//! served it.
//!
//! The crate's one contract is `ServedAll` (`specs/Served.antt`): as many connections were given back as were handed out,
//! each has a span of its own, and where the pass was alone it is alone again and every other new item is a worker's.
//! `proofs/Going.antt` has the laws by which it is kept while connections come and go. What it means that a connection is
//! served is a parameter. The crate has no code, and knows nothing of requests, of calls or of threads.
#![tactic(auto)]
