//! The words of a command line: a command with its options, each given once and in any order, a drill with its two numbers, or a command
//! with the address of a place.
//!
//! The crate's one contract is that of `read_command`: what the words ask for, exactly where they are a line of the program, unless memory is
//! wanted to read a line. It knows nothing of what a line does, nor of what the files hold that it names.
#![tactic(auto)]

mod drill_words;
mod list;
mod matching;
mod numbers;
mod program;
mod serve_words;
mod service;
mod source;
mod turns;
mod words;

pub use list::Words;
pub use matching::read_command;
pub use numbers::MOST_STEPS;
pub use service::{Listening, MOST_CONNECTIONS, MOST_WORKERS, USUAL_WORKERS};
pub use source::Source;
pub use turns::MOST_TURNS;
pub use words::{Command, Task};
