//! The program as a function: words, files, streams and a clock in, a status out.
//!
//! The crate's one contract is that of `run`: of `pipe` what was written is what a one-thread server of the definition answers to
//! the requests that the input spells, with so many turns of a worker after each, and the status is that of the input's end; of `convert` and `review` it is the one line that
//! the definition makes of the input, or the error line says why there is none; of `drill` it is what a drill of the shared example tells; or a file is refused, and the error line says
//! where and why. It knows nothing of how definitions are loaded, of how requests are read from bytes, of what they are
//! answered, of how documents are converted and reviews answered, of what a drill does, nor of where files and streams come from.
#![tactic(auto)]

pub mod laws;

// The definition that a line names.
mod loading;
mod stop;

// The work of `convert` and `review`.
mod halt;
mod input;
mod tasks;

// The work of `drill`.
mod drill_line;

// The work of `pipe`, and that of `serve`.
mod pipe_line;
mod serve_line;

// The statuses, and the top call.
mod status;
mod top;

pub use command_lines::Words;
pub use input::MOST_INPUT_BYTES;
pub use serve_input::PipeEnd;
pub use status::{
    BAD_ANSWER, BAD_INPUT, BAD_WORDS, CUT, DONE, LINK_FAILED, LISTEN_FAILED, NO_MEMORY,
    READ_FAILED, REFUSED, TOO_MANY, UNSETTLED, WRITE_FAILED, ended,
};
pub use top::run;
