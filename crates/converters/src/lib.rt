//! Converters: what turns an object of one version to another.
//!
//! The one contract of `Converter`: a turn answers the object that an honest converter turns the one that it was given to, or that there is
//! none, or that the outside failed, which its count of faults tells. `ListConverter` answers from a list, for tests of those who call
//! converters, and `RenameConverter` renames a field, honestly. The crate knows nothing of definitions, nor of where converters run.
#![tactic(auto)]

mod converter;
mod list_converter;
mod rename_converter;

pub use converter::{Converter, TurnFault};
pub use list_converter::{ListConverter, MadeTurn, Outcome};
pub use rename_converter::RenameConverter;
