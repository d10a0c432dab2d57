//! Reads a rule document: the rules by which each other version of a kind goes over to one hub version.
//!
//! The one contract: `read_rules` answers what `set_read` says: the set of rules that the document spells,
//! or the path of the first thing in it that is refused. Want of memory may come anywhere. `accepts` says which
//! documents those are, with no walk and no order in it.
//!
//! It knows nothing of schemas, of which versions there are, and of whether rules fit.
#![tactic(auto)]

mod fields;
mod laws;
mod plain;
mod rules;
mod scalars;
mod set;
mod spot;
mod texts;
mod words;

pub use laws::accepts;
pub use rules::MAX_RULES;
pub use set::{RuleMap, RuleSet, RulesFault, SpokeRules, read_rules};
