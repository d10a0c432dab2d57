//! From two texts to a definition of several versions in memory: a CustomResourceDefinition, and the rules of conversion between its
//! versions.
//!
//! The one contract: `load_versions` is Ok exactly where both texts are read and nothing of them is refused, with the definition, its
//! hub and its other versions with their fitted rules as the texts mean them (`Loads`), in a `LoadedVersions`, whose type keeps all
//! that the laws of a definition ask for; and else it names the first thing that is refused, as `RefusesLoading` says. The whole definition
//! is tried before the rules are read. Want of memory may come anywhere. `load` is the step to the definition and its fitted rules, and
//! `load_crd` the one to the definition alone.
//!
//! It knows nothing of objects or requests.
#![tactic(auto)]

// The definition with the fitted rules of each spoke.
mod blamed;
mod bytes;
mod fitting;
mod known;
mod loaded;
mod loading;
mod words;

// The same in memory, with all that the laws ask for.
mod versions;

// From the one to the other.
mod from_texts;
mod naming;

pub use from_texts::load_versions;
pub use loaded::Loaded;
pub use loading::{LoadFault, Which, load, load_crd};
pub use versions::LoadedVersions;
