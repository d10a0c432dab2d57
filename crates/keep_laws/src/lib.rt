//! What it means that two versions of an object are one, and the laws of going over and back: of a body as cells with entries,
//! of a body as its schema allows it, and of a whole object with its metadata and its annotations.
//!
//! The one contract: `object_laws::one_each` and `object_laws::over_and_back`. A whole object of the hub is paired with one settled
//! object of each spoke, a settled one with one whole object of the hub, and over and back is the identity on both and takes out of
//! any other object what has no place in it. `body_laws` says the same of bodies, where a level fits, and `fitted_laws` that a body
//! which is valid and filled by its schema, and at most 64 deep, is one that the level knows and allows.
//!
//! It knows nothing of how values or objects are held in memory, nor of how they are stored or asked for.
#![tactic(auto)]

pub mod body_laws;
pub mod fitted_laws;
pub mod object_laws;
