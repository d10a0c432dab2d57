//! Reviews (`ConversionReview` of apiextensions.k8s.io/v1) that a definition answers: a request in, its response out.
//!
//! The one contract: `answer` converts the objects of a request in their order, as `IsConverted` of `crd_meaning` says, or tells the
//! first that has no value and why.
//!
//! It knows nothing of how documents are converted, nor of where requests come from.
#![tactic(auto)]

mod answering;
mod converting;
mod levels;

pub use answering::answer;
pub use levels::ANSWER_ROOM;
pub use review_forms::ReviewFault;
