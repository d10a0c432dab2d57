//! Reviews (`ConversionReview` of apiextensions.k8s.io/v1): a request read, and one sent to someone else, whose response is checked.
//!
//! The one contract: `take_request` has the fields of a review of a request, or the first path at which something else stands;
//! `take_response` takes the objects of a response that fits what was asked, or tells the first thing that is refused, and `ask` does
//! so with the answer of one exchange.
//!
//! It knows nothing of definitions, of how documents are converted, nor of HTTP.
#![tactic(auto)]

mod fault;
mod levels;

// What stands in a review.
mod fields;
mod indices;
mod request;
mod response;
mod restoring;
mod reviews;
mod sameness;

// The texts of reviews.
mod texts;

// A question to someone else.
mod asking;
mod taking;

pub use asking::{ask, request_text};
pub use fault::{AskFault, ResponseFault, ReviewFault};
pub use levels::REVIEW_LEVELS;
pub use request::{Request, take_request};
pub use reviews::read_review;
pub use taking::take_response;
pub use texts::{Page, comma_before, quoted};
