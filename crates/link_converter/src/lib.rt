//! A converter that asks another program, over a link, by ConversionReviews (apiextensions.k8s.io/v1) as requests of HTTP.
//!
//! The one contract: `turn` makes one exchange, the POST of the review of one object, and answers the object of a response of the code
//! 200 that fits what was asked (`take_response` of `review_forms`), or why there is none. It knows nothing of definitions, nor of what
//! the objects are turned to.
#![tactic(auto)]

mod answering;
mod asking;
mod link_converter;
mod taking;

pub use link_converter::LinkConverter;
