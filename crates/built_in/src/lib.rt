//! Two CustomResourceDefinitions, each with its rules of conversion. Both have group `example.com`, plural name `crontabs`, kind `CronTab`
//! and the versions `v1` and `v1beta1`, which are served; `v1` is the hub, and `v1beta1` is stored.
//!
//! The first is what the program serves where no files are named: `host` of `v1` is `address` of `v1beta1`. The second one (`example`) is
//! shared by tests and drills. Each kind of rule stands in it: `hostPort` is `host` and `port` in one text, `timeoutSeconds` counts what
//! `timeoutMillis` does in thousands, `size` is listed against `level`, `legacy` and `owner` have no other side, and the rest is the same.
//!
//! The one contract: the first two texts are the compact texts of the documents of `specs/Texts.antt`, and those of the example read as
//! the documents of `specs/Example.antt`; and nothing of them is refused where they are loaded.
//!
//! It knows nothing of objects, nor of who loads the definitions.
#![tactic(auto)]

pub mod example;
mod example_laws;
mod example_texts;
mod laws;
mod texts;

pub use laws::accepted;
pub use texts::{definition, rules};
