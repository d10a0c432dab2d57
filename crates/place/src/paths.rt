//! The names in a path.
ghost use Rattle.std.specs.Prelude.{◌≡◌, ◌↔◌, [], ◌∷◌, MatchOption, IsTrue};
ghost use Rattle.place.specs.Place.{pieces, Names as NamesView, IsPathOf, apis_word};

use kube_meta::{name_ok, namespace_ok};

/// The names of a resource, lent.
#[derive(Clone, Copy, Drop)]
pub struct Names<'a> {
    pub group: &'a str,
    pub version: &'a str,
    pub plural: &'a str,
}

const APIS: &str = "apis";

#[tactic(auto, unfolding(crate::specs::Place::apis_word))]
fn is_apis(part: &str) -> bool
    ensures { IsTrue result ↔ (part.now ≡ apis_word) }
{
    part == APIS
}

// The part before the first slash, and what stands behind it.
fn cut(path: &str) -> Option<(&str, &str)>
    ensures { MatchOption result (pieces path.now ≡ path.now ∷ []) (λ p. pieces path.now ≡ p.0.now ∷ pieces p.1.now) }
{
    path.split_once('/')
}

/// The names that the path has, where it is that of a resource.
pub fn names_in(path: &str) -> Option<Names<'_>>
    ensures { MatchOption result
        ((n : NamesView) → IsPathOf path.now n → ⊥)
        (λ n. IsPathOf path.now (record { group = n.group.now; version = n.version.now; plural = n.plural.now })) }
{
    let (before, rest) = cut(path)?;
    let (apis, rest) = cut(rest)?;
    let (group, rest) = cut(rest)?;
    let (version, plural) = cut(rest)?;
    if let Some(_) = cut(plural) {
        return None;
    }
    if !before.is_empty() {
        return None;
    }
    if !is_apis(apis) {
        return None;
    }
    if !name_ok(group) {
        return None;
    }
    if !namespace_ok(version) {
        return None;
    }
    if !namespace_ok(plural) {
        return None;
    }
    Some(Names {
        group,
        version,
        plural,
    })
}
