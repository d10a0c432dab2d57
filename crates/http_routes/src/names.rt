//! Parts of a path as namespaces and names.
ghost use Rattle.std.specs.Prelude.{◌≡◌, ◌≤◌, true, length, MatchOption, IfSome};
ghost use Rattle.kube_meta.specs.Names.{is_namespace, is_name};

use kube_meta::{NAME_BYTES, NAMESPACE_BYTES, name_ok, namespace_ok};

/// The part as a namespace: `None` where it isn't one.
pub fn namespace_text(part: &[u8]) -> Option<&str>
    ensures text { MatchOption result (is_namespace part.now ≡ true → ⊥) (λ s. (s.now ≡ part.now) × (is_namespace part.now ≡ true)) }
    ensures fits { IfSome result (λ s. length s.now ≤ NAMESPACE_BYTES) }
{
    match str::from_utf8(part) {
        Ok(text) => {
            if namespace_ok(text) {
                return Some(text);
            }
            None
        }
        Err(_) => None,
    }
}

/// The part as a name: `None` where it isn't one.
pub fn name_text(part: &[u8]) -> Option<&str>
    ensures text { MatchOption result (is_name part.now ≡ true → ⊥) (λ s. (s.now ≡ part.now) × (is_name part.now ≡ true)) }
    ensures fits { IfSome result (λ s. length s.now ≤ NAME_BYTES) }
{
    match str::from_utf8(part) {
        Ok(text) => {
            if name_ok(text) {
                return Some(text);
            }
            None
        }
        Err(_) => None,
    }
}
