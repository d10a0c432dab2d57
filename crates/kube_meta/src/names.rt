//! Which texts are namespaces and names.
ghost use Rattle.std.specs.Prelude.{◌≡◌, ◌==◌};
ghost use Rattle.std.specs.List.{list_all, slice_split};
ghost use Rattle.kube_meta.specs.Names.{dot, has_good_ends, is_label_byte, is_label, is_namespace, is_name};

use crate::key::{NAME_BYTES, NAMESPACE_BYTES};

/// Whether the text is the name of an object, a subdomain name of RFC 1123: 1 to 253 bytes, parts with dots between
/// them, each of lower-case letters, digits and hyphens, first and last no hyphen. It takes no memory.
#[tactic(auto, unfolding(crate::specs::Names::is_name))]
pub fn name_ok(text: &str) -> bool
    ensures { result ≡ is_name text.now }
{
    text.len() <= NAME_BYTES && labels_ok(text.as_bytes())
}

/// Whether the text is a namespace, a label of RFC 1123: 1 to 63 bytes of lower-case letters, digits and hyphens,
/// first and last no hyphen. It takes no memory.
#[tactic(auto, unfolding(crate::specs::Names::is_namespace))]
pub fn namespace_ok(text: &str) -> bool
    ensures { result ≡ is_namespace text.now }
{
    text.len() <= NAMESPACE_BYTES && label_ok(text.as_bytes())
}

fn labels_ok(text: &[u8]) -> bool
    ensures { result ≡ list_all is_label (slice_split (λ b. b == dot) text.now) }
{
    text.split(|b| *b == b'.').all(|part| label_ok(part))
}

fn label_ok(part: &[u8]) -> bool
    ensures { result ≡ is_label part.now }
{
    has_good_ends(part) && part.iter().all(|b| label_byte_ok(*b))
}

/// Whether a part of a name isn't empty, and neither its first nor its last byte is a hyphen.
pub fn has_good_ends(part: &[u8]) -> bool
    ensures { result ≡ has_good_ends part.now }
{
    if part.is_empty() {
        return false;
    }
    if part.starts_with(b"-") {
        return false;
    }
    !part.ends_with(b"-")
}

fn label_byte_ok(byte: u8) -> bool
    ensures { result ≡ is_label_byte byte }
{
    byte.is_ascii_lowercase() || byte.is_ascii_digit() || byte == b'-'
}
