//! Which texts are keys and values of labels, and which are keys of annotations.
ghost use Rattle.std.specs.Prelude.{◌≡◌, ◌-◌, ◌==◌, length, slice_get, true, false, MatchOption};
ghost use Rattle.std.specs.List.{list_all, slice_split, before_first, after_first};
ghost use Rattle.kube_meta.specs.Names.{dot};
ghost use Rattle.object_reading.specs.Labels.{is_alphanumeric, is_key_byte, is_key_name, is_prefix_byte, is_prefix_part, is_prefix, is_slash, has_slash, is_label_key, is_annotation_key, is_label_value};

use kube_meta::{NAME_BYTES, has_good_ends, name_ok};

/// The most bytes of the name in a key, and of a label's value.
pub const KEY_NAME_BYTES: usize = 63;

/// Whether the text is the key of a label: maybe a prefix, which is the name of an object, and a `/`, and then 1 to 63
/// bytes of letters, digits, `-`, `_` and `.`, first and last a letter or digit (Kubernetes, Labels and Selectors). It
/// takes no memory.
#[tactic(auto, unfolding(crate::specs::Labels::is_label_key))]
pub fn label_key_ok(text: &str) -> bool
    ensures { result ≡ is_label_key text.now }
{
    match cut(text) {
        Some((prefix, name)) => name_ok(prefix) && key_name_ok(name.as_bytes()),
        None => key_name_ok(text.as_bytes()),
    }
}

/// Whether the text is the key of an annotation: as a label's, where letters of the prefix may be capitals. It takes no
/// memory.
#[tactic(auto, unfolding(crate::specs::Labels::is_annotation_key))]
pub fn annotation_key_ok(text: &str) -> bool
    ensures { result ≡ is_annotation_key text.now }
{
    match cut(text) {
        Some((prefix, name)) => prefix_ok(prefix) && key_name_ok(name.as_bytes()),
        None => key_name_ok(text.as_bytes()),
    }
}

/// Whether the text is the value of a label: empty, or as the name in a key. It takes no memory.
#[tactic(auto, unfolding(crate::specs::Labels::is_label_value))]
pub fn label_value_ok(text: &str) -> bool
    ensures { result ≡ is_label_value text.now }
{
    text.is_empty() || key_name_ok(text.as_bytes())
}

// What stands before the first `/`, and what stands behind it.
fn cut(text: &str) -> Option<(&str, &str)>
    ensures { MatchOption result (has_slash text.now ≡ false)
        (λ p. (has_slash text.now ≡ true) × (p.0.now ≡ before_first is_slash text.now) × (p.1.now ≡ after_first is_slash text.now)) }
{
    text.split_once('/')
}

#[tactic(auto, unfolding(crate::specs::Labels::is_key_name))]
fn key_name_ok(text: &[u8]) -> bool
    ensures { result ≡ is_key_name text.now }
{
    text.len() <= KEY_NAME_BYTES && begins_well(text) && ends_well(text) && key_bytes_ok(text)
}

fn begins_well(text: &[u8]) -> bool
    ensures { result ≡ is_alphanumeric (slice_get text.now 0) }
{
    match text.first() {
        Some(byte) => byte.is_ascii_alphanumeric(),
        None => false,
    }
}

fn ends_well(text: &[u8]) -> bool
    ensures { result ≡ is_alphanumeric (slice_get text.now (length text.now - 1)) }
{
    match text.last() {
        Some(byte) => byte.is_ascii_alphanumeric(),
        None => false,
    }
}

fn key_bytes_ok(text: &[u8]) -> bool
    ensures { result ≡ list_all is_key_byte text.now }
{
    text.iter().all(|b| key_byte_ok(*b))
}

fn key_byte_ok(byte: u8) -> bool
    ensures { result ≡ is_key_byte byte }
{
    byte.is_ascii_alphanumeric() || byte == b'-' || byte == b'_' || byte == b'.'
}

#[tactic(auto, unfolding(crate::specs::Labels::is_prefix))]
fn prefix_ok(text: &str) -> bool
    ensures { result ≡ is_prefix text.now }
{
    text.len() <= NAME_BYTES && prefix_parts_ok(text.as_bytes())
}

fn prefix_parts_ok(text: &[u8]) -> bool
    ensures { result ≡ list_all is_prefix_part (slice_split (λ b. b == dot) text.now) }
{
    text.split(|b| *b == b'.').all(|part| prefix_part_ok(part))
}

fn prefix_part_ok(part: &[u8]) -> bool
    ensures { result ≡ is_prefix_part part.now }
{
    has_good_ends(part) && part.iter().all(|b| prefix_byte_ok(*b))
}

fn prefix_byte_ok(byte: u8) -> bool
    ensures { result ≡ is_prefix_byte byte }
{
    byte.is_ascii_alphanumeric() || byte == b'-'
}
