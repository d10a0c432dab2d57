//! Bytes of an object's metadata.
ghost use Rattle.std.specs.Prelude.{◌≡◌, ◌+◌, length, map};
ghost use Rattle.kj_value.specs.Json.{text};
ghost use Rattle.kj_value.specs.Text.{quoted};
ghost use Rattle.kube_meta.specs.View.{meta_of};
ghost use Rattle.kube_meta.specs.Document.{some_text, some_texts, some_list};
ghost use Rattle.crd_admission.specs.inner.Count.{Leaves, field_bytes, optional_bytes, meta_bytes};

use crate::values::{list, spend, text};
use kj_value::{JItems, TextField, TextList, TextMap, Txt};
use kube_meta::Meta;

/// The bytes of the fields `creationTimestamp`, `deletionTimestamp` and `generation` with two stamps of 20 bytes and a
/// generation of 19, each with the comma behind it.
const STAMPED: u64 = 119;

pub(crate) fn named(left: u64, name: &str) -> Option<u64>
    ensures { Leaves left (length (quoted name.now) + 2) result }
{
    let rest = text(left, name)?;
    spend(rest, 2)
}

// A field whose value is a text, with the comma behind it.
pub(crate) fn text_at(left: u64, name: &str, s: &str) -> Option<u64>
    ensures { Leaves left (field_bytes (name.now, text s.now)) result }
{
    let rest = named(left, name)?;
    text(rest, s)
}

fn some_text(left: u64, name: &str, given: &Txt) -> Option<u64>
    ensures { Leaves left (optional_bytes name.now (some_text given.now.bytes)) result }
{
    if given.as_str().is_empty() {
        return Some(left);
    }
    text_at(left, name, given.as_str())
}

fn texts(left: u64, name: &str, map: &TextMap) -> Option<u64>
    ensures { Leaves left (optional_bytes name.now (some_texts map.now)) result }
{
    if map.len() == 0 {
        return Some(left);
    }
    let rest = named(left, name)?;
    let mut rest = spend(rest, 1)?;
    for t in map.as_slice() {
        rest = text_field(rest, t)?;
    }
    Some(rest)
}

fn text_field(left: u64, t: &TextField) -> Option<u64>
    ensures { Leaves left (field_bytes (t.now.name.bytes, text t.now.value.bytes)) result }
{
    text_at(left, t.name.as_str(), t.value.as_str())
}

fn text_list(left: u64, name: &str, texts: &TextList) -> Option<u64>
    ensures { Leaves left (optional_bytes name.now (some_list (map text texts.now))) result }
{
    if texts.len() == 0 {
        return Some(left);
    }
    let rest = named(left, name)?;
    let mut rest = spend(rest, 1)?;
    for t in texts.as_slice() {
        rest = listed_text(rest, t)?;
    }
    Some(rest)
}

fn listed_text(left: u64, t: &Txt) -> Option<u64>
    ensures { Leaves left (1 + length (quoted t.now.bytes)) result }
{
    let rest = text(left, t.as_str())?;
    spend(rest, 1)
}

fn some_items(left: u64, name: &str, items: &JItems) -> Option<u64>
    ensures { Leaves left (optional_bytes name.now (some_list items.now)) result }
{
    if items.len() == 0 {
        return Some(left);
    }
    let rest = named(left, name)?;
    list(rest, items)
}

/// The metadata as an object, with these annotations, the greatest stamps and generation, and without number and uid.
pub(crate) fn metadata(left: u64, m: &Meta, notes: &TextMap) -> Option<u64>
    ensures { Leaves left (meta_bytes (record (meta_of m.now) { annotations = notes.now })) result }
{
    let rest = spend(left, 1 + STAMPED)?;
    let rest = texts(rest, "annotations", notes)?;
    let rest = text_list(rest, "finalizers", &m.finalizers)?;
    let rest = texts(rest, "labels", &m.labels)?;
    let rest = some_text(rest, "name", &m.name)?;
    let rest = some_text(rest, "namespace", &m.namespace)?;
    some_items(rest, "ownerReferences", &m.owners)
}
