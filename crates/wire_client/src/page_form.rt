//! The form of a page.
ghost use Rattle.std.specs.Prelude.{◌≡◌, ◌≤◌, None, Some, map, IfOk, IfErr, MatchResult, string_bytes};
ghost use Rattle.kj_value.specs.Json.{depth, items_depth, items_of};
ghost use Rattle.kj_value.specs.Seen.{json};
ghost use Rattle.wire_client.specs.Ends.{IsPage};
ghost use Rattle.wire_client.specs.Forms.{fields_of, page_fault, page_fields_fault, items_fault as items_fault_of, item_path as item_path_of};
ghost use Rattle.wire_client.specs.Keys.{AreKeyed};
ghost use Rattle.wire_client.specs.inner.Seen.{HasHead, OnShape};

use crate::end::{ListPage, WireEnd};
use crate::fields::{has_version, items_in, number_in, take_items, token_in};
use crate::objects::{Wants, object_fault};
use kj_value::{JFields, JVal, NoMemory, Txt};
use std::alloc::Global;

/// What a page tells beside its items.
#[derive(Drop)]
pub(crate) struct PageHead {
    pub token: Txt,
    pub rv: u64,
}

/// Another form begins at the path.
pub(crate) fn shape(alloc: Global, path: &str) -> WireEnd
    ensures { OnShape (λ p. p ≡ path.now) result }
{
    match Txt::of(alloc, path) {
        Ok(path) => WireEnd::Shape { path },
        Err(NoMemory) => WireEnd::NoMemory,
    }
}

#[tactic(auto, unfolding(crate::specs::Forms::item_path))]
fn item_path(alloc: Global, i: usize, path: &str) -> Result<String, NoMemory>
    ensures { IfOk result (λ s. string_bytes s ≡ item_path_of i path.now) }
{
    let mut text = format!(in alloc; "items[{i}]")?;
    if path.is_empty() {
        return Ok(text);
    }
    text.push_str(".")?;
    text.push_str(path)?;
    Ok(text)
}

fn item_shape(alloc: Global, i: usize, path: &str) -> WireEnd
    ensures { OnShape (λ p. p ≡ item_path_of i path.now) result }
{
    match item_path(alloc, i, path) {
        Ok(path) => WireEnd::Shape {
            path: Txt::of_string(path),
        },
        Err(NoMemory) => WireEnd::NoMemory,
    }
}

// Nothing, where all items have their form.
fn judge_items(alloc: Global, version: &str, items: &[JVal]) -> Result<(), WireEnd>
    ensures { MatchResult result
        (λ _. (items_fault_of version.now 0 (map json items.now) ≡ None) × AreKeyed (map json items.now))
        (OnShape (λ p. items_fault_of version.now 0 (map json items.now) ≡ Some p)) }
{
    let any = Wants {
        ns: None,
        name: None,
    };
    for i in 0..items.len() {
        if let Some(path) = object_fault(version, &any, &items[i]) {
            return Err(item_shape(alloc, i, path));
        }
    }
    Ok(())
}

// What the page tells beside its items, where it has its form.
fn judge_page(alloc: Global, version: &str, fields: &JFields) -> Result<PageHead, WireEnd>
    ensures head { IfOk result (λ h. HasHead version.now fields.now h) }
    ensures shape { IfErr result (OnShape (λ p. page_fields_fault version.now fields.now ≡ Some p)) }
{
    if !has_version(fields, version) {
        return Err(shape(alloc, "apiVersion"));
    }
    let Some(items) = items_in(fields) else {
        return Err(shape(alloc, "items"));
    };
    judge_items(alloc, version, items.as_slice())?;
    let Some(token) = token_in(fields) else {
        return Err(shape(alloc, "metadata.continue"));
    };
    let Some(rv) = number_in(fields) else {
        return Err(shape(alloc, "metadata.resourceVersion"));
    };
    let token = Txt::of(alloc, token)?;
    Ok(PageHead { token, rv })
}

/// The page that a body is, or the path of the first place that has another form.
pub(crate) fn take_page(alloc: Global, version: &str, body: JVal) -> Result<ListPage, WireEnd>
    ensures form { IfOk result (λ _. page_fault version.now (json body) ≡ None) }
    ensures page { IfOk result (IsPage (json body)) }
    ensures keyed { IfOk result (λ p. AreKeyed p.items) }
    ensures levels { IfOk result (λ p. items_depth (items_of p.items) ≤ depth (json body)) }
    ensures shape { IfErr result (OnShape (λ p. page_fault version.now (json body) ≡ Some p)) }
{
    let Some(fields) = body.into_object() else {
        return Err(shape(alloc, ""));
    };
    let head = judge_page(alloc, version, &fields)?;
    let Some(items) = take_items(fields) else {
        unreachable!()
    };
    let PageHead { token, rv } = head;
    Ok(ListPage { items, token, rv })
}
