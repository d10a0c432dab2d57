//! A question to someone else: one exchange over a link.
ghost use Rattle.std.specs.Prelude.{◌≡◌, ◌≢◌, ◌≤◌, ◌++◌, [], None, IfOk, IfErr, OnOk};
ghost use Rattle.kj_value.specs.Json.{items_depth, items_of};
ghost use Rattle.kj_value.specs.Text.{text_of, items_text, quoted};
ghost use Rattle.edge_io.specs.Causes.{Rose};
ghost use Rattle.api_calls.specs.declared.versions.TheConstants.{OBJECT_LEVELS};
ghost use Rattle.review_forms.specs.Form.{no_object};
ghost use Rattle.review_forms.specs.Request.{request_document, objects_path};
ghost use Rattle.review_forms.specs.Response.{IsTakenResponse, IsRefused};
ghost use Rattle.review_forms.specs.Faults.{WasAnswered, AskFailed};
ghost use Rattle.review_forms.specs.Spelling.{request_front, request_middle, request_end, review_end};

use crate::fault::{AskFault, ResponseFault};
use crate::taking::take_response;
use crate::texts::{Page, comma_before, quoted};
use edge_io::{Link, LinkFault};
use kj_value::{JItems, NoMemory, Txt, write};
use std::alloc::Global;

/// The objects that someone else converts: one exchange, of the compact text of a review of a request with that uid, the wanted version,
/// as GROUP/VERSION, and the objects in their order, of whose answer `take_response` takes the objects.
///
/// `LinkFault` comes only where the link's count of faults rose, and `Response` exactly where the answer is refused. `NoMemory` may come
/// before the exchange or behind it.
pub fn ask<L: Link>(
    alloc: Global,
    link: &mut L,
    uid: &str,
    desired: &str,
    objects: &JItems,
) -> Result<JItems, AskFault>
    requires named { uid.now ≢ [] }
    requires all { no_object objects_path objects.now ≡ None }
    requires levels { items_depth (items_of objects.now) ≤ OBJECT_LEVELS }
    ensures later { L.faults link.old ≤ L.faults link.new }
    ensures taken { IfOk result (λ ks. WasAnswered (L.exchanges link.old) (L.exchanges link.new)
        (text_of (request_document (record { uid = uid.now; desired = desired.now; objects = objects.now })))
        (λ bytes. IsTakenResponse bytes (record { uid = uid.now; desired = desired.now; sent = objects.now }) ks)) }
    ensures failed { IfErr result (AskFailed (L.exchanges link.old) (L.exchanges link.new)
        (text_of (request_document (record { uid = uid.now; desired = desired.now; objects = objects.now })))
        (Rose (L.faults link.old) (L.faults link.new))
        (λ bytes. IsRefused bytes (record { uid = uid.now; desired = desired.now; sent = objects.now }))) }
{
    let request = request_text(alloc, uid, desired, objects)?;
    let answer = match link.exchange(alloc, request.as_str().as_bytes()) {
        Ok(answer) => answer,
        Err(LinkFault::Failed) => return Err(AskFault::LinkFault),
        Err(LinkFault::NoMemory) => return Err(AskFault::NoMemory),
    };
    match take_response(alloc, &answer, uid, desired, objects) {
        Ok(taken) => Ok(taken),
        Err(ResponseFault::NoMemory) => Err(AskFault::NoMemory),
        Err(fault) => Err(AskFault::Response(fault)),
    }
}

const REQUEST_FRONT: &str =
    "{\"apiVersion\":\"apiextensions.k8s.io/v1\",\"kind\":\"ConversionReview\",\"request\":{\"desiredAPIVersion\":";

const REQUEST_MIDDLE: &str = ",\"objects\":[";

const REQUEST_END: &str = "],\"uid\":";

const REVIEW_END: &str = "}}";

/// The compact text of a review of a request with that uid, the wanted version, as GROUP/VERSION, and the objects in their order.
pub fn request_text(
    alloc: Global,
    uid: &str,
    desired: &str,
    objects: &JItems,
) -> Result<Txt, NoMemory>
    requires { items_depth (items_of objects.now) ≤ OBJECT_LEVELS }
    ensures { IfOk result (λ t. t.bytes ≡ text_of (request_document (record { uid = uid.now; desired = desired.now; objects = objects.now }))) }
{
    let mut page = Page::new(alloc, 0, usize::MAX)?;
    page.add(REQUEST_FRONT)?;
    page.add(quoted(alloc, Txt::of(alloc, desired)?)?.as_str())?;
    page.add(REQUEST_MIDDLE)?;
    add_items(alloc, objects, &mut page)?;
    page.add(REQUEST_END)?;
    page.add(quoted(alloc, Txt::of(alloc, uid)?)?.as_str())?;
    page.add(REVIEW_END)?;
    Ok(page.into_txt())
}

// The items, with commas between them.
fn add_items(alloc: Global, items: &JItems, page: &mut Page) -> Result<(), NoMemory>
    requires { items_depth (items_of items.now) ≤ OBJECT_LEVELS }
    ensures { OnOk result (page.new ≡ record page.old { text = page.old.text ++ items_text (items_of items.now) }) }
{
    let values = items.as_slice();
    for i in 0..values.len() {
        let text = write(alloc, &values[i])?;
        page.add(comma_before(i))?;
        page.add(text.as_str())?;
    }
    Ok(())
}
