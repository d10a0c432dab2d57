//! The calls of a client.
ghost use Rattle.std.specs.Prelude.{◌≡◌, ◌≤◌, None, Some, IfOk, IfErr};
ghost use Rattle.kj_value.specs.Json.{Json, depth, items_depth, items_of};
ghost use Rattle.kj_value.specs.Seen.{json};
ghost use Rattle.kj_value.specs.declared.reading.TheConstants.{MAX_JSON_LEVELS};
ghost use Rattle.edge_io.specs.Causes.{Rose};
ghost use Rattle.place.specs.Place.{place_of};
ghost use Rattle.wire_client.specs.Answers.{given, wanted_of};
ghost use Rattle.wire_client.specs.Calls.{lists, gets, puts, posts, request_of};
ghost use Rattle.wire_client.specs.Ends.{Came, Ended, OnLinkFault, IsPage};
ghost use Rattle.wire_client.specs.Forms.{this_one, object_fault as object_fault_of};
ghost use Rattle.wire_client.specs.Keys.{AreKeyed};
ghost use Rattle.wire_client.specs.inner.Seen.{OnShape, wanted_view};

use crate::asking::ask;
use crate::buffer::{ANSWER_LEVELS, ResponseBuffer};
use crate::draft::drafted;
use crate::end::{ListPage, WireEnd};
use crate::far::Far;
use crate::fields::name_of;
use crate::objects::{Wants, object_fault};
use crate::page_form::{shape, take_page};
use crate::targets::{at_key, in_namespace, page_target, version_text};
use kj_value::{JVal, NoMemory, write};
use kube_meta::Key;
use place::Place;
use std::alloc::Global;

/// OK (RFC 9110, section 15.3.1).
const SUCCESS: u16 = 200;

/// Created (RFC 9110, section 15.3.2).
const CREATED: u16 = 201;

fn page_request(alloc: Global, place: &Place, limit: u64, token: &str) -> Result<Vec<u8>, NoMemory>
    ensures { IfOk result (λ v. v.items ≡ request_of (place_of place.now).names (lists limit token.now)) }
{
    let target = page_target(alloc, place, limit, token)?;
    drafted(alloc, "GET", target.as_str(), "")
}

fn get_request(alloc: Global, place: &Place, key: &Key) -> Result<Vec<u8>, NoMemory>
    ensures { IfOk result (λ v. v.items ≡ request_of (place_of place.now).names (gets key.now)) }
{
    let target = at_key(alloc, place, key)?;
    drafted(alloc, "GET", target.as_str(), "")
}

fn put_request(alloc: Global, place: &Place, key: &Key, body: &JVal) -> Result<Vec<u8>, NoMemory>
    requires { depth (json body.now) ≤ MAX_JSON_LEVELS }
    ensures { IfOk result (λ v. v.items ≡ request_of (place_of place.now).names (puts key.now (json body.now))) }
{
    let target = at_key(alloc, place, key)?;
    let text = write(alloc, body)?;
    drafted(alloc, "PUT", target.as_str(), text.as_str())
}

fn post_request(alloc: Global, place: &Place, ns: &str, body: &JVal) -> Result<Vec<u8>, NoMemory>
    requires { depth (json body.now) ≤ MAX_JSON_LEVELS }
    ensures { IfOk result (λ v. v.items ≡ request_of (place_of place.now).names (posts ns.now (json body.now))) }
{
    let target = in_namespace(alloc, place, ns)?;
    let text = write(alloc, body)?;
    drafted(alloc, "POST", target.as_str(), text.as_str())
}

/// A page of the objects of all namespaces: at most `limit`, behind the token of the page before, or from the first one on where the
/// token is empty.
///
/// `LinkFault` comes only where the link's count of faults rose, and every other end but `NoMemory` only where the answer comes to it.
pub fn list_page<R: Far>(
    far: &mut R,
    alloc: Global,
    buffer: &mut ResponseBuffer,
    place: &Place,
    limit: u64,
    token: &str,
) -> Result<ListPage, WireEnd>
    ensures base { R.base far.new ≡ R.base far.old }
    ensures later { R.faults far.old ≤ R.faults far.new }
    ensures page { IfOk result (λ p. (j : Json) × Came (R.Of.server (R.base far.old))
        (record { exchanges = R.exchanges far.old; log = R.log far.old }) (record { exchanges = R.exchanges far.new; log = R.log far.new })
        (place_of place.now).names (lists limit token.now) (given j) × IsPage j p) }
    ensures keyed { IfOk result (λ p. AreKeyed p.items) }
    ensures levels { IfOk result (λ p. items_depth (items_of p.items) ≤ ANSWER_LEVELS) }
    ensures end { IfErr result (Ended (R.Of.server (R.base far.old))
        (record { exchanges = R.exchanges far.old; log = R.log far.old }) (record { exchanges = R.exchanges far.new; log = R.log far.new })
        (place_of place.now).names (lists limit token.now)) }
    ensures cause { IfErr result (OnLinkFault (Rose (R.faults far.old) (R.faults far.new))) }
{
    let version = version_text(alloc, place)?;
    let request = page_request(alloc, place, limit, token)?;
    let body = ask(far, alloc, buffer, &request, SUCCESS)?;
    take_page(alloc, version.as_str(), body)
}

// What the object of a key is to have.
fn of_key(key: &Key) -> Wants<'_>
    ensures { wanted_view result ≡ this_one key.now }
{
    Wants {
        ns: Some(key.ns()),
        name: Some(key.name()),
    }
}

// The object, where it has its form.
fn checked(alloc: Global, version: &str, wants: &Wants<'_>, object: JVal) -> Result<JVal, WireEnd>
    ensures same { IfOk result (λ v. json v ≡ json object) }
    ensures form { IfOk result (λ _. object_fault_of version.now (wanted_view wants.now) (json object) ≡ None) }
    ensures shape { IfErr result (OnShape (λ p. object_fault_of version.now (wanted_view wants.now) (json object) ≡ Some p)) }
{
    match object_fault(version, wants, &object) {
        Some(path) => Err(shape(alloc, path)),
        None => Ok(object),
    }
}

/// The object of that key. The ends come as at `list_page`.
pub fn get_one<R: Far>(
    far: &mut R,
    alloc: Global,
    buffer: &mut ResponseBuffer,
    place: &Place,
    key: &Key,
) -> Result<JVal, WireEnd>
    ensures base { R.base far.new ≡ R.base far.old }
    ensures later { R.faults far.old ≤ R.faults far.new }
    ensures given { IfOk result (λ v. Came (R.Of.server (R.base far.old))
        (record { exchanges = R.exchanges far.old; log = R.log far.old }) (record { exchanges = R.exchanges far.new; log = R.log far.new })
        (place_of place.now).names (gets key.now) (given (json v))) }
    ensures levels { IfOk result (λ v. depth (json v) ≤ ANSWER_LEVELS) }
    ensures end { IfErr result (Ended (R.Of.server (R.base far.old))
        (record { exchanges = R.exchanges far.old; log = R.log far.old }) (record { exchanges = R.exchanges far.new; log = R.log far.new })
        (place_of place.now).names (gets key.now)) }
    ensures cause { IfErr result (OnLinkFault (Rose (R.faults far.old) (R.faults far.new))) }
{
    let version = version_text(alloc, place)?;
    let request = get_request(alloc, place, key)?;
    let object = ask(far, alloc, buffer, &request, SUCCESS)?;
    checked(alloc, version.as_str(), &of_key(key), object)
}

/// Puts the body, as its compact text, in the place of the object of that key, and answers what then stands there. The ends come as at
/// `list_page`.
pub fn put_one<R: Far>(
    far: &mut R,
    alloc: Global,
    buffer: &mut ResponseBuffer,
    place: &Place,
    key: &Key,
    body: &JVal,
) -> Result<JVal, WireEnd>
    requires { depth (json body.now) ≤ MAX_JSON_LEVELS }
    ensures base { R.base far.new ≡ R.base far.old }
    ensures later { R.faults far.old ≤ R.faults far.new }
    ensures given { IfOk result (λ v. Came (R.Of.server (R.base far.old))
        (record { exchanges = R.exchanges far.old; log = R.log far.old }) (record { exchanges = R.exchanges far.new; log = R.log far.new })
        (place_of place.now).names (puts key.now (json body.now)) (given (json v))) }
    ensures levels { IfOk result (λ v. depth (json v) ≤ ANSWER_LEVELS) }
    ensures end { IfErr result (Ended (R.Of.server (R.base far.old))
        (record { exchanges = R.exchanges far.old; log = R.log far.old }) (record { exchanges = R.exchanges far.new; log = R.log far.new })
        (place_of place.now).names (puts key.now (json body.now))) }
    ensures cause { IfErr result (OnLinkFault (Rose (R.faults far.old) (R.faults far.new))) }
{
    let version = version_text(alloc, place)?;
    let request = put_request(alloc, place, key, body)?;
    let object = ask(far, alloc, buffer, &request, SUCCESS)?;
    checked(alloc, version.as_str(), &of_key(key), object)
}

/// Posts the body, as its compact text, as a new object of that namespace, and answers what then stands there: of the body's name,
/// where it tells one. The ends come as at `list_page`.
pub fn post_one<R: Far>(
    far: &mut R,
    alloc: Global,
    buffer: &mut ResponseBuffer,
    place: &Place,
    ns: &str,
    body: &JVal,
) -> Result<JVal, WireEnd>
    requires { depth (json body.now) ≤ MAX_JSON_LEVELS }
    ensures base { R.base far.new ≡ R.base far.old }
    ensures later { R.faults far.old ≤ R.faults far.new }
    ensures given { IfOk result (λ v. Came (R.Of.server (R.base far.old))
        (record { exchanges = R.exchanges far.old; log = R.log far.old }) (record { exchanges = R.exchanges far.new; log = R.log far.new })
        (place_of place.now).names (posts ns.now (json body.now)) (given (json v))) }
    ensures levels { IfOk result (λ v. depth (json v) ≤ ANSWER_LEVELS) }
    ensures end { IfErr result (Ended (R.Of.server (R.base far.old))
        (record { exchanges = R.exchanges far.old; log = R.log far.old }) (record { exchanges = R.exchanges far.new; log = R.log far.new })
        (place_of place.now).names (posts ns.now (json body.now))) }
    ensures cause { IfErr result (OnLinkFault (Rose (R.faults far.old) (R.faults far.new))) }
{
    let version = version_text(alloc, place)?;
    let request = post_request(alloc, place, ns, body)?;
    let object = ask(far, alloc, buffer, &request, CREATED)?;
    let wants = Wants {
        ns: Some(ns),
        name: name_of(body),
    };
    checked(alloc, version.as_str(), &wants, object)
}
