//! Posting a line.
ghost use Rattle.std.specs.Prelude.{◌≡◌, ◌≤◌, ◌↔◌, IsTrue, ℕ, List, codes, IfOk, IfErr, string_bytes};
ghost use Rattle.std.specs.Str.{bytes_eq};
ghost use Rattle.kj_value.specs.Fields.{field};
ghost use Rattle.kj_value.specs.Json.{Json, depth};
ghost use Rattle.kj_value.specs.Seen.{json};
ghost use Rattle.edge_io.specs.Causes.{Rose};
ghost use Rattle.edge_io.specs.Exchanges.{Exchange};
ghost use Rattle.place.specs.Place.{place_of};
ghost use Rattle.wire_client.specs.Far.{Made};
ghost use Rattle.wire_client.specs.Forms.{api_version, fields_of, has_version, key_in};
ghost use Rattle.record_dump.specs.Restores.{is_object_of, Says, most_levels};
ghost use Rattle.record_dump.specs.inner.Posted.{IsRead, PostEnds, PostMade, LineMade, OnLink};

use kj_value::{JFields, JVal, JsonFault, NoMemory, read};
use kube_meta::{name_ok, namespace_ok};
use std::alloc::Global;
use wire_client::{Far, Place, ResponseBuffer, WireEnd, key_texts, post_one};

/// The most levels of lists and objects of a line's value.
pub const MOST_LEVELS: u32 = 64;

/// Conflict (RFC 9110, section 15.5.10): an object of that name is there.
const CONFLICT: u16 = 409;

/// Not Found (RFC 9110, section 15.5.5).
const NOT_FOUND: u16 = 404;

/// What became of a line that was posted.
#[derive(Clone, Copy, Drop)]
pub(crate) enum Posted {
    Created,
    Present,
}

/// Why a line was neither created nor there.
#[derive(Clone, Copy, Drop)]
pub(crate) enum Unposted {
    /// It says no object of the place.
    Bad,
    Link,
    /// An answer of this code.
    Answer(u16),
    NoMemory,
}

// GROUP/VERSION.
#[tactic(auto, unfolding(wire_client::specs::Forms::api_version))]
fn version_text(alloc: Global, place: &Place) -> Result<String, NoMemory>
    ensures { IfOk result (λ s. string_bytes s ≡ api_version (place_of place.now).names) }
{
    let group = place.group.as_str();
    let version = place.version.as_str();
    Ok(format!(in alloc; "{group}/{version}")?)
}

// Whether the fields are those of an object of that version.
fn has_version_text(fields: &JFields, version: &str) -> bool
    ensures { result ≡ has_version version.now fields.now }
{
    match fields.get("apiVersion") {
        Some(JVal::Text(text)) => text.as_str() == version,
        _ => false,
    }
}

// Whether the value is an object of that version.
fn is_of_version(version: &str, value: &JVal) -> bool
    ensures { result ≡ has_version version.now (fields_of (json value.now)) }
{
    match value.as_object() {
        Some(fields) => has_version_text(fields, version),
        None => false,
    }
}

// Whether it has a namespace and a name, too.
fn is_object(version: &str, value: &JVal) -> bool
    ensures { result ≡ is_object_of version.now (json value.now) }
{
    let key = key_texts(value);
    is_of_version(version, value) && namespace_ok(key.ns) && name_ok(key.name)
}

// The object that a line says.
fn read_object(alloc: Global, place: &Place, line: &[u8]) -> Result<JVal, Unposted>
    ensures says { IsRead (place_of place.now).names line.now result }
    ensures low { IfOk result (λ v. depth (json v) ≤ most_levels) }
{
    let version = match version_text(alloc, place) {
        Ok(version) => version,
        Err(NoMemory) => return Err(Unposted::NoMemory),
    };
    match read(alloc, line, MOST_LEVELS) {
        Ok(value) => {
            if is_object(version.as_str(), &value) {
                return Ok(value);
            }
            Err(Unposted::Bad)
        }
        Err(JsonFault::NotJson) => Err(Unposted::Bad),
        Err(JsonFault::TooDeep) => Err(Unposted::Bad),
        Err(JsonFault::NotWhole) => Err(Unposted::Bad),
        Err(JsonFault::NoMemory) => Err(Unposted::NoMemory),
    }
}

fn post_end(end: WireEnd) -> Result<Posted, Unposted>
    ensures { PostEnds end result }
{
    match end {
        WireEnd::LinkFault => Err(Unposted::Link),
        WireEnd::TooLong => Err(Unposted::Answer(0)),
        WireEnd::Gone => Err(Unposted::Answer(NOT_FOUND)),
        WireEnd::Code { code } => {
            if code == CONFLICT {
                return Ok(Posted::Present);
            }
            Err(Unposted::Answer(code))
        }
        WireEnd::Shape { path: _ } => Err(Unposted::Answer(0)),
        WireEnd::NoMemory => Err(Unposted::NoMemory),
    }
}

// Posts an object to its own namespace.
fn post_object<R: Far>(
    far: &mut R,
    alloc: Global,
    buffer: &mut ResponseBuffer,
    place: &Place,
    object: &JVal,
) -> Result<Posted, Unposted>
    requires { depth (json object.now) ≤ most_levels }
    ensures base { R.base far.new ≡ R.base far.old }
    ensures later { R.faults far.old ≤ R.faults far.new }
    ensures made { PostMade (R.Of.server (R.base far.old))
        (record { exchanges = R.exchanges far.old; log = R.log far.old }) (record { exchanges = R.exchanges far.new; log = R.log far.new })
        (place_of place.now).names (json object.now) result }
    ensures cause { IfErr result (OnLink (Rose (R.faults far.old) (R.faults far.new))) }
{
    match post_one(far, alloc, buffer, place, key_texts(object).ns, object) {
        Ok(_created) => Ok(Posted::Created),
        Err(end) => post_end(end),
    }
}

/// Posts the object that a line says, where it says one.
pub(crate) fn post_line<R: Far>(
    far: &mut R,
    alloc: Global,
    buffer: &mut ResponseBuffer,
    place: &Place,
    line: &[u8],
) -> Result<Posted, Unposted>
    ensures base { R.base far.new ≡ R.base far.old }
    ensures later { R.faults far.old ≤ R.faults far.new }
    ensures made { LineMade (R.Of.server (R.base far.old))
        (record { exchanges = R.exchanges far.old; log = R.log far.old }) (record { exchanges = R.exchanges far.new; log = R.log far.new })
        (place_of place.now).names line.now result }
    ensures cause { IfErr result (OnLink (Rose (R.faults far.old) (R.faults far.new))) }
{
    match read_object(alloc, place, line) {
        Ok(object) => post_object(far, alloc, buffer, place, &object),
        Err(unposted) => Err(unposted),
    }
}
