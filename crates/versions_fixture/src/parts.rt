//! An object by its parts.
ghost use Rattle.std.specs.Prelude.{◌≡◌, ◌≤◌, ◌+◌, ◌/◌, max, IfOk, Some, option_map};
ghost use Rattle.kj_value.specs.Json.{depth};
ghost use Rattle.kj_value.specs.Seen.{json};
ghost use Rattle.kube_meta.specs.Document.{document};
ghost use Rattle.kube_meta.specs.View.{meta_of, object_of};
ghost use Rattle.api_calls.specs.Meaning.{chunks, measure};
ghost use Rattle.versions_fixture.specs.Parts.{api_version, body_at, field_name, meta_at, object_at, parts_of, version_at};
ghost use Rattle.versions_fixture.specs.Definition.{weight_of};

use kj_value::{JFields, JItems, JVal, NoMemory, Stamp, TextList, TextMap, Txt, write};
use kube_meta::{Meta, Object, write_object};
use std::alloc::Global;

/// The kind of the definition's objects.
pub const KIND: &str = "CronTab";

/// A version of the definition.
#[derive(Clone, Copy, PartialEq, Eq, Drop)]
pub enum Version {
    V1,
    V1beta1,
}

/// What an object may have.
#[derive(Clone, Copy, Drop)]
pub struct Parts<'a> {
    pub name: &'a str,
    /// Empty stands for none.
    pub namespace: &'a str,
    pub created: Option<Stamp>,
    pub deleted: Option<Stamp>,
    /// 0 stands for none.
    pub generation: i64,
    /// The value of the one property.
    pub value: Option<&'a str>,
}

impl Version {
    /// The version at a place: 0 is the hub.
    pub fn at(v: u8) -> Version
        ensures { result ≡ version_at v }
    {
        if v == 0 {
            Version::V1
        } else {
            Version::V1beta1
        }
    }

    /// Group and version, as an object's `apiVersion` has them.
    pub fn api_version(self) -> &'static str
        ensures { result.now ≡ api_version self }
    {
        match self {
            Version::V1 => "example.com/v1",
            Version::V1beta1 => "example.com/v1beta1",
        }
    }

    /// The name of the one property.
    pub fn field(self) -> &'static str
        ensures { result.now ≡ field_name self }
    {
        match self {
            Version::V1 => "host",
            Version::V1beta1 => "address",
        }
    }
}

fn body(alloc: Global, version: Version, value: Option<&str>) -> Result<JFields, NoMemory>
    ensures { IfOk result (λ es. es ≡ body_at version (option_map (λ s. s.now) value.entry)) }
{
    let mut body = JFields::new(alloc);
    match value {
        Some(value) => {
            let name = Txt::of(alloc, version.field())?;
            body.set(name, JVal::Text(Txt::of(alloc, value)?))?;
            Ok(body)
        }
        None => Ok(body),
    }
}

fn metadata(alloc: Global, p: &Parts<'_>) -> Result<Meta, NoMemory>
    ensures { IfOk result (λ m. meta_of m ≡ meta_at (parts_of p.now)) }
{
    Ok(Meta {
        name: Txt::of(alloc, p.name)?,
        namespace: Txt::of(alloc, p.namespace)?,
        labels: TextMap::new(alloc),
        annotations: TextMap::new(alloc),
        finalizers: TextList::new(alloc),
        owners: JItems::new(alloc),
        created: p.created,
        deleted: p.deleted,
        generation: p.generation,
        resource_version: None,
        uid: None,
    })
}

/// The object of these parts at a version.
pub fn made(alloc: Global, version: Version, p: &Parts<'_>) -> Result<Object, NoMemory>
    ensures { IfOk result (λ o. object_of o ≡ object_at version (parts_of p.now)) }
{
    Ok(Object {
        api_version: Txt::of(alloc, version.api_version())?,
        kind: Txt::of(alloc, KIND)?,
        meta: metadata(alloc, p)?,
        body: body(alloc, version, p.value)?,
    })
}

/// The document of these parts at a version.
pub fn written(alloc: Global, version: Version, p: &Parts<'_>) -> Result<JVal, NoMemory>
    ensures value { IfOk result (λ v. json v ≡ document (object_at version (parts_of p.now))) }
    ensures levels { IfOk result (λ v. depth (json v) ≤ 64) }
{
    let object = made(alloc, version, p)?;
    write_object(alloc, object)
}

// The chunks of the measure at a version.
fn chunks_at(alloc: Global, version: Version, p: &Parts<'_>) -> Result<u64, NoMemory>
    ensures { IfOk result (λ n. n ≡ chunks (measure (object_at version (parts_of p.now)))) }
{
    let longest = Stamp { text: [b'0'; 20] };
    let widest = Parts {
        name: p.name,
        namespace: p.namespace,
        created: Some(longest),
        deleted: Some(longest),
        generation: i64::MAX,
        value: p.value,
    };
    let document = written(alloc, version, &widest)?;
    let text = write(alloc, &document)?;
    Ok(chunks_of(text.len()))
}

fn chunks_of(bytes: usize) -> u64
    ensures { result ≡ chunks bytes }
{
    let full = (bytes / 256) as u64;
    if bytes % 256 == 0 { full } else { full + 1 }
}

/// The greatest number of chunks that the measure takes at any version.
pub fn weight(alloc: Global, p: &Parts<'_>) -> Result<u64, NoMemory>
    ensures { IfOk result (λ w. w ≡ weight_of (parts_of p.now)) }
{
    let hub = chunks_at(alloc, Version::V1, p)?;
    let stored = chunks_at(alloc, Version::V1beta1, p)?;
    Ok(hub.max(stored))
}
