//! From the fields of a document to its object, its metadata kept aside.
ghost use Rattle.std.specs.Prelude.{◌≡◌, None, Some, IfOk, IfErr, codes};
ghost use Rattle.kj_value.specs.Fields.{field, without_field};
ghost use Rattle.kj_value.specs.Json.{object, members_of};
ghost use Rattle.kj_value.specs.Seen.{json};
ghost use Rattle.kube_meta.specs.View.{meta_of, object_of};
ghost use Rattle.object_reading.specs.Fields.{given, object_at};
ghost use Rattle.object_reading.specs.Parts.{text_or_empty};
ghost use Rattle.object_reading.specs.Refusal.{first_holding};
ghost use Rattle.api_calls.specs.Versions.{Refused};
ghost use Rattle.crd_meaning.specs.Request.{meta_fields};
ghost use Rattle.crd_meaning.specs.Converted.{metadata_in};
ghost use Rattle.crd_meaning.specs.Document.{early, IsGiven, judged_metadata};
ghost use Rattle.crd_admission.specs.inner.Documents.{numberless_meta, IsBadMetadata};

use crate::document_faults::broken;
use crate::document_metadata::{name_in, read_metadata, text_or_empty};
use crate::judging::judge;
use api_calls::AdmitFault;
use crd_loading::LoadedVersions;
use kj_value::{JFields, JVal, copy};
use kube_meta::{Meta, Object};
use std::alloc::Global;

/// The object of a document, its version, and the document's own value of `metadata`: null where there is none.
#[derive(Drop)]
pub(crate) struct Reading {
    pub(crate) version: u8,
    pub(crate) object: Object,
    pub(crate) metadata: JVal,
}

/// What a document of these fields submits, without its number, or the first fault of the table.
pub(crate) fn taken(
    alloc: Global,
    set: &LoadedVersions,
    fields: JFields,
) -> Result<Reading, AdmitFault>
    ensures given { IfOk result (λ t. IsGiven set.now (object (members_of fields)) t.version (object_of t.object)) }
    ensures metadata { IfOk result (λ t. object_at (Some (json t.metadata)) ≡ metadata_in (object (members_of fields))) }
    ensures refused { IfErr result (Refused (λ f. early set.now (object (members_of fields)) ≡ Some f) ⊥) }
{
    let version = judge(alloc, set, &fields)?;
    let mut rest = fields;
    let metadata = take_metadata(&mut rest);
    let meta = submitted(alloc, &metadata)?;
    let object = object_with(alloc, meta, rest);
    Ok(Reading {
        version,
        object,
        metadata,
    })
}

// Takes the metadata out of a document.
fn take_metadata(fields: &mut JFields) -> JVal
    ensures given { given (Some (json result)) ≡ given (field (codes "metadata") fields.old) }
    ensures fields { object_at (Some (json result)) ≡ meta_fields fields.old }
    ensures rest { fields.new ≡ without_field (codes "metadata") fields.old }
{
    match fields.remove("metadata") {
        Some(value) => value,
        None => JVal::Null,
    }
}

// The metadata that a document submits. They are read of a copy, since the document's own stay as they are.
fn submitted(alloc: Global, metadata: &JVal) -> Result<Meta, AdmitFault>
    ensures nothing { IfOk result (λ _. first_holding (judged_metadata (given (Some (json metadata.now)))) ≡ None) }
    ensures meta { IfOk result (λ m. meta_of m ≡ numberless_meta (object_at (Some (json metadata.now)))) }
    ensures refused { IfErr result (Refused (IsBadMetadata (json metadata.now)) ⊥) }
{
    match read_metadata(alloc, copy(alloc, metadata)?) {
        Ok(meta) => Ok(meta),
        Err(fault) => {
            let name = name_in(alloc, Some(metadata))?;
            Err(broken(alloc, name, fault)?)
        }
    }
}

// The object of these metadata, whose other parts are moved out of a document.
fn object_with(alloc: Global, meta: Meta, fields: JFields) -> Object
    ensures { object_of result ≡ record {
      api_version = text_or_empty (field (codes "apiVersion") fields);
      kind = text_or_empty (field (codes "kind") fields);
      meta = meta_of meta;
      body = without_field (codes "apiVersion") (without_field (codes "kind") fields);
    } }
{
    let mut body = fields;
    let kind = text_or_empty(alloc, body.remove("kind"));
    let api_version = text_or_empty(alloc, body.remove("apiVersion"));
    Object {
        api_version,
        kind,
        meta,
        body,
    }
}
