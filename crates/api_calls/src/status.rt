//! The status texts of refusals.
ghost use Rattle.std.specs.Prelude.{◌≡◌, ◌==◌, ℕ, List, pos, codes, decimal, option_map, IfOk, OnOk};
ghost use Rattle.std.specs.List.{before_first, after_first};
ghost use Rattle.kj_value.specs.Json.{text, whole};
ghost use Rattle.kj_value.specs.Seen.{json};
ghost use Rattle.kj_value.specs.Text.{text_of};
ghost use Rattle.kj_value.specs.Rule.{rule_word};
ghost use Rattle.kj_value.specs.Fields.{with_field};
ghost use Rattle.kube_meta.specs.Names.{dot};
ghost use Rattle.api_calls.specs.Refusal.{refusal_of, no_memory};
ghost use Rattle.api_calls.specs.Status.{status, code_of_refusal, reason_of, details, details_of, cause_list, status_of, with_given};

use crate::message::message_of;
use crate::refusal::Refusal;
use itoa::Buffer;
use kj_value::{JFields, JItems, JVal, NoMemory, Txt, write};
use std::alloc::Global;

/// The status code of a refusal, by RFC 9110. It takes no memory.
pub fn code_of(refusal: &Refusal) -> u16
    ensures { result ≡ code_of_refusal (refusal_of refusal.now) }
{
    match refusal {
        Refusal::NotFound { name: _ } => 404,
        Refusal::NoResource => 404,
        Refusal::AlreadyExists { name: _ } => 409,
        Refusal::Conflict { name: _, newer: _ } => 409,
        Refusal::Invalid {
            subject: _,
            cause: _,
        } => 422,
        Refusal::BadRequest { why: _ } => 400,
        Refusal::Expired { floor: _ } => 410,
        Refusal::Full { room: _ } => 507,
        Refusal::MigrationRunning { name: _ } => 409,
        Refusal::StillStored { version: _, key: _ } => 409,
        Refusal::Converter => 502,
        Refusal::NoMemory => 503,
    }
}

/// The compact text of the Status that tells the refusal, of the resource with this plural name in this group.
pub fn status_text(
    alloc: Global,
    refusal: &Refusal,
    plural: &str,
    group: &str,
) -> Result<Txt, NoMemory>
    ensures { IfOk result (λ t. t.bytes
        ≡ text_of (status_of (refusal_of refusal.now) plural.now group.now)) }
{
    let message = message_of(alloc, refusal, plural, group)?;
    let details = details_of(alloc, refusal, plural, group)?;
    let code = code_of(refusal);
    let status = status_of(alloc, code, details, message, reason_of(refusal))?;
    write(alloc, &status)
}

/// The status text of want of memory, which depends on no resource. It takes no memory.
pub fn no_memory_text() -> &'static str
    ensures { (plural group : List ℕ) → result.now ≡ text_of (status_of no_memory plural group) }
{
    "{\"apiVersion\":\"v1\",\"code\":503,\"kind\":\"Status\",\"message\":\"out of memory\",\"metadata\":{},\"reason\":\"ServiceUnavailable\",\"status\":\"Failure\"}"
}

#[tactic(auto, unfolding(crate::specs::Status::reason_of))]
fn reason_of(refusal: &Refusal) -> &'static str
    ensures { result.now ≡ reason_of (refusal_of refusal.now) }
{
    match refusal {
        Refusal::NotFound { name: _ } => "NotFound",
        Refusal::NoResource => "NotFound",
        Refusal::AlreadyExists { name: _ } => "AlreadyExists",
        Refusal::Conflict { name: _, newer: _ } => "Conflict",
        Refusal::Invalid {
            subject: _,
            cause: _,
        } => "Invalid",
        Refusal::BadRequest { why: _ } => "BadRequest",
        Refusal::Expired { floor: _ } => "Expired",
        Refusal::Full { room: _ } => "InsufficientStorage",
        Refusal::MigrationRunning { name: _ } => "MigrationRunning",
        Refusal::StillStored { version: _, key: _ } => "StillStored",
        Refusal::Converter => "ConverterFailed",
        Refusal::NoMemory => "ServiceUnavailable",
    }
}

fn status_of(
    alloc: Global,
    code: u16,
    details: Option<JVal>,
    message: Txt,
    reason: &str,
) -> Result<JVal, NoMemory>
    ensures { IfOk result (λ v. json v
        ≡ status code (option_map json details) message.bytes reason.now) }
{
    let mut fields = JFields::new(alloc);
    put_text(alloc, &mut fields, "apiVersion", "v1")?;
    put_code(alloc, &mut fields, code)?;
    put_given(alloc, &mut fields, "details", details)?;
    put_text(alloc, &mut fields, "kind", "Status")?;
    put(alloc, &mut fields, "message", JVal::Text(message))?;
    put(
        alloc,
        &mut fields,
        "metadata",
        JVal::Obj(JFields::new(alloc)),
    )?;
    put_text(alloc, &mut fields, "reason", reason)?;
    put_text(alloc, &mut fields, "status", "Failure")?;
    Ok(JVal::Obj(fields))
}

fn details_of(
    alloc: Global,
    refusal: &Refusal,
    plural: &str,
    group: &str,
) -> Result<Option<JVal>, NoMemory>
    ensures { IfOk result (λ v. option_map json v
        ≡ details_of (refusal_of refusal.now) plural.now group.now) }
{
    match refusal {
        Refusal::NotFound { name } => some_details(alloc, None, group, plural, name.as_str()),
        Refusal::AlreadyExists { name } => some_details(alloc, None, group, plural, name.as_str()),
        Refusal::Conflict { name, newer } => {
            let causes = moved(alloc, *newer)?;
            some_details(alloc, Some(causes), group, plural, name.as_str())
        }
        Refusal::Invalid { subject, cause } => {
            let field = cause.field.as_str();
            let causes = cause_list(alloc, field, cause.rule.word(), "FieldValueInvalid")?;
            let (kind, group) = kind_and_group(subject.kind_group.as_str());
            some_details(alloc, Some(causes), group, kind, subject.name.as_str())
        }
        Refusal::NoResource => Ok(None),
        Refusal::BadRequest { why: _ } => Ok(None),
        Refusal::Expired { floor: _ } => Ok(None),
        Refusal::Full { room: _ } => Ok(None),
        Refusal::MigrationRunning { name: _ } => Ok(None),
        Refusal::StillStored { version: _, key: _ } => Ok(None),
        Refusal::Converter => Ok(None),
        Refusal::NoMemory => Ok(None),
    }
}

fn some_details(
    alloc: Global,
    causes: Option<JVal>,
    group: &str,
    kind: &str,
    name: &str,
) -> Result<Option<JVal>, NoMemory>
    ensures { IfOk result (λ v. option_map json v
        ≡ Some (details (option_map json causes) group.now kind.now name.now)) }
{
    let mut fields = JFields::new(alloc);
    put_given(alloc, &mut fields, "causes", causes)?;
    put_text(alloc, &mut fields, "group", group)?;
    put_text(alloc, &mut fields, "kind", kind)?;
    put_text(alloc, &mut fields, "name", name)?;
    Ok(Some(JVal::Obj(fields)))
}

// The cause of a conflict: where the object stands now.
fn moved(alloc: Global, newer: u64) -> Result<JVal, NoMemory>
    ensures { IfOk result (λ v. json v
        ≡ cause_list (codes "metadata.resourceVersion") (decimal newer) (codes "ResourceVersionChanged")) }
{
    let mut buffer = Buffer::new();
    cause_list(
        alloc,
        "metadata.resourceVersion",
        buffer.format(newer),
        "ResourceVersionChanged",
    )
}

fn cause_list(alloc: Global, field: &str, message: &str, reason: &str) -> Result<JVal, NoMemory>
    ensures { IfOk result (λ v. json v ≡ cause_list field.now message.now reason.now) }
{
    let mut fields = JFields::new(alloc);
    put_text(alloc, &mut fields, "field", field)?;
    put_text(alloc, &mut fields, "message", message)?;
    put_text(alloc, &mut fields, "reason", reason)?;
    let mut causes = JItems::new(alloc);
    causes.push(JVal::Obj(fields))?;
    Ok(JVal::List(causes))
}

fn kind_and_group(kind_group: &str) -> (&str, &str)
    ensures kind { result.0.now ≡ before_first (λ b. b == dot) kind_group.now }
    ensures group { result.1.now ≡ after_first (λ b. b == dot) kind_group.now }
{
    match kind_group.split_once('.') {
        Some((kind, group)) => (kind, group),
        None => (kind_group, ""),
    }
}

fn put_code(alloc: Global, fields: &mut JFields, code: u16) -> Result<(), NoMemory>
    ensures { OnOk result (fields.new ≡ with_field (codes "code") (whole (pos code)) fields.old) }
{
    let number = i64::from(code);
    put(alloc, fields, "code", JVal::Int(number))
}

fn put_text(alloc: Global, fields: &mut JFields, name: &str, value: &str) -> Result<(), NoMemory>
    ensures { OnOk result (fields.new ≡ with_field name.now (text value.now) fields.old) }
{
    put(alloc, fields, name, JVal::Text(Txt::of(alloc, value)?))
}

fn put_given(
    alloc: Global,
    fields: &mut JFields,
    name: &str,
    value: Option<JVal>,
) -> Result<(), NoMemory>
    ensures { OnOk result (fields.new ≡ with_given name.now (option_map json value) fields.old) }
{
    match value {
        Some(value) => put(alloc, fields, name, value),
        None => Ok(()),
    }
}

fn put(alloc: Global, fields: &mut JFields, name: &str, value: JVal) -> Result<(), NoMemory>
    ensures { OnOk result (fields.new ≡ with_field name.now (json value) fields.old) }
{
    fields.set(Txt::of(alloc, name)?, value)
}
