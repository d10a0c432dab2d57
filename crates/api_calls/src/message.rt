//! The messages of refusals.
ghost use Rattle.std.specs.Prelude.{◌≡◌, ◌++◌, [], codes, decimal, Some, IfOk};
ghost use Rattle.api_calls.specs.Cause.{why_of, cause_of};
ghost use Rattle.api_calls.specs.Refusal.{refusal_of, subject_of, invalid, bad_request, expired, full};
ghost use Rattle.api_calls.specs.Status.{message_of, subject, parameter_text, room_word, storing_text};

use crate::cause::Cause;
use crate::refusal::{Refusal, Subject};
use crate::why::Why;
use itoa::Buffer;
use kj_value::{NoMemory, Txt};
use kube_meta::{Key, Room, RoomKind};
use std::alloc::Global;

/// The message of the Status that tells the refusal.
#[tactic(auto, unfolding(crate::specs::Status::message_of))]
pub(crate) fn message_of(
    alloc: Global,
    refusal: &Refusal,
    plural: &str,
    group: &str,
) -> Result<Txt, NoMemory>
    ensures { IfOk result (λ t. t.bytes ≡ message_of (refusal_of refusal.now) plural.now group.now) }
{
    match refusal {
        Refusal::NotFound { name } => {
            object_message(alloc, "", plural, group, name.as_str(), " not found")
        }
        Refusal::NoResource => Txt::of(alloc, "the server could not find the requested resource"),
        Refusal::AlreadyExists { name } => {
            object_message(alloc, "", plural, group, name.as_str(), " already exists")
        }
        Refusal::Conflict { name, newer: _ } => object_message(
            alloc,
            "Operation cannot be fulfilled on ",
            plural,
            group,
            name.as_str(),
            ": the object has been modified; please apply your changes to the latest version and try again",
        ),
        Refusal::Invalid { subject, cause } => invalid(alloc, subject, cause),
        Refusal::BadRequest { why } => bad_request(alloc, why),
        Refusal::Expired { floor } => expired(alloc, *floor),
        Refusal::Full { room } => full(alloc, *room),
        Refusal::MigrationRunning { name } => {
            three(alloc, "migration \"", name.as_str(), "\" is running")
        }
        Refusal::StillStored { version, key } => storing(alloc, version.as_str(), key),
        Refusal::Converter => Txt::of(alloc, "the converter failed"),
        Refusal::NoMemory => Txt::of(alloc, "out of memory"),
    }
}

fn object_message(
    alloc: Global,
    before: &str,
    plural: &str,
    group: &str,
    name: &str,
    behind: &str,
) -> Result<Txt, NoMemory>
    ensures { IfOk result (λ t. t.bytes
        ≡ before.now ++ subject plural.now group.now name.now ++ behind.now) }
{
    let mut message = String::new(alloc);
    message.push_str(plural)?;
    message.push_str(".")?;
    message.push_str(group)?;
    message.push_str(" \"")?;
    message.push_str(name)?;
    message.push_str("\"")?;
    Ok(three(alloc, before, message.as_str(), behind)?)
}

fn invalid(alloc: Global, subject: &Subject, cause: &Cause) -> Result<Txt, NoMemory>
    ensures { IfOk result (λ t.
        t.bytes ≡ message_of (invalid (subject_of subject.now) (cause_of cause.now)) [] []) }
{
    let mut message = String::new(alloc);
    message.push_str(subject.kind_group.as_str())?;
    message.push_str(" \"")?;
    message.push_str(subject.name.as_str())?;
    message.push_str("\" is invalid: ")?;
    message.push_str(cause.field.as_str())?;
    message.push_str(": ")?;
    message.push_str(cause.rule.word())?;
    Ok(Txt::of_string(message))
}

fn bad_request(alloc: Global, why: &Why) -> Result<Txt, NoMemory>
    ensures { IfOk result (λ t. t.bytes ≡ message_of (bad_request (why_of why.now)) [] []) }
{
    let parameter = parameter_text(alloc, why)?;
    Ok(three(alloc, "bad request: ", why.word(), parameter.as_str())?)
}

fn parameter_text(alloc: Global, why: &Why) -> Result<Txt, NoMemory>
    ensures { IfOk result (λ t. t.bytes ≡ parameter_text (why_of why.now)) }
{
    match why {
        Why::BadQuery { parameter } => three(alloc, " ", parameter.as_str(), ""),
        Why::NotJson => Txt::of(alloc, ""),
        Why::TooDeep => Txt::of(alloc, ""),
        Why::NotWhole => Txt::of(alloc, ""),
        Why::NotObject => Txt::of(alloc, ""),
        Why::WrongVersion => Txt::of(alloc, ""),
        Why::WrongKind => Txt::of(alloc, ""),
        Why::WrongNamespace => Txt::of(alloc, ""),
        Why::WrongName => Txt::of(alloc, ""),
        Why::BadToken => Txt::of(alloc, ""),
        Why::BadOptions => Txt::of(alloc, ""),
    }
}

#[tactic(auto, unfolding(crate::specs::Status::message_of))]
fn expired(alloc: Global, floor: u64) -> Result<Txt, NoMemory>
    ensures { IfOk result (λ t. t.bytes ≡ message_of (expired floor) [] []) }
{
    let mut buffer = Buffer::new();
    three(
        alloc,
        "the continue token is older than resource version ",
        buffer.format(floor),
        "",
    )
}

fn full(alloc: Global, room: Room) -> Result<Txt, NoMemory>
    ensures { IfOk result (λ t. t.bytes ≡ message_of (full room) [] []) }
{
    let mut need = Buffer::new();
    let mut free = Buffer::new();
    let mut message = String::new(alloc);
    message.push_str("no room for ")?;
    message.push_str(room_word(room.what))?;
    message.push_str(": need ")?;
    message.push_str(need.format(room.need))?;
    message.push_str(", free ")?;
    message.push_str(free.format(room.free))?;
    Ok(Txt::of_string(message))
}

#[tactic(auto, unfolding(crate::specs::Status::room_word))]
fn room_word(what: RoomKind) -> &'static str
    ensures { result.now ≡ room_word what }
{
    match what {
        RoomKind::Objects => "objects",
        RoomKind::Chunks => "chunks",
        RoomKind::Migrations => "migrations",
    }
}

#[tactic(auto, unfolding(crate::specs::Status::storing_text))]
fn storing(alloc: Global, version: &str, key: &Option<Key>) -> Result<Txt, NoMemory>
    ensures { IfOk result (λ t. t.bytes ≡ storing_text version.now key.now) }
{
    match key {
        None => three(alloc, "version \"", version, "\" is the storage version"),
        Some(key) => storing_at(alloc, version, key),
    }
}

fn storing_at(alloc: Global, version: &str, key: &Key) -> Result<Txt, NoMemory>
    ensures { IfOk result (λ t. t.bytes ≡ storing_text version.now (Some key.now)) }
{
    let mut message = String::new(alloc);
    message.push_str("version \"")?;
    message.push_str(version)?;
    message.push_str("\" is still stored by ")?;
    message.push_str(key.ns())?;
    message.push_str("/")?;
    message.push_str(key.name())?;
    Ok(Txt::of_string(message))
}

fn three(alloc: Global, first: &str, second: &str, third: &str) -> Result<Txt, NoMemory>
    ensures { IfOk result (λ t. t.bytes ≡ first.now ++ second.now ++ third.now) }
{
    let mut text = String::new(alloc);
    text.push_str(first)?;
    text.push_str(second)?;
    text.push_str(third)?;
    Ok(Txt::of_string(text))
}
