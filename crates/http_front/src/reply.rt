//! Answers as they are made and written.
ghost use Rattle.std.specs.Prelude.{◌≡◌, ◌⊎◌, IfOk, OnOk, true, IsUtf8};
ghost use Rattle.edge_io.specs.Causes.{HasCause};
ghost use Rattle.edge_io.specs.Sends.{Sends};
ghost use Rattle.http_wire.specs.Response.{HasPhrase, says};
ghost use Rattle.api_calls.specs.Reply.{reply_of};
ghost use Rattle.api_calls.specs.Refusal.{refusal_of};
ghost use Rattle.api_calls.specs.Status.{code_of_refusal, status_of};
ghost use Rattle.kj_value.specs.Text.{text_of};
ghost use Rattle.http_routes.specs.Paths.{migration_group, migrations_word};
ghost use Rattle.request_replies.specs.Replies.{refused as refused_of, wants_memory};
ghost use Rattle.http_front.specs.Going.{answer_of, decided, Tells};
ghost use Rattle.http_front.specs.Link.{memory_words};

use api_calls::{Refusal, Reply, Versions, code_of, no_memory_text, status_text};
use edge_io::{Failed, Sink};
use http_wire::write_response;
use kj_value::NoMemory;
use request_replies::About;
use std::alloc::Global;

/// What a request is answered.
#[derive(Drop)]
pub enum Answer {
    Reply(Reply),
    /// The path doesn't have the method: 405, with no body. It takes no memory.
    NoMethod,
    /// The fixed answer where memory is wanted. It takes none.
    NoMemory,
}

// The plural name of storage migrations.
#[tactic(auto, unfolding(http_routes::specs::Paths::migrations_word))]
fn migrations() -> &'static str
    ensures { result.now ≡ migrations_word }
{
    "storageversionmigrations"
}

// The group of storage migrations.
#[tactic(auto, unfolding(http_routes::specs::Paths::migration_group))]
fn migrations_group() -> &'static str
    ensures { result.now ≡ migration_group }
{
    "storagemigration.k8s.io"
}

// The reply to a refused request about the resource with this plural name in this group.
fn status_reply(
    alloc: Global,
    plural: &str,
    group: &str,
    refusal: &Refusal,
) -> Result<Reply, NoMemory>
    ensures { IfOk result (λ r. reply_of r
        ≡ record { code = code_of_refusal (refusal_of refusal.now); text = text_of (status_of (refusal_of refusal.now) plural.now group.now) }) }
{
    let text = status_text(alloc, refusal, plural, group)?;
    Ok(Reply {
        code: code_of(refusal),
        text,
    })
}

// The reply to a refused request.
fn refuse<V: Versions>(
    alloc: Global,
    versions: &V,
    about: About,
    refusal: &Refusal,
) -> Result<Reply, NoMemory>
    ensures { IfOk result (λ r. reply_of r ≡ refused_of (V.meaning versions.now) about (refusal_of refusal.now)) }
{
    match about {
        About::Objects => {
            let plural = versions.plural().as_str();
            let group = versions.group().as_str();
            status_reply(alloc, plural, group, refusal)
        }
        About::Migrations => status_reply(alloc, migrations(), migrations_group(), refusal),
    }
}

// The answer to a refused request: its Status, where there is memory for the text.
#[tactic(auto, using(crate::proofs::Codes::codes))]
fn refused<V: Versions>(alloc: Global, versions: &V, about: About, refusal: &Refusal) -> Answer
    ensures tells { (answer_of result ≡ refused_of (V.meaning versions.now) about (refusal_of refusal.now)) ⊎ (answer_of result ≡ wants_memory) }
    ensures phrase { HasPhrase (answer_of result).code }
{
    match refuse(alloc, versions, about, refusal) {
        Ok(reply) => Answer::Reply(reply),
        Err(_) => Answer::NoMemory,
    }
}

/// The answer to a request that is refused so. It lets go of the refusal.
pub fn refused_by<V: Versions>(
    alloc: Global,
    versions: &V,
    about: About,
    refusal: Refusal,
) -> Answer
    ensures tells { (answer_of result ≡ refused_of (V.meaning versions.now) about (refusal_of refusal)) ⊎ (answer_of result ≡ wants_memory) }
    ensures phrase { HasPhrase (answer_of result).code }
{
    refused(alloc, versions, about, &refusal)
}

/// The answer of what a call came to, whose refusals are about this.
pub fn told<V: Versions>(
    alloc: Global,
    versions: &V,
    about: About,
    came: Result<Reply, Refusal>,
) -> Answer
    requires { IfOk came (λ r. HasPhrase r.code) }
    ensures tells { Tells (V.meaning versions.now) about (decided came) (answer_of result) }
    ensures phrase { HasPhrase (answer_of result).code }
{
    match came {
        Ok(reply) => Answer::Reply(reply),
        Err(refusal) => refused_by(alloc, versions, about, refusal),
    }
}

// Writes an answer.
fn write_answer<K: Sink>(out: &mut K, answer: &Answer, closing: bool) -> Result<(), Failed>
    requires { HasPhrase (answer_of answer.now).code }
    ensures sent { Sends (K.written out.old) (K.written out.new) (says (answer_of answer.now).code (answer_of answer.now).text closing) result }
    ensures cause { HasCause (K.faults out.old) (K.faults out.new) result }
    ensures number { K.number out.new ≡ K.number out.old }
    ensures utf8 { IsUtf8 (answer_of answer.now).text }
{
    match answer {
        Answer::Reply(reply) => {
            write_response(out, reply.code, reply.text.as_str().as_bytes(), closing)
        }
        Answer::NoMethod => write_response(out, 405, b"", closing),
        Answer::NoMemory => write_response(out, 503, no_memory_text().as_bytes(), closing),
    }
}

/// Writes an answer, and flushes. After an error a front of it was written. It takes no memory.
pub fn hand_on<K: Sink>(output: &mut K, answer: &Answer, closing: bool) -> Result<(), Failed>
    requires { HasPhrase (answer_of answer.now).code }
    ensures sent { Sends (K.written output.old) (K.written output.new) (says (answer_of answer.now).code (answer_of answer.now).text closing) result }
    ensures flushed { OnOk result (K.flushed output.new ≡ K.written output.new) }
    ensures cause { HasCause (K.faults output.old) (K.faults output.new) result }
    ensures number { K.number output.new ≡ K.number output.old }
    // The text of an answer is UTF-8.
    ensures utf8 { IsUtf8 (answer_of answer.now).text }
{
    write_answer(output, answer, closing)?;
    output.flush()
}

/// Writes the one response where there is no memory for a connection, and flushes.
#[tactic(auto, using(http_wire::specs::laws::PhraseLaws::phrases))]
pub fn refuse_link<K: Sink>(output: &mut K) -> Result<(), Failed>
    ensures sent { Sends (K.written output.old) (K.written output.new) memory_words result }
    ensures flushed { OnOk result (K.flushed output.new ≡ K.written output.new) }
    ensures cause { HasCause (K.faults output.old) (K.faults output.new) result }
    ensures number { K.number output.new ≡ K.number output.old }
{
    hand_on(output, &Answer::NoMemory, true)
}
