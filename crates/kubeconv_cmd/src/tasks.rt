//! What is done with one document: a conversion, or the answer to a review.
ghost use Rattle.std.specs.Prelude.{◌≡◌, ◌<◌, ◌≤◌, ◌++◌, ℕ, List, Some, IfOk, IfErr, OnOk, codes, length};
ghost use Rattle.std.specs.Io.KnownBytes.{append_known, IsAtEnd};
ghost use Rattle.kj_value.specs.Json.{Json, depth};
ghost use Rattle.kj_value.specs.Seen.{json};
ghost use Rattle.edge_io.specs.Causes.{Rose};
ghost use Rattle.api_calls.specs.Cause.{cause_of};
ghost use Rattle.api_calls.specs.Meaning.{Fault, invalid};
ghost use Rattle.api_calls.specs.Readings.{IsFaulty};
ghost use Rattle.api_calls.specs.declared.versions.TheConstants.{OBJECT_LEVELS as object_levels};
ghost use Rattle.crd_meaning.specs.Definition.{count_of};
ghost use Rattle.crd_meaning.specs.Converted.{IsConverted};
ghost use Rattle.crd_versions.specs.Set.{definition_of};
ghost use Rattle.review_batch.specs.Answer.{IsAnswer, IsNoRequest};
ghost use Rattle.kj_value.specs.Text.{text_of};
ghost use Rattle.kubeconv_cmd.specs.declared.input.TheConstants.{MOST_INPUT_BYTES};
ghost use Rattle.command_lines.specs.Given.{task_of};
ghost use Rattle.kubeconv_cmd.specs.inner.Ends.{Asked, Follows, OnHalt, Unwritten, NoValue, NoAnswer};
ghost use Rattle.kubeconv_cmd.specs.Tasks.{AnswersDocument, RefusesDocument, KnowsTarget, LacksTarget, Wrote, Broke, IsValueOf, IsWithout, fault_words, no_version as no_version_text, not_review as not_review_text};

use crate::halt::Halt;
use crate::input::{Unread, read_input};
use api_calls::{AdmitFault, Cause, OBJECT_LEVELS, Versions, Why};
use command_lines::Task;
use crd_meaning::one_value;
use crd_versions::VersionSet;
use edge_io::{Sink, Source};
use kj_value::{JVal, JsonFault, NoMemory, Txt, read, write};
use output_lines::write_line;
use review_batch::{ReviewFault, answer};
use std::alloc::Global;

// The input is refused, for this reason.
fn refused(alloc: Global, why: &str) -> Halt
    ensures { OnHalt (record { reads = ⊥; writes = ⊥; input = λ text. text ≡ why.now }) result }
{
    match Txt::of(alloc, why) {
        Ok(why) => Halt::Input { why },
        Err(NoMemory) => Halt::NoMemory,
    }
}

// There is no version of this name.
#[tactic(auto, unfolding(crate::specs::Tasks::no_version))]
fn no_version(alloc: Global, name: &str) -> Halt
    ensures { OnHalt (record { reads = ⊥; writes = ⊥; input = λ text. text ≡ no_version_text name.now }) result }
{
    match format!(in alloc; "no version {name}") {
        Ok(why) => Halt::Input {
            why: Txt::of_string(why),
        },
        Err(_) => Halt::NoMemory,
    }
}

// The input is no review of a request: something else stands at the path.
#[tactic(auto, unfolding(crate::specs::Tasks::not_review))]
fn not_review(alloc: Global, path: &str) -> Halt
    ensures { OnHalt (record { reads = ⊥; writes = ⊥; input = λ text. text ≡ not_review_text path.now }) result }
{
    match format!(in alloc; "NotReview {path}") {
        Ok(why) => Halt::Input {
            why: Txt::of_string(why),
        },
        Err(_) => Halt::NoMemory,
    }
}

// A field of the document breaks a rule.
#[tactic(auto, unfolding(crate::specs::Tasks::fault_words))]
fn broken(alloc: Global, cause: &Cause) -> Halt
    ensures { (name : List ℕ) → OnHalt (record { reads = ⊥; writes = ⊥; input = λ text. text ≡ fault_words (invalid name (cause_of cause.now)) }) result }
{
    let field = cause.field.as_str();
    let word = cause.rule.word();
    match format!(in alloc; "{field}: {word}") {
        Ok(why) => Halt::Input {
            why: Txt::of_string(why),
        },
        Err(_) => Halt::NoMemory,
    }
}

// The text of a document's value at a version.
fn convert_document(
    alloc: Global,
    versions: &VersionSet,
    to: u8,
    document: JVal,
) -> Result<Txt, Halt>
    requires known { to < count_of (definition_of versions.now) }
    requires levels { depth (json document) ≤ object_levels }
    ensures value { IfOk result (λ t. (k : Json) × IsConverted (definition_of versions.now) (json document) to k × (t.bytes ≡ text_of k)) }
    ensures none { IfErr result (OnHalt (record {
      reads = ⊥;
      writes = ⊥;
      input = λ text. (f : Fault) × IsWithout (definition_of versions.now) to (json document) f × (text ≡ fault_words f);
    })) }
{
    one_value();
    match versions.convert(alloc, document, to) {
        Ok(value) => match write(alloc, &value) {
            Ok(text) => Ok(text),
            Err(NoMemory) => Err(Halt::NoMemory),
        },
        Err(AdmitFault::BadRequest(why)) => Err(refused(alloc, why.word())),
        Err(AdmitFault::Invalid { name: _, cause }) => Err(broken(alloc, &cause)),
        Err(AdmitFault::Tool) => unreachable!(),
        Err(AdmitFault::NoMemory) => Err(Halt::NoMemory),
    }
}

// The text of the value of the document that the bytes are.
fn convert_bytes(alloc: Global, versions: &VersionSet, to: u8, bytes: &[u8]) -> Result<Txt, Halt>
    requires known { to < count_of (definition_of versions.now) }
    ensures value { IfOk result (λ t. IsValueOf (definition_of versions.now) to bytes.now t.bytes) }
    ensures none { IfErr result (OnHalt (record {
      reads = ⊥;
      writes = ⊥;
      input = λ text. (f : Fault) × IsFaulty bytes.now object_levels (IsWithout (definition_of versions.now) to) f × (text ≡ fault_words f);
    })) }
{
    match read(alloc, bytes, OBJECT_LEVELS) {
        Ok(document) => convert_document(alloc, versions, to, document),
        Err(JsonFault::NotJson) => Err(refused(alloc, Why::NotJson.word())),
        Err(JsonFault::TooDeep) => Err(refused(alloc, Why::TooDeep.word())),
        Err(JsonFault::NotWhole) => Err(refused(alloc, Why::NotWhole.word())),
        Err(JsonFault::NoMemory) => Err(Halt::NoMemory),
    }
}

// The response to the review that the bytes are.
fn answer_bytes(alloc: Global, versions: &VersionSet, bytes: &[u8]) -> Result<Txt, Halt>
    ensures answered { IfOk result (λ t. IsAnswer (definition_of versions.now) bytes.now t.bytes) }
    ensures none { IfErr result (OnHalt (record {
      reads = ⊥;
      writes = ⊥;
      input = λ text. (path : List ℕ) × IsNoRequest bytes.now path × (text ≡ not_review_text path);
    })) }
{
    match answer(alloc, versions, bytes) {
        Ok(text) => Ok(text),
        Err(ReviewFault::NotReview { path }) => Err(not_review(alloc, path.as_str())),
        Err(ReviewFault::NoMemory) => Err(Halt::NoMemory),
    }
}

// The input isn't had.
#[tactic(auto, unfolding(crate::specs::Tasks::too_long))]
fn unread(alloc: Global, fault: Unread) -> Halt
    ensures { Follows fault result }
{
    match fault {
        Unread::Failed => Halt::ReadFailed,
        Unread::TooLong => refused(alloc, "TooLong"),
        Unread::NoMemory => Halt::NoMemory,
    }
}

// The text that is written of the input by a conversion.
fn convert_input<S: Source>(
    alloc: Global,
    versions: &VersionSet,
    to: u8,
    input: &mut S,
) -> Result<Txt, Halt>
    requires known { to < count_of (definition_of versions.now) }
    ensures value { (b : List ℕ) → S.left input.old ≡ Some b
        → IfOk result (λ t. (length b ≤ MOST_INPUT_BYTES) × IsValueOf (definition_of versions.now) to b t.bytes) }
    ensures none { (b : List ℕ) → S.left input.old ≡ Some b
        → IfErr result (OnHalt (record {
          reads = Rose (S.faults input.old) (S.faults input.new);
          writes = ⊥;
          input = NoValue (definition_of versions.now) to b;
        })) }
    ensures cause { IfErr result (OnHalt (record { reads = Rose (S.faults input.old) (S.faults input.new); writes = ⊥; input = λ _. Unit {0} })) }
    ensures end { OnOk result (IsAtEnd (S.left input.new)) }
{
    match read_input(alloc, input) {
        Ok(bytes) => convert_bytes(alloc, versions, to, &bytes),
        Err(fault) => Err(unread(alloc, fault)),
    }
}

// The text that is written of the input by the answer to a review.
fn review_input<S: Source>(alloc: Global, versions: &VersionSet, input: &mut S) -> Result<Txt, Halt>
    ensures answered { (b : List ℕ) → S.left input.old ≡ Some b
        → IfOk result (λ t. (length b ≤ MOST_INPUT_BYTES) × IsAnswer (definition_of versions.now) b t.bytes) }
    ensures none { (b : List ℕ) → S.left input.old ≡ Some b
        → IfErr result (OnHalt (record {
          reads = Rose (S.faults input.old) (S.faults input.new);
          writes = ⊥;
          input = NoAnswer b;
        })) }
    ensures cause { IfErr result (OnHalt (record { reads = Rose (S.faults input.old) (S.faults input.new); writes = ⊥; input = λ _. Unit {0} })) }
    ensures end { OnOk result (IsAtEnd (S.left input.new)) }
{
    match read_input(alloc, input) {
        Ok(bytes) => answer_bytes(alloc, versions, &bytes),
        Err(fault) => Err(unread(alloc, fault)),
    }
}

// The text that is written of the input. Whether there is a version of the name is asked before anything is read.
fn answer_input<S: Source>(
    alloc: Global,
    versions: &VersionSet,
    task: Task<'_>,
    input: &mut S,
) -> Result<Txt, Halt>
    ensures asked { Asked (KnowsTarget (definition_of versions.now) (task_of task.entry)) (input.new ≡ input.old) (LacksTarget (definition_of versions.now) (task_of task.entry)) result }
    ensures answered { (b : List ℕ) → S.left input.old ≡ Some b
        → IfOk result (λ t. AnswersDocument (definition_of versions.now) (task_of task.entry) b t.bytes) }
    ensures none { (b : List ℕ) → S.left input.old ≡ Some b → KnowsTarget (definition_of versions.now) (task_of task.entry)
        → IfErr result (OnHalt (record {
          reads = Rose (S.faults input.old) (S.faults input.new);
          writes = ⊥;
          input = RefusesDocument (definition_of versions.now) b (task_of task.entry);
        })) }
    ensures cause { IfErr result (OnHalt (record { reads = Rose (S.faults input.old) (S.faults input.new); writes = ⊥; input = λ _. Unit {0} })) }
    ensures end { OnOk result (IsAtEnd (S.left input.new)) }
{
    match task {
        Task::Convert { to } => match versions.find(to) {
            Some(version) => convert_input(alloc, versions, version, input),
            None => Err(no_version(alloc, to)),
        },
        Task::Review => review_input(alloc, versions, input),
    }
}

/// Does the task with the input, and writes its one line.
pub(crate) fn do_task<S: Source, K: Sink>(
    alloc: Global,
    versions: &VersionSet,
    task: Task<'_>,
    input: &mut S,
    output: &mut K,
) -> Result<(), Halt>
    ensures asked { Asked (KnowsTarget (definition_of versions.now) (task_of task.entry)) (input.new ≡ input.old) (LacksTarget (definition_of versions.now) (task_of task.entry)) result }
    ensures wrote { (b : List ℕ) → S.left input.old ≡ Some b
        → OnOk result (Wrote (AnswersDocument (definition_of versions.now) (task_of task.entry) b) (K.written output.old) (K.written output.new)) }
    ensures failed { (b : List ℕ) → S.left input.old ≡ Some b → KnowsTarget (definition_of versions.now) (task_of task.entry)
        → IfErr result (OnHalt (record {
          reads = Rose (S.faults input.old) (S.faults input.new);
          writes = Broke (AnswersDocument (definition_of versions.now) (task_of task.entry) b) (K.written output.old) (K.written output.new);
          input = RefusesDocument (definition_of versions.now) b (task_of task.entry);
        })) }
    ensures cause { IfErr result (OnHalt (record {
      reads = Rose (S.faults input.old) (S.faults input.new);
      writes = Rose (K.faults output.old) (K.faults output.new);
      input = λ _. Unit {0};
    })) }
    ensures silent { IfErr result (Unwritten (output.new ≡ output.old)) }
    ensures end { OnOk result (IsAtEnd (S.left input.new)) }
    ensures flushed { OnOk result (K.flushed output.new ≡ K.written output.new) }
{
    match answer_input(alloc, versions, task, input) {
        Ok(text) => match write_line(output, text.as_str()) {
            Ok(()) => Ok(()),
            Err(_) => Err(Halt::WriteFailed),
        },
        Err(halt) => Err(halt),
    }
}
