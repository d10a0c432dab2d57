//! Requests that are admitted or refused by a definition whose objects a converter turns.
//!
//! The definition has the versions `v1`, its hub, and `v1beta1`; `v1` calls `host` what `v1beta1` calls `address`, and `port` is 80 by default.
use crate::objects::document;
use crate::spelling::{cut, spelled};
use crate::told::Told;
use api_calls::{AdmitFault, Admitted, Incoming, Tool, Versions};
use converters::{ListConverter, MadeTurn, Outcome, RenameConverter};
use hook_versions::{HookSet, load_hook};
use kj_value::{JVal, MAX_JSON_LEVELS, depth, read, write};
use kube_meta::{Object, Shape, copy_shaped, namespace_ok};
use std::alloc::Global;

const CRD: &str =
    "{\"apiVersion\":\"apiextensions.k8s.io/v1\",\"kind\":\"CustomResourceDefinition\",\"metadata\":{\"name\":\"hosts.example.com\"},\"spec\":{\"group\":\"example.com\",\"names\":{\"kind\":\"Host\",\"plural\":\"hosts\"},\"scope\":\"Namespaced\",\"versions\":[{\"name\":\"v1\",\"schema\":{\"openAPIV3Schema\":{\"properties\":{\"host\":{\"type\":\"string\"},\"port\":{\"default\":80,\"type\":\"integer\"}},\"type\":\"object\",\"x-kubernetes-preserve-unknown-fields\":true}},\"served\":true,\"storage\":false},{\"name\":\"v1beta1\",\"schema\":{\"openAPIV3Schema\":{\"properties\":{\"address\":{\"type\":\"string\"},\"port\":{\"default\":80,\"type\":\"integer\"}},\"type\":\"object\",\"x-kubernetes-preserve-unknown-fields\":true}},\"served\":true,\"storage\":true}]}}";

// The same with a third version, `v1alpha1`.
const THREE: &str =
    "{\"apiVersion\":\"apiextensions.k8s.io/v1\",\"kind\":\"CustomResourceDefinition\",\"metadata\":{\"name\":\"hosts.example.com\"},\"spec\":{\"group\":\"example.com\",\"names\":{\"kind\":\"Host\",\"plural\":\"hosts\"},\"scope\":\"Namespaced\",\"versions\":[{\"name\":\"v1\",\"schema\":{\"openAPIV3Schema\":{\"properties\":{\"host\":{\"type\":\"string\"},\"port\":{\"default\":80,\"type\":\"integer\"}},\"type\":\"object\",\"x-kubernetes-preserve-unknown-fields\":true}},\"served\":true,\"storage\":false},{\"name\":\"v1beta1\",\"schema\":{\"openAPIV3Schema\":{\"properties\":{\"address\":{\"type\":\"string\"},\"port\":{\"default\":80,\"type\":\"integer\"}},\"type\":\"object\",\"x-kubernetes-preserve-unknown-fields\":true}},\"served\":true,\"storage\":true},{\"name\":\"v1alpha1\",\"schema\":{\"openAPIV3Schema\":{\"properties\":{\"address\":{\"type\":\"string\"},\"port\":{\"default\":80,\"type\":\"integer\"}},\"type\":\"object\",\"x-kubernetes-preserve-unknown-fields\":true}},\"served\":true,\"storage\":false}]}}";

/// The answer to a case.
pub(crate) fn answer(alloc: Global, word: u8, text: &str, out: &mut Told) {
    match word {
        b'l' => loaded(alloc, text, out),
        b'a' => admitted(alloc, text, out),
        b's' => handed_on(alloc, text, out),
        _ => out.lose(),
    }
}

// Whether the definition is loaded with that hub.
fn loaded(alloc: Global, hub: &str, out: &mut Told) {
    match load_hook::<RenameConverter>(alloc, CRD.as_bytes(), hub) {
        Ok(_) => out.add("loaded"),
        Err(_) => out.add("refused"),
    }
}

// ---- the converter

fn answered(alloc: Global, text: &str) -> Option<Outcome> {
    match read(alloc, text.as_bytes(), MAX_JSON_LEVELS) {
        Ok(v) => Some(Outcome::Answered(v)),
        Err(_) => None,
    }
}

fn outcome(alloc: Global, text: &str) -> Option<Outcome> {
    if text == "-" {
        return Some(Outcome::Refused);
    }
    if text == "!" {
        return Some(Outcome::Failed);
    }
    match spelled(alloc, text) {
        Some(text) => answered(alloc, text.as_str()),
        None => None,
    }
}

fn add_outcome(alloc: Global, answers: &mut Vec<Outcome>, text: &str) -> bool {
    match outcome(alloc, text) {
        Some(outcome) => answers.push(outcome).is_ok(),
        None => false,
    }
}

// Whether each answer was added.
fn add_outcomes(alloc: Global, answers: &mut Vec<Outcome>, given: &str) -> bool {
    for text in given.split('~') {
        if !add_outcome(alloc, answers, text) {
            return false;
        }
    }
    true
}

// A converter with these answers; with none where the text is empty.
fn converter(alloc: Global, given: &str) -> Option<ListConverter> {
    let mut answers = Vec::new(alloc);
    if given.is_empty() || add_outcomes(alloc, &mut answers, given) {
        Some(ListConverter::new(alloc, answers))
    } else {
        None
    }
}

// ---- what is told

// Adds a text, or how many bytes it has, where these are more than 1,000.
fn add_short(alloc: Global, text: &str, out: &mut Told) {
    if text.len() > 1000 {
        out.add_number(alloc, text.len() as u64);
        out.add("bytes");
    } else {
        out.add(text);
    }
}

fn add_document(alloc: Global, v: &JVal, out: &mut Told) {
    if depth(v) > MAX_JSON_LEVELS {
        return out.lose();
    }
    match write(alloc, v) {
        Ok(text) => add_short(alloc, text.as_str(), out),
        Err(_) => out.lose(),
    }
}

fn add_object(alloc: Global, o: &Object, out: &mut Told) {
    match document(alloc, o) {
        Some(document) => add_document(alloc, &document, out),
        None => out.lose(),
    }
}

fn add_admitted(alloc: Global, admitted: &Admitted, out: &mut Told) {
    out.add_number(alloc, admitted.weight);
    add_object(alloc, &admitted.hub, out);
}

// Adds why a request is refused.
fn add_fault(out: &mut Told, fault: &AdmitFault) {
    match fault {
        AdmitFault::BadRequest(why) => out.add(why.word()),
        AdmitFault::Invalid { name: _, cause } => {
            out.add(cause.field.as_str());
            out.add(cause.rule.word());
        }
        AdmitFault::Tool => out.add("Tool"),
        AdmitFault::NoMemory => out.lose(),
    }
}

fn add_turn(alloc: Global, turn: &MadeTurn, out: &mut Told) {
    out.add("/");
    out.add(turn.to.as_str());
    add_document(alloc, &turn.object, out);
}

// Adds the turns that were made, and a `!` for each fault.
fn add_turns(alloc: Global, converter: &ListConverter, out: &mut Told) {
    for turn in converter.made() {
        add_turn(alloc, turn, out);
    }
    for _ in 0..converter.count() {
        out.add("/");
        out.add("!");
    }
}

fn add_shaped(alloc: Global, hub: &Object, shape: Shape, out: &mut Told) {
    match copy_shaped(alloc, hub, shape) {
        Ok(form) => add_object(alloc, &form, out),
        Err(_) => out.lose(),
    }
}

// Adds what the hub value becomes at the version that is stored, or `-` where that isn't handed on.
fn add_form(alloc: Global, admitted: Admitted, out: &mut Told) {
    let mut admitted = admitted;
    match admitted.shape.take() {
        Some(shape) => add_shaped(alloc, &admitted.hub, shape, out),
        None => out.add("-"),
    }
    drop(admitted);
}

// ---- a create

// A create at a version where one is stored, by a converter with these answers; and whether what is handed on is told, or the hub value.
#[derive(Clone, Copy, Drop)]
struct Create<'a> {
    stored: &'a str,
    version: &'a str,
    body: &'a str,
    given: &'a str,
    is_form: bool,
}

// What a create comes to, if the versions are known.
fn came<V: Versions>(
    alloc: Global,
    versions: &V,
    tool: &mut V::Tool,
    create: &Create<'_>,
) -> Option<Result<Admitted, AdmitFault>> {
    let Some(storage) = versions.find(create.stored) else {
        return None;
    };
    let Some(version) = versions.find(create.version) else {
        return None;
    };
    if !namespace_ok("default") {
        return None;
    }
    let input = Incoming {
        version,
        creating: true,
        ns: "default",
        name: None,
        bytes: create.body.as_bytes(),
    };
    Some(versions.admit(alloc, tool, &input, storage))
}

fn add_made(alloc: Global, admitted: Admitted, is_form: bool, out: &mut Told) {
    if is_form {
        add_form(alloc, admitted, out);
    } else {
        add_admitted(alloc, &admitted, out);
    }
}

// Adds what a create comes to, or why it is refused.
fn add_came(
    alloc: Global,
    came: Option<Result<Admitted, AdmitFault>>,
    is_form: bool,
    out: &mut Told,
) {
    match came {
        Some(Ok(admitted)) => add_made(alloc, admitted, is_form, out),
        Some(Err(fault)) => add_fault(out, &fault),
        None => out.lose(),
    }
}

// Adds the turns that were made, or how many these are.
fn add_used(alloc: Global, tool: &ListConverter, is_form: bool, out: &mut Told) {
    if is_form {
        out.add("/");
        out.add_number(alloc, tool.made().len() as u64);
    } else {
        add_turns(alloc, tool, out);
    }
}

fn by_set(alloc: Global, set: &HookSet<ListConverter>, create: &Create<'_>, out: &mut Told) {
    match converter(alloc, create.given) {
        Some(mut tool) => {
            add_came(
                alloc,
                came(alloc, set, &mut tool, create),
                create.is_form,
                out,
            );
            add_used(alloc, &tool, create.is_form, out);
        }
        None => out.lose(),
    }
}

fn made(alloc: Global, create: &Create<'_>, out: &mut Told) {
    let crd = if create.is_form { THREE } else { CRD };
    match load_hook::<ListConverter>(alloc, crd.as_bytes(), "v1") {
        Ok(set) => by_set(alloc, &set, create, out),
        Err(_) => out.lose(),
    }
}

// Adds what `BODY~ANSWERS` comes to.
fn created(
    alloc: Global,
    stored: &str,
    version: &str,
    behind: &str,
    is_form: bool,
    out: &mut Told,
) {
    let Some((body, given)) = cut(behind, '~') else {
        return out.lose();
    };
    match spelled(alloc, body) {
        Some(body) => {
            let body = body.as_str();
            let create = Create {
                stored,
                version,
                body,
                given,
                is_form,
            };
            made(alloc, &create, out);
        }
        None => out.lose(),
    }
}

// What a create is admitted with, by a converter with these answers.
fn admitted(alloc: Global, text: &str, out: &mut Told) {
    match cut(text, '~') {
        Some((version, behind)) => created(alloc, version, version, behind, false, out),
        None => out.lose(),
    }
}

// What is handed on of a create where another version is stored, by a converter with these answers, and how many turns it takes.
fn handed_on(alloc: Global, text: &str, out: &mut Told) {
    let Some((stored, behind)) = cut(text, '~') else {
        return out.lose();
    };
    match cut(behind, '~') {
        Some((version, behind)) => created(alloc, stored, version, behind, true, out),
        None => out.lose(),
    }
}
