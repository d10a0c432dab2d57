//! What a replace makes of an object.
ghost use Rattle.std.specs.Prelude.{◌≡◌, ◌↔◌, ◌+ℤ◌, FitsSigned, IfOk, IfSome, IsTrue, if◌then◌else◌, map, pos};
ghost use Rattle.std.specs.Int.{w64};
ghost use Rattle.std.specs.List.{list_all, list_any};
ghost use Rattle.std.specs.Str.{bytes_eq};
ghost use Rattle.kj_value.specs.Fields.{Pairs};
ghost use Rattle.kj_value.specs.Json.{members_of, object};
ghost use Rattle.kj_value.specs.Seen.{json};
ghost use Rattle.kj_value.specs.Texts.{bytes_of};
ghost use Rattle.kube_meta.specs.Document.{document};
ghost use Rattle.kube_meta.specs.View.{object_of};
ghost use Rattle.api_calls.specs.Meaning.{stamped};
ghost use Rattle.api_calls.specs.Values.{IsUpdate, is_forbidden, is_marked, is_release};
ghost use Rattle.api_calls.specs.Versions.{IsBody};

use kj_value::{JFields, JVal, NoMemory, Txt, same};
use kube_meta::{Object, copy_object, write_object};
use std::alloc::Global;

/// The value that a replace stores in the place of an old one, and how the two stand to each other.
#[derive(Drop)]
pub struct Update {
    pub hub: Object,
    /// It is the old value.
    pub equal: bool,
    /// It adds a finalizer to an object that is being deleted.
    pub forbidden: bool,
    /// It takes the last finalizer from an object that is being deleted.
    pub release: bool,
}

// Whether one of the texts is this one.
fn is_among(texts: &[Txt], text: &str) -> bool
    ensures { result ≡ list_any (bytes_eq text.now) (map bytes_of texts.now) }
{
    for t in texts {
        if text == t.as_str() {
            return true;
        }
    }
    false
}

// Whether each of the texts is among others.
fn are_among(texts: &[Txt], others: &[Txt]) -> bool
    ensures { result ≡ list_all (λ f. list_any (bytes_eq f) (map bytes_of others.now)) (map bytes_of texts.now) }
{
    for text in texts {
        if !is_among(others, text.as_str()) {
            return false;
        }
    }
    true
}

// The fields of an object.
fn fields_of(value: JVal) -> JFields
    requires { (es : Pairs) × (json value ≡ object (members_of es)) }
    ensures { json value ≡ object (members_of result) }
{
    let Some(fields) = value.into_object() else {
        unreachable!()
    };
    fields
}

// Whether two bodies are one, and the bodies again. It copies nothing.
fn same_bodies(a: JFields, b: JFields) -> (bool, JFields, JFields)
    ensures same { IsTrue result.0 ↔ (a ≡ b) }
    ensures first { result.1 ≡ a }
    ensures second { result.2 ≡ b }
{
    let first = JVal::Obj(a);
    let second = JVal::Obj(b);
    let one = same(&first, &second);
    let first = fields_of(first);
    let second = fields_of(second);
    (one, first, second)
}

// The document of an object, which stays.
fn document_of(alloc: Global, o: &Object) -> Result<JVal, NoMemory>
    ensures { IfOk result (λ j. json j ≡ document (object_of o.now)) }
{
    let again = copy_object(alloc, o)?;
    write_object(alloc, again)
}

// Whether two objects are one, where neither's body has a field that stands beside it. The second one is let go.
fn same_objects(alloc: Global, a: &Object, b: Object) -> Result<bool, NoMemory>
    requires { IsBody (object_of a.now).body × IsBody (object_of b).body }
    ensures { IfOk result (λ one. IsTrue one ↔ (object_of a.now ≡ object_of b)) }
{
    let first = match document_of(alloc, a) {
        Ok(first) => first,
        Err(fault) => {
            drop(b);
            return Err(fault);
        }
    };
    let second = match write_object(alloc, b) {
        Ok(second) => second,
        Err(fault) => {
            drop(first);
            return Err(fault);
        }
    };
    let one = same(&first, &second);
    drop(first);
    drop(second);
    Ok(one)
}

// Whether two objects are one, whose bodies are one or aren't.
fn same_if(alloc: Global, bodies: bool, a: &Object, b: Object) -> Result<bool, NoMemory>
    requires bodies { object_of a.now ≡ object_of b → IsTrue bodies }
    requires apart { IsBody (object_of a.now).body × IsBody (object_of b).body }
    ensures { IfOk result (λ one. IsTrue one ↔ (object_of a.now ≡ object_of b)) }
{
    if !bodies {
        drop(b);
        return Ok(false);
    }
    same_objects(alloc, a, b)
}

// The generation after a change of the body, or after none; `None` where it can't rise.
fn next_generation(old: i64, bodies: bool) -> Option<i64>
    ensures next { IfSome result (λ n. n ≡ (if bodies then old else old +ℤ pos 1)) }
    ensures fits { IfSome result (FitsSigned w64) }
{
    if bodies {
        Some(old)
    } else {
        old.checked_add(1)
    }
}

// The value of an update.
fn updated(new: Object, old: &Object, generation: i64) -> Object
    ensures { object_of result ≡ stamped (object_of new) (object_of old.now).meta.created (object_of old.now).meta.deleted generation }
{
    let mut hub = new;
    hub.meta.created = old.meta.created;
    hub.meta.deleted = old.meta.deleted;
    hub.meta.generation = generation;
    hub
}

// Whether two objects have one body, and the objects again. It copies nothing.
fn compared(a: Object, b: Object) -> (bool, Object, Object)
    ensures same { IsTrue result.0 ↔ ((object_of a).body ≡ (object_of b).body) }
    ensures first { object_of result.1 ≡ object_of a }
    ensures second { object_of result.2 ≡ object_of b }
{
    let mut a = a;
    let mut b = b;
    let (one, body, other) = same_bodies(a.body, b.body);
    a.body = body;
    b.body = other;
    (one, a, b)
}

// Whether an object is being deleted.
fn marked(o: &Object) -> bool
    ensures { result ≡ is_marked (object_of o.now) }
{
    o.meta.deleted.is_some()
}

// Whether an update adds a finalizer to an object that is being deleted.
fn adds(old: &Object, hub: &Object) -> bool
    ensures { result ≡ is_forbidden (object_of old.now) (object_of hub.now) }
{
    if !marked(old) {
        return false;
    }
    let held = are_among(
        hub.meta.finalizers.as_slice(),
        old.meta.finalizers.as_slice(),
    );
    !held
}

// Whether an update takes the last finalizer from an object that is being deleted.
fn ends(old: &Object, hub: &Object) -> bool
    ensures { result ≡ is_release (object_of old.now) (object_of hub.now) }
{
    if !marked(old) {
        return false;
    }
    hub.meta.finalizers.len() == 0
}

/// What a replace makes of a new value over an old one: the stamps stay, and the generation rises by one where the bodies
/// differ. `NoMemory` comes also where the generation can't rise, which no object's is where it is known what values mean.
pub fn update_of(alloc: Global, new: Object, old: Object) -> Result<Update, NoMemory>
    requires new_body { IsBody (object_of new).body }
    requires old_body { IsBody (object_of old).body }
    requires old_fits { FitsSigned w64 (object_of old).meta.generation }
    ensures update { IfOk result (λ u. IsUpdate (object_of old) (object_of new) (object_of u.hub)) }
    ensures fits { IfOk result (λ u. FitsSigned w64 (object_of u.hub).meta.generation) }
    ensures equal { IfOk result (λ u. IsTrue u.equal ↔ (object_of u.hub ≡ object_of old)) }
    ensures forbidden { IfOk result (λ u. u.forbidden ≡ is_forbidden (object_of old) (object_of u.hub)) }
    ensures release { IfOk result (λ u. u.release ≡ is_release (object_of old) (object_of u.hub)) }
{
    let (bodies, new, old) = compared(new, old);
    let Some(generation) = next_generation(old.meta.generation, bodies) else {
        drop(new);
        drop(old);
        return Err(NoMemory);
    };
    let hub = updated(new, &old, generation);
    let forbidden = adds(&old, &hub);
    let release = ends(&old, &hub);
    let equal = match same_if(alloc, bodies, &hub, old) {
        Ok(equal) => equal,
        Err(fault) => {
            drop(hub);
            return Err(fault);
        }
    };
    Ok(Update {
        hub,
        equal,
        forbidden,
        release,
    })
}
