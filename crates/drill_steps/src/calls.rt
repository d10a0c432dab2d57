//! The requests on objects. No other calls the server beside them.
ghost use Rattle.std.specs.Prelude.{◌≡◌, ℕ, List, None, Some, IfOk, OnOk};
ghost use Rattle.api_calls.specs.Item.{Item, items};
ghost use Rattle.api_calls.specs.Calls.{replace};
ghost use Rattle.turn_cell.specs.Views.{IsAlone};
ghost use Rattle.shared_api.specs.Base.{server_of};
ghost use Rattle.shared_api.specs.Passes.{IsOf};
ghost use Rattle.drill_requests.specs.Bodies.{object_key};
ghost use Rattle.drill_requests.specs.Replies.{IsEdited};
ghost use Rattle.drill_steps.specs.Calling.{CountsCreate, CountsDelete, Edits, Lists, CountsReplace};

use crate::counts::{Counts, one_more};
use api_calls::{NoTool, Versions};
use drill_requests::{HUB, NAMESPACE, SPOKE, edited, object_key, shown, stamp};
use kj_value::{NoMemory, Txt};
use kube_meta::Key;
use shared_api::{Pass, SharedApi};
use std::alloc::Global;
use std::sync::Wait;

/// Creates an object at the version of a name.
pub(crate) fn create<V: Versions<Tool = NoTool> + Drop, R: Wait>(
    rt: &R,
    api: &SharedApi<V>,
    pass: &mut Pass<V>,
    counts: &mut Counts,
    version: &str,
    body: &str,
) -> Result<(), NoMemory>
    requires of { IsOf V.meaning api.now pass.old }
    requires alone { IsAlone pass.old.view }
    ensures of { IsOf V.meaning api.now pass.new }
    ensures alone { IsAlone pass.new.view }
    ensures creates { OnOk result (CountsCreate (server_of V.meaning api.now.base) version.now body.now
        (record { log = items pass.old.view.seen; counts = counts.old }) (record { log = items pass.new.view.seen; counts = counts.new })) }
{
    match api.create(rt, pass, version, NAMESPACE, body.as_bytes(), stamp()) {
        Ok(_reply) => {
            counts.created = one_more(counts.created);
            Ok(())
        }
        Err(refusal) => counts.refuse(&refusal),
    }
}

// Puts an object.
fn put<V: Versions<Tool = NoTool> + Drop, R: Wait>(
    rt: &R,
    api: &SharedApi<V>,
    pass: &mut Pass<V>,
    counts: &mut Counts,
    key: &Key,
    body: &str,
) -> Result<(), NoMemory>
    requires of { IsOf V.meaning api.now pass.old }
    requires alone { IsAlone pass.old.view }
    requires key { (object : ℕ) × (key.now ≡ object_key object) }
    ensures of { IsOf V.meaning api.now pass.new }
    ensures alone { IsAlone pass.new.view }
    ensures replaces { (object t : ℕ) (got : List ℕ) → key.now ≡ object_key object → IsEdited t got body.now
        → OnOk result (CountsReplace (server_of V.meaning api.now.base) object t got
        (record { log = items pass.old.view.seen; counts = counts.old }) (record { log = items pass.new.view.seen; counts = counts.new })) }
{
    match api.replace(rt, pass, SPOKE, key, body.as_bytes()) {
        Ok(_reply) => {
            counts.replaced = one_more(counts.replaced);
            Ok(())
        }
        Err(refusal) => counts.refuse(&refusal),
    }
}

// Puts back what was got, with another `hostPort`.
fn put_back<V: Versions<Tool = NoTool> + Drop, R: Wait>(
    rt: &R,
    alloc: Global,
    api: &SharedApi<V>,
    pass: &mut Pass<V>,
    counts: &mut Counts,
    key: &Key,
    got: &str,
    value: u64,
) -> Result<(), NoMemory>
    requires of { IsOf V.meaning api.now pass.old }
    requires alone { IsAlone pass.old.view }
    requires key { (object : ℕ) × (key.now ≡ object_key object) }
    ensures of { IsOf V.meaning api.now pass.new }
    ensures alone { IsAlone pass.new.view }
    ensures replaces { (object : ℕ) → key.now ≡ object_key object
        → OnOk result (CountsReplace (server_of V.meaning api.now.base) object value got.now
        (record { log = items pass.old.view.seen; counts = counts.old }) (record { log = items pass.new.view.seen; counts = counts.new })) }
{
    let body = edited(alloc, got, value)?;
    put(rt, api, pass, counts, key, body.as_str())
}

// Gets the object of a key, and puts it back with another `hostPort`.
fn edit_at<V: Versions<Tool = NoTool> + Drop, R: Wait>(
    rt: &R,
    alloc: Global,
    api: &SharedApi<V>,
    pass: &mut Pass<V>,
    counts: &mut Counts,
    key: &Key,
    value: u64,
) -> Result<(), NoMemory>
    requires of { IsOf V.meaning api.now pass.old }
    requires alone { IsAlone pass.old.view }
    requires key { (object : ℕ) × (key.now ≡ object_key object) }
    ensures of { IsOf V.meaning api.now pass.new }
    ensures alone { IsAlone pass.new.view }
    ensures edits { (object : ℕ) → key.now ≡ object_key object
        → OnOk result (Edits (server_of V.meaning api.now.base) object value
        (record { log = items pass.old.view.seen; counts = counts.old }) (record { log = items pass.new.view.seen; counts = counts.new })) }
{
    match api.get(rt, pass, SPOKE, key) {
        Ok(reply) => put_back(
            rt,
            alloc,
            api,
            pass,
            counts,
            key,
            reply.text.as_str(),
            value,
        ),
        Err(refused) => counts.refuse(&refused),
    }
}

/// Gets an object, and puts it back with another `hostPort`.
pub(crate) fn edit<V: Versions<Tool = NoTool> + Drop, R: Wait>(
    rt: &R,
    alloc: Global,
    api: &SharedApi<V>,
    pass: &mut Pass<V>,
    counts: &mut Counts,
    object: u64,
    value: u64,
) -> Result<(), NoMemory>
    requires of { IsOf V.meaning api.now pass.old }
    requires alone { IsAlone pass.old.view }
    ensures of { IsOf V.meaning api.now pass.new }
    ensures alone { IsAlone pass.new.view }
    ensures edits { OnOk result (Edits (server_of V.meaning api.now.base) object value
        (record { log = items pass.old.view.seen; counts = counts.old }) (record { log = items pass.new.view.seen; counts = counts.new })) }
{
    let key = object_key(alloc, object)?;
    edit_at(rt, alloc, api, pass, counts, &key, value)
}

// Deletes the object of a key.
fn delete_at<V: Versions<Tool = NoTool> + Drop, R: Wait>(
    rt: &R,
    api: &SharedApi<V>,
    pass: &mut Pass<V>,
    counts: &mut Counts,
    key: &Key,
) -> Result<(), NoMemory>
    requires of { IsOf V.meaning api.now pass.old }
    requires alone { IsAlone pass.old.view }
    ensures of { IsOf V.meaning api.now pass.new }
    ensures alone { IsAlone pass.new.view }
    ensures deletes { (object : ℕ) → key.now ≡ object_key object
        → OnOk result (CountsDelete (server_of V.meaning api.now.base) object
        (record { log = items pass.old.view.seen; counts = counts.old }) (record { log = items pass.new.view.seen; counts = counts.new })) }
{
    match api.delete(rt, pass, HUB, key, b"", stamp()) {
        Ok(_reply) => {
            counts.deleted = one_more(counts.deleted);
            Ok(())
        }
        Err(refusal) => counts.refuse(&refusal),
    }
}

/// Deletes an object.
pub(crate) fn delete<V: Versions<Tool = NoTool> + Drop, R: Wait>(
    rt: &R,
    alloc: Global,
    api: &SharedApi<V>,
    pass: &mut Pass<V>,
    counts: &mut Counts,
    object: u64,
) -> Result<(), NoMemory>
    requires of { IsOf V.meaning api.now pass.old }
    requires alone { IsAlone pass.old.view }
    ensures of { IsOf V.meaning api.now pass.new }
    ensures alone { IsAlone pass.new.view }
    ensures deletes { OnOk result (CountsDelete (server_of V.meaning api.now.base) object
        (record { log = items pass.old.view.seen; counts = counts.old }) (record { log = items pass.new.view.seen; counts = counts.new })) }
{
    let key = object_key(alloc, object)?;
    delete_at(rt, api, pass, counts, &key)
}

/// Lists all objects: how many there are, and the resource version. A list that is refused shows none.
pub(crate) fn list<V: Versions<Tool = NoTool> + Drop, R: Wait>(
    rt: &R,
    alloc: Global,
    api: &SharedApi<V>,
    pass: &mut Pass<V>,
) -> Result<(usize, Txt), NoMemory>
    requires of { IsOf V.meaning api.now pass.old }
    requires alone { IsAlone pass.old.view }
    ensures lists { IfOk result (λ s. Lists (server_of V.meaning api.now.base) (items pass.old.view.seen) s.0 s.1.bytes) }
{
    match api.list(rt, pass, SPOKE, None, 0, None) {
        Ok(reply) => shown(alloc, reply.text.as_str()),
        Err(refusal) => {
            let mut none = Counts::none();
            none.refuse(&refusal)?;
            Ok((0, Txt::of(alloc, "")?))
        }
    }
}
