//! An object once more.
ghost use Rattle.std.specs.Prelude.{◌≡◌, IfOk, option_map};
ghost use Rattle.kj_value.specs.Texts.{bytes_of};
ghost use Rattle.kube_meta.specs.View.{meta_of, object_of};
ghost use Rattle.kube_meta.specs.Shapes.{shaped};

use crate::object::{Meta, Object, Shape};
use kj_value::{NoMemory, TextMap, Txt};
use std::alloc::Global;

/// The same object, in memory of its own.
pub fn copy_object(alloc: Global, o: &Object) -> Result<Object, NoMemory>
    ensures { IfOk result (λ p. object_of p ≡ object_of o.now) }
{
    let annotations = o.meta.annotations.copied(alloc)?;
    let meta = copy_meta(alloc, &o.meta, annotations)?;
    Ok(Object {
        api_version: Txt::of(alloc, o.api_version.as_str())?,
        kind: Txt::of(alloc, o.kind.as_str())?,
        meta,
        body: o.body.copied(alloc)?,
    })
}

/// What an object becomes by a shape, whose parts are moved: the kind and the other metadata are copied.
pub fn copy_shaped(alloc: Global, o: &Object, p: Shape) -> Result<Object, NoMemory>
    ensures { IfOk result (λ x. object_of x ≡ shaped p (object_of o.now)) }
{
    let Shape {
        version,
        notes,
        body,
    } = p;
    let kind = Txt::of(alloc, o.kind.as_str())?;
    let meta = copy_meta(alloc, &o.meta, notes)?;
    Ok(Object {
        api_version: version,
        kind,
        meta,
        body,
    })
}

/// The same metadata in memory of their own, with these annotations in the place of theirs.
pub fn copy_meta(alloc: Global, m: &Meta, annotations: TextMap) -> Result<Meta, NoMemory>
    ensures { IfOk result (λ n. meta_of n ≡ record (meta_of m.now) { annotations = annotations }) }
{
    let generation = m.generation;
    Ok(Meta {
        name: Txt::of(alloc, m.name.as_str())?,
        namespace: Txt::of(alloc, m.namespace.as_str())?,
        labels: m.labels.copied(alloc)?,
        annotations,
        finalizers: m.finalizers.copied(alloc)?,
        owners: m.owners.copied(alloc)?,
        created: m.created,
        deleted: m.deleted,
        generation,
        resource_version: copied_text(alloc, &m.resource_version)?,
        uid: copied_text(alloc, &m.uid)?,
    })
}

fn copied_text(alloc: Global, text: &Option<Txt>) -> Result<Option<Txt>, NoMemory>
    ensures { IfOk result (λ t. option_map bytes_of t ≡ option_map bytes_of text.now) }
{
    match text {
        Some(text) => Ok(Some(Txt::of(alloc, text.as_str())?)),
        None => Ok(None),
    }
}
