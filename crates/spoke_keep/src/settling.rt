//! An object without what has no place in it, and completed.
ghost use Rattle.std.specs.Prelude.{◌≡◌, ℕ, Some, None, slice_get, IfOk, IfErr};
ghost use Rattle.kube_meta.specs.View.{object_of};
ghost use Rattle.hub_cells.specs.Side as sides;
ghost use Rattle.keep_laws.specs.FittedBody.{IsBodyOf};
ghost use Rattle.keep_laws.specs.Spokes as laws;
ghost use Rattle.keep_laws.specs.WholeHub.{IsHubBody};
ghost use Rattle.keep_laws.specs.Settling.{completed_hub, SettlesAtHub, SettlesAtSpoke};
ghost use Rattle.keep_laws.specs.Place.{StandsAt, Settles};
ghost use Rattle.spoke_keep.specs.Fault.{IsFaultOf, IsFaultAt};

use crate::carrying::carried_over;
use crate::fault::KeepFault;
use crate::form::formed;
use crate::hub::over;
use crate::spokes::{Spoke, Spokes};
use hub_fills::Fills;
use keep_bodies::complete;
use keep_laws::object_laws::{given, going_over};
use kj_value::{JFields, NoMemory, TextMap};
use kube_meta::Object;
use std::alloc::Global;
use std::mem;

/// The object, which stands at place `v` or with no place at the hub, without the annotation of its own side,
/// those of no known spoke, and dead entries, and with the names that aren't there and have a default in some
/// version: at the hub that default, and at a spoke the form of the whole object that it becomes. Nothing else
/// changes. `BadKept` comes exactly where an annotation that is read spells no entries.
pub fn settle(alloc: Global, all: &Spokes, v: Option<u8>, x: Object) -> Result<Object, KeepFault>
    requires { StandsAt all.now v (object_of x) }
    ensures settles { IfOk result (λ y. Settles all.now v (object_of x) (object_of y)) }
    ensures err { IfErr result (IsFaultAt all.now v x.meta.annotations) }
{
    match v {
        Some(v) => settle_spoke(alloc, all, all.at(v), all.fills_at(v), x),
        None => settle_hub(alloc, all, x),
    }
}

// The body with the names that aren't there and have a default in some version.
fn complete_first(alloc: Global, all: &Spokes, body: JFields) -> Result<JFields, NoMemory>
    requires { IsHubBody all.now.items body }
    ensures { IfOk result (λ full. full ≡ completed_hub all.now body) }
{
    given();
    let _ = body.len();
    if all.items().len() == 0 {
        return Ok(body);
    }
    let first = all.at(0);
    complete(alloc, first.fitted(), all.fills_at(0), body)
}

fn settle_hub(alloc: Global, all: &Spokes, x: Object) -> Result<Object, KeepFault>
    requires { IsHubBody all.now.items x.body }
    ensures settles { IfOk result (λ y. SettlesAtHub all.now (object_of x) (object_of y)) }
    ensures err { IfErr result (IsFaultOf all.now None x.meta.annotations) }
{
    given();
    let _ = all.items();
    let mut settled = x;
    let _ = settled.body.len();
    let body = mem::replace(&mut settled.body, JFields::new(alloc));
    let full = match complete_first(alloc, all, body) {
        Ok(full) => full,
        Err(NoMemory) => {
            drop(settled);
            return Err(KeepFault::NoMemory);
        }
    };
    let _ = full.len();
    let annotations = mem::replace(&mut settled.meta.annotations, TextMap::new(alloc));
    match carried_over(alloc, all, None, &full, annotations) {
        Ok(notes) => {
            let _ = notes.len();
            settled.meta.annotations = notes;
            settled.body = full;
            Ok(settled)
        }
        Err(fault) => {
            drop(full);
            drop(settled);
            Err(fault)
        }
    }
}

fn settle_spoke(
    alloc: Global,
    all: &Spokes,
    s: &Spoke,
    fills: &Fills,
    x: Object,
) -> Result<Object, KeepFault>
    requires place { (v : ℕ) × (slice_get all.now.items v ≡ Some s.now) }
    requires fills { fills.now ≡ laws.fills_at all.now s.now }
    requires body { IsBodyOf sides.spoke s.now.fit x.body }
    ensures settles { IfOk result (λ y. SettlesAtSpoke all.now s.now (object_of x) (object_of y)) }
    ensures err { IfErr result (IsFaultOf all.now (Some s.now.name) x.meta.annotations) }
{
    going_over();
    let _ = all.items();
    let _ = x.body.len();
    match over(alloc, all, s, fills, x) {
        Ok(hub) => match formed(alloc, all, s, hub) {
            Ok(form) => Ok(form),
            Err(NoMemory) => Err(KeepFault::NoMemory),
        },
        Err(fault) => Err(fault),
    }
}
