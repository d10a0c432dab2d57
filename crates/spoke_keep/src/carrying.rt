//! Annotations of an object, carried along: those of other spokes are judged, and what has no place is left.
ghost use Rattle.std.specs.Prelude.{◌≡◌, Some, IfOk, IfErr, OnOk, option_map};
ghost use Rattle.kj_value.specs.Texts.{bytes_of};
ghost use Rattle.hub_cells.specs.Side as sides;
ghost use Rattle.keep_laws.specs.FittedBody.{IsBodyOf};
ghost use Rattle.keep_laws.specs.Keys.{key_kind};
ghost use Rattle.keep_laws.specs.Notes.{with_note};
ghost use Rattle.keep_laws.specs.WholeHub.{IsHubBody};
ghost use Rattle.keep_laws.specs.Judging.{IsJudged, is_own, SpokeNote, OtherNote, Carries};
ghost use Rattle.keep_laws.specs.Over.{HubIsRead};
ghost use Rattle.spoke_keep.specs.inner.Seen.{own_name, fate_note, IsCarried};
ghost use Rattle.spoke_keep.specs.Fault.{IsBadText, IsBadOther, IsBadRead, IsFaultOf};

use crate::fault::KeepFault;
use crate::keys::{Kind, is_own, kind_of};
use crate::notes::{read_note, write_note};
use crate::spokes::{Spoke, Spokes};
use hub_cells::Side;
use keep_bodies::living;
use keep_laws::object_laws::given;
use kj_value::{JFields, NoMemory, TextField, TextMap, Txt};
use std::alloc::Global;

// What becomes of an annotation.
#[derive(Drop)]
pub(crate) enum Fate {
    Stays,
    Becomes(Txt),
    Goes,
}

// What is alive of what a spoke's annotation keeps, beside this body of the hub.
fn judged(
    alloc: Global,
    s: &Spoke,
    body: &JFields,
    name: &str,
    text: &str,
) -> Result<Option<Txt>, KeepFault>
    requires { IsBodyOf sides.hub s.now.fit body.now }
    ensures ok { IfOk result (λ o. IsJudged s.now body.now (Some text.now) (option_map bytes_of o)) }
    ensures err { IfErr result (IsBadText name.now text.now) }
{
    given();
    let fitted = s.fitted();
    let _ = fitted.cells();
    let _ = body.len();
    let kept = match read_note(alloc, name, text) {
        Ok(kept) => kept,
        Err(fault) => return Err(fault),
    };
    let lives = match living(alloc, fitted, Side::Hub, body, kept) {
        Ok(lives) => lives,
        Err(NoMemory) => return Err(KeepFault::NoMemory),
    };
    let note = write_note(alloc, &lives);
    drop(lives);
    match note {
        Ok(note) => Ok(note),
        Err(NoMemory) => Err(KeepFault::NoMemory),
    }
}

fn spoke_fate(
    alloc: Global,
    s: &Spoke,
    own: Option<&Spoke>,
    body: &JFields,
    name: &str,
    text: &str,
) -> Result<Fate, KeepFault>
    requires { IsBodyOf sides.hub s.now.fit body.now }
    ensures ok { IfOk result (λ f. SpokeNote (is_own (own_name own.entry) s.entry.now.name) s.entry.now
        body.entry.now (Some text.entry.now) (fate_note text.entry.now f)) }
    ensures err { IfErr result (IsBadOther (is_own (own_name own.entry) s.entry.now.name)
        name.entry.now text.entry.now) }
{
    let own_side = is_own(s, own);
    if own_side {
        return Ok(Fate::Goes);
    }
    match judged(alloc, s, body, name, text) {
        Ok(Some(left)) => Ok(Fate::Becomes(left)),
        Ok(None) => Ok(Fate::Goes),
        Err(fault) => Err(fault),
    }
}

fn fate_of(
    alloc: Global,
    all: &Spokes,
    own: Option<&Spoke>,
    body: &JFields,
    name: &str,
    text: &str,
) -> Result<Fate, KeepFault>
    requires { IsHubBody all.now.items body.now }
    ensures ok { IfOk result (λ f. OtherNote (own_name own.entry) body.entry.now
        (key_kind all.entry.now name.entry.now) (Some text.entry.now) (fate_note text.entry.now f)) }
    ensures err { IfErr result (IsBadRead (own_name own.entry)
        (key_kind all.entry.now name.entry.now) name.entry.now text.entry.now) }
{
    match kind_of(all, name) {
        Kind::Plain => Ok(Fate::Stays),
        Kind::Hub => Ok(Fate::Goes),
        Kind::NoSpoke => Ok(Fate::Goes),
        Kind::OfSpoke(s) => spoke_fate(alloc, s, own, body, name, text),
    }
}

fn move_one(t: TextField, fate: Fate, notes: &mut TextMap) -> Result<(), NoMemory>
    ensures { OnOk result (notes.new ≡ with_note t.name.bytes (fate_note t.value.bytes fate) notes.old) }
{
    let TextField { name, value } = t;
    match fate {
        Fate::Stays => notes.set(name, value),
        Fate::Becomes(text) => notes.set(name, text),
        Fate::Goes => Ok(()),
    }
}

// One annotation, carried along beside those that are there.
fn carry_one(
    alloc: Global,
    all: &Spokes,
    own: Option<&Spoke>,
    body: &JFields,
    t: TextField,
    notes: &mut TextMap,
) -> Result<(), KeepFault>
    requires { IsHubBody all.now.items body.now }
    ensures ok { OnOk result (IsCarried all.entry.now (own_name own.entry) body.entry.now t.name.bytes t.value.bytes notes.old notes.new) }
    ensures err { IfErr result (IsBadRead (own_name own.entry)
        (key_kind all.entry.now t.name.bytes) t.name.bytes t.value.bytes) }
{
    match fate_of(alloc, all, own, body, t.name.as_str(), t.value.as_str()) {
        Ok(fate) => match move_one(t, fate, notes) {
            Ok(()) => Ok(()),
            Err(NoMemory) => Err(KeepFault::NoMemory),
        },
        Err(fault) => {
            drop(t);
            Err(fault)
        }
    }
}

/// The annotations that an object of the side `own` keeps at the hub, where its body is this one. They are moved.
pub(crate) fn carried_over(
    alloc: Global,
    all: &Spokes,
    own: Option<&Spoke>,
    body: &JFields,
    annotations: TextMap,
) -> Result<TextMap, KeepFault>
    requires body { IsHubBody all.now.items body.now }
    requires hub { HubIsRead (own_name own) annotations }
    ensures ok { IfOk result (Carries all.entry.now (own_name own.entry) body.entry.now annotations) }
    ensures err { IfErr result (IsFaultOf all.entry.now (own_name own.entry) annotations) }
{
    let mut notes = TextMap::new(alloc);
    for t in annotations.into_vec() {
        match carry_one(alloc, all, own, body, t, &mut notes) {
            Ok(()) => {}
            Err(fault) => {
                drop(notes);
                return Err(fault);
            }
        }
    }
    Ok(notes)
}
