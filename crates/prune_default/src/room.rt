//! How much filling may still make.
ghost use Rattle.std.specs.Prelude.{◌≡◌, ◌≤◌, ◌<◌, ◌+◌, length, MatchOption, OnOk};
ghost use Rattle.kj_value.specs.Json.{items_of, members_of};
ghost use Rattle.kj_value.specs.Seen.{json};
ghost use Rattle.prune_default.specs.Size.{size, items_size, members_size, most_made};

use kj_value::{JFields, JItems, JVal, NoMemory};

/// By how many bytes a value grows at most where it is filled, in the size of `Size`, which is no more than that of its text. An
/// object that is admitted measures no more than 262,144 bytes, and what filling made is a part of it, so no such object comes
/// near; a body that asks for more is answered as want of memory before it takes that memory.
pub const FILLING_ROOM: u64 = 1_048_576;

/// The room at first.
pub(crate) fn whole_room() -> u64
    ensures { result ≡ most_made }
{
    FILLING_ROOM
}

// What is left of the room beside so many bytes, or `None` where there are fewer.
fn beside(room: u64, bytes: u64) -> Option<u64>
    ensures { MatchOption result (room < bytes) (λ left. left + bytes ≡ room) }
{
    if bytes > room {
        None
    } else {
        Some(room - bytes)
    }
}

// What is left of the room beside the value, or `None` where the value is larger.
#[cycle(size)]
#[tactic(auto, using(kj_value::specs::laws::Inside::item_depth, kj_value::specs::laws::Inside::field_depth))]
fn beside_value(room: u64, v: &JVal) -> Option<u64>
    ensures { MatchOption result (room < size (json v.now)) (λ left. left + size (json v.now) ≡ room) }
{
    match v {
        JVal::Null => beside(room, 1),
        JVal::Bool(_) => beside(room, 1),
        JVal::Int(_) => beside(room, 1),
        JVal::Text(t) => beside_text(room, t.as_str()),
        JVal::List(items) => beside_items(room, items),
        JVal::Obj(fields) => beside_fields(room, fields),
    }
}

fn beside_text(room: u64, text: &str) -> Option<u64>
    ensures { MatchOption result (room < 2 + length text.now) (λ left. left + (2 + length text.now) ≡ room) }
{
    let left = beside(room, 2)?;
    beside(left, text.len() as u64)
}

#[cycle(size)]
#[tactic(auto, using(kj_value::specs::laws::Inside::item_depth, kj_value::specs::laws::Inside::field_depth))]
fn beside_items(room: u64, items: &JItems) -> Option<u64>
    ensures { MatchOption result (room < 1 + items_size (items_of items.now))
        (λ left. left + (1 + items_size (items_of items.now)) ≡ room) }
{
    let mut left = beside(room, 1)?;
    for x in items.as_slice() {
        let for_item = beside(left, 1)?;
        left = beside_value(for_item, x)?;
    }
    Some(left)
}

// What is left beside a name, what stands around it, and its value.
#[cycle(size)]
#[tactic(auto, using(kj_value::specs::laws::Inside::item_depth, kj_value::specs::laws::Inside::field_depth))]
fn beside_field(room: u64, name: &str, v: &JVal) -> Option<u64>
    ensures { MatchOption result (room < length name.now + 4 + size (json v.now))
        (λ left. left + (length name.now + 4 + size (json v.now)) ≡ room) }
{
    let for_name = beside(room, 4)?;
    let for_value = beside(for_name, name.len() as u64)?;
    beside_value(for_value, v)
}

#[cycle(size)]
#[tactic(auto, using(kj_value::specs::laws::Inside::item_depth, kj_value::specs::laws::Inside::field_depth))]
fn beside_fields(room: u64, fields: &JFields) -> Option<u64>
    ensures { MatchOption result (room < 1 + members_size (members_of fields.now))
        (λ left. left + (1 + members_size (members_of fields.now)) ≡ room) }
{
    let mut left = beside(room, 1)?;
    for f in fields.as_slice() {
        left = beside_field(left, f.name.as_str(), &f.value)?;
    }
    Some(left)
}

/// Takes room for a value, or answers that there isn't as much.
pub(crate) fn take_value(room: &mut u64, v: &JVal) -> Result<(), NoMemory>
    ensures { OnOk result (room.new + size (json v.now) ≡ room.old) }
{
    match beside_value(*room, v) {
        Some(left) => {
            *room = left;
            Ok(())
        }
        None => Err(NoMemory),
    }
}

/// Takes room for a name with its value, or answers that there isn't as much.
pub(crate) fn take_field(room: &mut u64, name: &str, v: &JVal) -> Result<(), NoMemory>
    ensures { OnOk result (room.new + (length name.now + 4 + size (json v.now)) ≡ room.old) }
{
    match beside_field(*room, name, v) {
        Some(left) => {
            *room = left;
            Ok(())
        }
        None => Err(NoMemory),
    }
}
