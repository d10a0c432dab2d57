//! The names that an object must have, one after the other.
ghost use Rattle.std.specs.Prelude.{◌≡◌, IfOk, option_map};
ghost use Rattle.kj_value.specs.Json.{members_of};
ghost use Rattle.rule_reading.specs.Words.{word};
ghost use Rattle.kj_value.specs.Seen.{json};
ghost use Rattle.rule_reading.specs.Shapes.{field_at, named_value, beyond};
ghost use Rattle.rule_reading.specs.Told.{answer, path_of};

use crate::spot::{Spot, Tried, here, in_name};
use crate::words::Word;
use kj_value::{JFields, JVal, NoMemory};
use std::alloc::Global;
use std::cmp::Ordering;

// The name and value at a place.
#[tactic(auto, using(crate::proofs::Places::place_is))]
pub(crate) fn place(fields: &JFields, i: usize) -> Option<(&str, &JVal)>
    ensures { option_map (λ p. (p.0.now, json p.1.now)) result
        ≡ field_at i (members_of fields.now) }
{
    fields.at(i)
}

// The value at a place, where the name must be this one.
pub(crate) fn value_at(alloc: Global, fields: &JFields, i: usize, keyword: Word) -> Tried<&JVal>
    ensures { IfOk result (λ r. answer (λ v. json v.now) r
        ≡ named_value (word keyword) (field_at i (members_of fields.now))) }
{
    let name = keyword.text();
    match place(fields, i) {
        None => Ok(Err(in_name(alloc, name, here(alloc))?)),
        Some((found, v)) => match found.cmp(name) {
            Ordering::Less => Ok(Err(in_name(alloc, found, here(alloc))?)),
            Ordering::Equal => Ok(Ok(v)),
            Ordering::Greater => Ok(Err(in_name(alloc, name, here(alloc))?)),
        },
    }
}

// The name at a place where there must be none.
pub(crate) fn beyond(alloc: Global, fields: &JFields, i: usize) -> Result<Option<Spot>, NoMemory>
    ensures { IfOk result (λ o. option_map path_of o ≡ beyond (field_at i (members_of fields.now))) }
{
    match place(fields, i) {
        None => Ok(None),
        Some((found, _)) => Ok(Some(in_name(alloc, found, here(alloc))?)),
    }
}
