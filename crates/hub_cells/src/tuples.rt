//! A side's values again.
ghost use Rattle.std.specs.Prelude.{◌≡◌, IfOk, option_map};
ghost use Rattle.kj_value.specs.Seen.{json};
ghost use Rattle.hub_cells.specs.Seen.{tuple};

use crate::cell::Tuple;
use kj_value::{JVal, NoMemory, copy};
use std::alloc::Global;

fn copy_value(alloc: Global, value: &Option<JVal>) -> Result<Option<JVal>, NoMemory>
    ensures { IfOk result (λ o. option_map json o ≡ option_map json value.now) }
{
    match value {
        Some(v) => Ok(Some(copy(alloc, v)?)),
        None => Ok(None),
    }
}

/// The same values again, in memory of their own.
pub fn copy_tuple(alloc: Global, values: &Tuple) -> Result<Tuple, NoMemory>
    ensures { IfOk result (λ t. tuple t ≡ tuple values.now) }
{
    match values {
        Tuple::Empty => Ok(Tuple::Empty),
        Tuple::One(v) => Ok(Tuple::One(copy_value(alloc, v)?)),
        Tuple::Two(v, w) => {
            let first = copy_value(alloc, v)?;
            let second = copy_value(alloc, w)?;
            Ok(Tuple::Two(first, second))
        }
    }
}
