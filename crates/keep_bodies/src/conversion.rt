//! An object with its kept entries, converted, and its entries without the dead ones.
ghost use Rattle.std.specs.Prelude.{◌≡◌, true, IfOk};
ghost use Rattle.kept_entries.specs.Entry.{are_in_order};
ghost use Rattle.hub_cells.specs.Seen.{side};
ghost use Rattle.keep_laws.specs.Whole.{marks_of};
ghost use Rattle.keep_laws.specs.Settle.{IsAllowed, settled, converted};
ghost use Rattle.keep_bodies.specs.Held.{held};

use crate::left::Left;
use crate::level::{Made, level_over};
use crate::sorting::sort;
use crate::tuples::other;
use crate::under::turn_all;
use hub_cells::{Fitted, Side};
use keep_laws::body_laws::{converting, rising_entries};
use kept_entries::Kept;
use kj_value::{JFields, NoMemory};
use std::alloc::Global;

/// A body of one side, and the entries that are kept beside it for the other.
#[derive(Drop)]
pub struct KeptBody {
    pub fields: JFields,
    pub kept: Kept,
}

/// The object of the other side: each cell's kept values where an entry is alive, else the values that
/// match, else what is shown, with what it is shown for kept in an entry. Entries that are dead have no
/// part in it. Each tuple of the body has to be one that its side allows, and the entries in order.
pub fn convert(
    alloc: Global,
    f: &Fitted,
    from: Side,
    x: &JFields,
    kept: &Kept,
) -> Result<KeptBody, NoMemory>
    requires allowed { IsAllowed (side from) f.now.level (marks_of (side from) f.now.level (held x.now kept.now)) }
    requires order { are_in_order kept.now ≡ true }
    ensures { IfOk result (λ r. held r.fields r.kept
        ≡ converted (side from) f.now.level (held x.now kept.now)) }
{
    converting();
    rising_entries();
    let _ = f.cells();
    let left = Left {
        entries: kept.as_slice(),
        depth: 0,
    };
    let made = level_over(alloc, f, from, x, &left)?;
    let Made { fields, entries } = made;
    let mut sorted = turn_all(alloc, entries)?;
    sort(&mut sorted)?;
    Ok(KeptBody {
        fields,
        kept: Kept::from_vec(sorted),
    })
}

/// The entries beside the body that are alive, in their order. Each tuple of the body has to be one that
/// its side allows, and the entries in order.
pub fn living(
    alloc: Global,
    f: &Fitted,
    on: Side,
    x: &JFields,
    kept: Kept,
) -> Result<Kept, NoMemory>
    requires allowed { IsAllowed (side on) f.now.level (marks_of (side on) f.now.level (held x.now kept)) }
    requires order { are_in_order kept ≡ true }
    ensures { IfOk result (λ k. k ≡ (settled (side on) f.now.level (held x.now kept)).entries) }
{
    converting();
    rising_entries();
    let _ = f.cells();
    let there = convert(alloc, f, on, x, &kept)?;
    let KeptBody {
        fields,
        kept: beside,
    } = there;
    let back = convert(alloc, f, other(on), &fields, &beside)?;
    let KeptBody {
        fields: _,
        kept: lives,
    } = back;
    Ok(lives)
}
