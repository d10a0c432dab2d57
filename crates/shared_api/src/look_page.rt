//! A turn that copies a page and adds nothing.
ghost use Rattle.std.specs.Prelude.{◌≡◌, Some, option_copied, option_map};
ghost use Rattle.api_core.specs.Pages.{place_of};
ghost use Rattle.turn_cell.specs.Turns.{IsResting};
ghost use Rattle.shared_api.specs.Base.{server_of};
ghost use Rattle.shared_api.specs.inner.PageTurns.{LooksPage};
ghost use Rattle.shared_api.specs.declared.cell.CoreBase.{CoreBase};

use crate::cell::{CoreBase, CoreCell};
use api_calls::{Token, Versions, is_served};
use api_core::{Page, PageFault};
use std::alloc::Global;
use std::sync::Wait;
use turn_cell::{PassOf, Turn};

/// A page of the objects at one moment, copied. The arguments are those of the core's `page`.
pub(crate) fn look_page<V: Versions + Drop, R: Wait>(
    rt: &R,
    alloc: Global,
    turn: &Turn<CoreCell<V>>,
    pass: &mut PassOf<CoreCell<V>, CoreBase<V>>,
    v: u8,
    ns: Option<&str>,
    limit: u64,
    token: Option<&Token>,
) -> Result<Page, PageFault>
    requires own { pass.old.seat.table_id ≡ turn.now.table.shared.table_id }
    requires rest { IsResting pass.old.seat.me.0 }
    ensures own { pass.new.seat.table_id ≡ pass.old.seat.table_id }
    ensures rest { IsResting pass.new.seat.me.0 }
    ensures looks { (b : CoreBase V) → pass.old.seat.me.0.base ≡ Some b
        → LooksPage (server_of V.meaning b) pass.old.seat.me.0 pass.new.seat.me.0 v (option_copied ns.entry) limit
        (option_map place_of (option_copied token.entry)) result }
{
    let cell = turn.take(rt, pass);
    let (flags, _stored, _revision) = cell.core.settings();
    let page = cell.core.page(alloc, v, ns, token, limit);
    turn.give(pass, cell);
    // Asked for what its clause says: a version that is served is known.
    let _served = is_served(&flags, v);
    page
}
