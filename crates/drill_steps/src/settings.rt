//! The requests that switch the storage version and start a migration to it. No other calls the server beside them.
ghost use Rattle.std.specs.Prelude.{◌≡◌, ℕ, OnOk};
ghost use Rattle.api_calls.specs.Item.{items};
ghost use Rattle.turn_cell.specs.Views.{IsAlone};
ghost use Rattle.shared_api.specs.Base.{server_of};
ghost use Rattle.shared_api.specs.Passes.{IsOf};
ghost use Rattle.drill_requests.specs.Bodies.{start_body};
ghost use Rattle.drill_steps.specs.Calling.{CountsSet, CountsStart, Switches};

use crate::counts::Counts;
use crate::switching::switch_body;
use api_calls::{NoTool, Versions};
use drill_requests::start_body;
use kj_value::NoMemory;
use shared_api::{Pass, SharedApi};
use std::alloc::Global;
use std::sync::Wait;

// Sets the storage version to the other one.
fn set<V: Versions<Tool = NoTool> + Drop, R: Wait>(
    rt: &R,
    api: &SharedApi<V>,
    pass: &mut Pass<V>,
    counts: &mut Counts,
    switches: u64,
) -> Result<(), NoMemory>
    requires of { IsOf V.meaning api.now pass.old }
    requires alone { IsAlone pass.old.view }
    ensures of { IsOf V.meaning api.now pass.new }
    ensures alone { IsAlone pass.new.view }
    ensures sets { OnOk result (CountsSet (server_of V.meaning api.now.base) switches
        (record { log = items pass.old.view.seen; counts = counts.old }) (record { log = items pass.new.view.seen; counts = counts.new })) }
{
    match api.set_versions(rt, pass, switch_body(switches).as_bytes()) {
        Ok(_reply) => Ok(()),
        Err(refusal) => counts.refuse(&refusal),
    }
}

// Starts a migration by a body.
fn start_by<V: Versions<Tool = NoTool> + Drop, R: Wait>(
    rt: &R,
    api: &SharedApi<V>,
    pass: &mut Pass<V>,
    counts: &mut Counts,
    body: &str,
) -> Result<(), NoMemory>
    requires of { IsOf V.meaning api.now pass.old }
    requires alone { IsAlone pass.old.view }
    ensures of { IsOf V.meaning api.now pass.new }
    ensures alone { IsAlone pass.new.view }
    ensures starts { (switches : ℕ) → body.now ≡ start_body switches
        → OnOk result (CountsStart (server_of V.meaning api.now.base) switches
        (record { log = items pass.old.view.seen; counts = counts.old }) (record { log = items pass.new.view.seen; counts = counts.new })) }
{
    match api.start_migration(rt, pass, body.as_bytes()) {
        Ok(_reply) => Ok(()),
        Err(refusal) => counts.refuse(&refusal),
    }
}

// Starts a migration.
fn start<V: Versions<Tool = NoTool> + Drop, R: Wait>(
    rt: &R,
    alloc: Global,
    api: &SharedApi<V>,
    pass: &mut Pass<V>,
    counts: &mut Counts,
    switches: u64,
) -> Result<(), NoMemory>
    requires of { IsOf V.meaning api.now pass.old }
    requires alone { IsAlone pass.old.view }
    ensures of { IsOf V.meaning api.now pass.new }
    ensures alone { IsAlone pass.new.view }
    ensures starts { OnOk result (CountsStart (server_of V.meaning api.now.base) switches
        (record { log = items pass.old.view.seen; counts = counts.old }) (record { log = items pass.new.view.seen; counts = counts.new })) }
{
    let body = start_body(alloc, switches)?;
    start_by(rt, api, pass, counts, body.as_str())
}

/// Switches the storage version behind so many switches, and starts a migration.
pub(crate) fn switch<V: Versions<Tool = NoTool> + Drop, R: Wait>(
    rt: &R,
    alloc: Global,
    api: &SharedApi<V>,
    pass: &mut Pass<V>,
    counts: &mut Counts,
    switches: u64,
) -> Result<(), NoMemory>
    requires of { IsOf V.meaning api.now pass.old }
    requires alone { IsAlone pass.old.view }
    ensures of { IsOf V.meaning api.now pass.new }
    ensures alone { IsAlone pass.new.view }
    ensures switches { OnOk result (Switches (server_of V.meaning api.now.base) switches
        (record { log = items pass.old.view.seen; counts = counts.old }) (record { log = items pass.new.view.seen; counts = counts.new })) }
{
    set(rt, api, pass, counts, switches)?;
    start(rt, alloc, api, pass, counts, switches)
}
