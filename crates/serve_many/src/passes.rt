//! Passes of connections and workers.
ghost use Rattle.std.specs.Prelude.{◌≡◌, MatchOption};
ghost use Rattle.shared_api.specs.Passes.{IsOf};
ghost use Rattle.turn_cell.specs.Turns.{IsNew};
ghost use Rattle.turn_cell.specs.Views.{halved};

use api_calls::{Tools, Versions};
use shared_api::{Pass, SharedApi};
use std::alloc::Global;
use std::sync::Wait;

// A pass of its own, with a tool of its own. Where there is no memory for either there is none, and `pass` is as it was.
pub(crate) fn make_pass<V: Versions + Drop, M: Tools<V::Tool>, R: Wait>(
    rt: &R,
    alloc: Global,
    api: &SharedApi<V>,
    pass: &mut Pass<V>,
    tools: &mut M,
) -> Option<Pass<V>>
    requires of { IsOf V.meaning api.now pass.old }
    ensures of { IsOf V.meaning api.now pass.new }
    ensures made { MatchOption result (pass.new ≡ pass.old) (λ p. IsOf V.meaning api.now p × (pass.new.view ≡ halved pass.old.view) × IsNew pass.old.view p.view) }
{
    let Ok(tool) = tools.make(alloc) else {
        return None;
    };
    match api.new_pass(rt, pass, tool) {
        Ok(own) => Some(own),
        Err(_) => None,
    }
}
