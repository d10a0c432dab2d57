//! Laws of spans.
ghost use Rattle.std.specs.Prelude.{◌≡◌, ℕ, List, Option};
ghost use mathlib.Core.List.{IsPrefix};
ghost use Rattle.api_calls.specs.Item.{Logged};
ghost use Rattle.edge_io.specs.Connections.{Ending};
ghost use Rattle.serve_spans.specs.Spans.{Span, AllServed};
ghost use Rattle.serve_many.specs.Answered.{IsAnswered, front_of, sides};

use api_calls::{NoTool, Tool, Versions};
use edge_io::Ears;
use shared_api::SharedApi;

/// A longer list keeps what is known of the connections that were served.
pub fn stays_served<V: Versions + Drop, A: Ears>(api: &SharedApi<V>)
    ensures { (told : Option (List ℕ)) (q : List Logged) (z : List Logged) (es : List Ending) (ss : List Span) → IsPrefix q z
        → AllServed (IsAnswered V.Tool.faults (sides A.In.left A.In.most A.Out.written A.Out.flushed) (front_of V.meaning api.now.base told)) q es ss → AllServed (IsAnswered V.Tool.faults (sides A.In.left A.In.most A.Out.written A.Out.flushed) (front_of V.meaning api.now.base told)) z es ss }
{
    let _api = api;
}

/// A definition that asks nothing of the outside has no faults, so the last part of each span is 0.
pub fn never_rises<V: Versions + Drop, A: Ears>(api: &SharedApi<V>)
    ensures { (told : Option (List ℕ)) (n : ℕ) (p : List Logged) (q : List Logged) (rose : ℕ) (e : Ending)
        → IsAnswered ⟦<NoTool as Tool>⟧.faults (sides A.In.left A.In.most A.Out.written A.Out.flushed) (front_of V.meaning api.now.base told) n p q rose e → rose ≡ 0 }
{
    let _api = api;
}
