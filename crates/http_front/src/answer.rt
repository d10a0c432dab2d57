//! From a request to its answer.
ghost use Rattle.std.specs.Prelude.{◌≡◌, ◌<◌, ◌≤◌, ℕ, Some, length};
ghost use Rattle.http_wire.specs.Inboxes.{LiesIn, request_at};
ghost use Rattle.http_wire.specs.Response.{HasPhrase};
ghost use Rattle.http_routes.specs.Routes.{Routes};
ghost use Rattle.http_routes.specs.Views.{call_view, route_of};
ghost use Rattle.shared_api.specs.Base.{server_of};
ghost use Rattle.shared_api.specs.Passes.{IsOf};
ghost use Rattle.request_replies.specs.Replies.{about};
ghost use Rattle.http_front.specs.Steps.{StepAnswers, IsSameBut, Quiet, point_of};
ghost use Rattle.http_front.specs.Going.{answer_of, PassComes, MayRoute};

use crate::call::make_call;
use crate::reply::{Answer, refused_by, told};
use api_calls::{Refusal, Versions};
use edge_io::Clock;
use http_routes::{Call, Route, find_call};
use http_wire::{Inbox, RequestParts};
use request_replies::About;
use shared_api::{Pass, SharedApi};
use std::alloc::Global;
use std::sync::Wait;

// What the refusals of a call are about.
fn about_of(call: &Call<'_>) -> About
    ensures { result ≡ about (call_view call.now) }
{
    match call {
        Call::Get { .. } => About::Objects,
        Call::List { .. } => About::Objects,
        Call::Create { .. } => About::Objects,
        Call::Replace { .. } => About::Objects,
        Call::Delete { .. } => About::Objects,
        Call::Group => About::Objects,
        Call::Crd => About::Objects,
        Call::SetVersions { .. } => About::Objects,
        Call::Trim { .. } => About::Objects,
        Call::Start { .. } => About::Migrations,
        Call::Migration { .. } => About::Migrations,
        Call::Migrations => About::Migrations,
        Call::Raw { .. } => About::Objects,
    }
}

// The answer of a route.
fn answer_route<V: Versions + Drop, C: Clock, R: Wait>(
    rt: &R,
    alloc: Global,
    api: &SharedApi<V>,
    pass: &mut Pass<V>,
    clock: &C,
    route: Route<'_>,
) -> Answer
    requires of { IsOf V.meaning api.now pass.old }
    requires may { MayRoute (V.meaning api.now.base.versions) (route_of route) }
    ensures of { IsOf V.meaning api.now pass.new }
    ensures same { IsSameBut pass.old.view pass.new.view }
    ensures comes { (n : ℕ) → pass.old.view.number ≡ Some n
        → PassComes (record { server = server_of V.meaning api.now.base; told = C.told clock.now }) (V.Tool.faults pass.old.tool < V.Tool.faults pass.new.tool) n
        pass.old.view pass.new.view (route_of route.entry) (answer_of result) }
    ensures phrase { HasPhrase (answer_of result).code }
    ensures rises { V.Tool.faults pass.old.tool ≤ V.Tool.faults pass.new.tool }
{
    match route {
        Route::Calls(call) => {
            let about = about_of(&call);
            let came = make_call(rt, api, pass, clock, call);
            told(alloc, api.versions(), about, came)
        }
        Route::NoResource => {
            refused_by(alloc, api.versions(), About::Objects, Refusal::NoResource)
        }
        Route::MethodNotAllowed => Answer::NoMethod,
        Route::BadRequest(why) => {
            refused_by(
                alloc,
                api.versions(),
                About::Objects,
                Refusal::BadRequest { why },
            )
        }
    }
}

/// Answers the request that stands at the front of the inbox.
pub fn answer_request<V: Versions + Drop, C: Clock, R: Wait>(
    rt: &R,
    alloc: Global,
    api: &SharedApi<V>,
    pass: &mut Pass<V>,
    clock: &C,
    inbox: &Inbox,
    parts: RequestParts,
) -> Answer
    requires of { IsOf V.meaning api.now pass.old }
    requires method { LiesIn (length inbox.now.bytes) parts.method }
    requires target { LiesIn (length inbox.now.bytes) parts.target }
    requires body { LiesIn (length inbox.now.bytes) parts.body }
    ensures of { IsOf V.meaning api.now pass.new }
    ensures same { IsSameBut pass.old.view pass.new.view }
    ensures quiet { (n : ℕ) → pass.old.view.number ≡ Some n → Quiet n pass.old.view pass.new.view }
    ensures answers { (n : ℕ) → pass.old.view.number ≡ Some n
        → StepAnswers (record { server = server_of V.meaning api.now.base; told = C.told clock.now }) n
        (point_of V.Tool.faults pass.old) (request_at inbox.now.bytes parts) (answer_of result) (point_of V.Tool.faults pass.new) }
    ensures phrase { HasPhrase (answer_of result).code }
    ensures rises { V.Tool.faults pass.old.tool ≤ V.Tool.faults pass.new.tool }
{
    let method = inbox.part(parts.method);
    let target = inbox.part(parts.target);
    let body = inbox.part(parts.body);
    match find_call(alloc, api.versions(), method, target, body) {
        Ok(route) => answer_route(rt, alloc, api, pass, clock, route),
        Err(_) => Answer::NoMemory,
    }
}
