//! The calls on a pass, from the calls of requests.
ghost use Rattle.std.specs.Prelude.{◌≡◌, ◌<◌, ◌≤◌, ℕ, List, option_copied};
ghost use Rattle.http_routes.specs.Views.{bytes_in, call_view};
ghost use Rattle.call_texts.specs.Told.{told};
ghost use Rattle.shared_api.specs.Answered.{CallsOn};
ghost use Rattle.shared_api.specs.Base.{server_of};
ghost use Rattle.shared_api.specs.Passes.{IsOf};
ghost use Rattle.request_replies.specs.Replies.{MayStamp};
ghost use Rattle.http_front.specs.Going.{MayCall};

use api_calls::{Refusal, Reply, Token, Versions};
use edge_io::Clock;
use http_routes::Call;
use kj_value::Txt;
use shared_api::{Pass, SharedApi};
use std::sync::Wait;

// The name of the version at a place.
fn name_at<V: Versions + Drop>(api: &SharedApi<V>, version: u8) -> &str
    requires { version < (V.meaning api.now.base.versions).count }
    ensures { result.now ≡ (V.meaning api.now.base.versions).name version }
{
    api.versions().name(version).as_str()
}

// The namespace of a list, lent.
fn namespace_of(namespace: &Option<Txt>) -> Option<&str>
    ensures { option_copied result ≡ bytes_in namespace.now }
{
    match namespace {
        Some(namespace) => Some(namespace.as_str()),
        None => None,
    }
}

// The token of a list, lent.
fn token_of(from: &Option<Token>) -> Option<&Token>
    ensures { option_copied result ≡ from.now }
{
    match from {
        Some(from) => Some(from),
        None => None,
    }
}

/// Makes the call on the pass, at a moment of the clock.
pub fn make_call<V: Versions + Drop, C: Clock, R: Wait>(
    rt: &R,
    api: &SharedApi<V>,
    pass: &mut Pass<V>,
    clock: &C,
    call: Call<'_>,
) -> Result<Reply, Refusal>
    requires of { IsOf V.meaning api.now pass.old }
    requires may { MayCall (V.meaning api.now.base.versions) (call_view call) }
    ensures of { IsOf V.meaning api.now pass.new }
    ensures calls { (stamp : List ℕ) × MayStamp (C.told clock.now) stamp
        × CallsOn (server_of V.meaning api.now.base) (V.Tool.faults pass.old.tool < V.Tool.faults pass.new.tool) stamp
        pass.old.view pass.new.view (call_view call.entry) (told result) }
    ensures rises { V.Tool.faults pass.old.tool ≤ V.Tool.faults pass.new.tool }
{
    let stamp = clock.stamp();
    match call {
        Call::Get { version, key } => api.get(rt, pass, name_at(api, version), &key),
        Call::List {
            version,
            namespace,
            limit,
            from,
        } => api.list(
            rt,
            pass,
            name_at(api, version),
            namespace_of(&namespace),
            limit,
            token_of(&from),
        ),
        Call::Create {
            version,
            namespace,
            body,
        } => api.create(
            rt,
            pass,
            name_at(api, version),
            namespace.as_str(),
            body,
            stamp,
        ),
        Call::Replace { version, key, body } => {
            api.replace(rt, pass, name_at(api, version), &key, body)
        }
        Call::Delete { version, key, body } => {
            api.delete(rt, pass, name_at(api, version), &key, body, stamp)
        }
        Call::Group => api.group_doc(rt, pass),
        Call::Crd => api.crd(rt, pass),
        Call::SetVersions { body } => api.set_versions(rt, pass, body),
        Call::Trim { body } => api.trim(rt, pass, body),
        Call::Start { body } => api.start_migration(rt, pass, body),
        Call::Migration { name } => api.migration(rt, pass, name.as_str()),
        Call::Migrations => api.migrations(rt, pass),
        Call::Raw { key } => api.raw(rt, pass, &key),
    }
}
