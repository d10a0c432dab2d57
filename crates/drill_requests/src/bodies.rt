//! What the requests of a drill say.
ghost use Rattle.std.specs.Prelude.{◌≡◌, ◌<◌, ◌^◌, IfOk, codes, string_bytes};
ghost use Rattle.api_calls.specs.Versions.{IsStamp};
ghost use Rattle.drill_requests.specs.Bodies.{object_key, stamp as stamp_text, port_front, spoke_body, hub_body, start_body};

use kj_value::{NoMemory, Stamp};
use kube_meta::Key;
use std::alloc::Global;

/// The namespace of each object.
pub const NAMESPACE: &str = "default";

/// The hub of the example's definition.
pub const HUB: &str = "v1";

/// The version that is stored at first.
pub const SPOKE: &str = "v1beta1";

/// The stamp of each create and delete.
pub fn stamp() -> Stamp
    ensures text { result.text ≡ stamp_text }
    ensures stamp { IsStamp stamp_text }
{
    Stamp {
        text: *b"2024-01-02T03:04:05Z",
    }
}

/// The key of the object of a number.
pub fn object_key(alloc: Global, object: u64) -> Result<Key, NoMemory>
    ensures { IfOk result (λ k. k ≡ object_key object) }
{
    let name = format!(in alloc; "o{object}")?;
    Key::of(alloc, NAMESPACE, name.as_str())
}

/// The body that creates an object at `v1beta1`.
#[tactic(auto, unfolding(crate::specs::Bodies::spoke_body))]
pub fn spoke_body(alloc: Global, object: u64, value: u64) -> Result<String, NoMemory>
    ensures { IfOk result (λ s. string_bytes s ≡ spoke_body object value) }
{
    let seconds = value % 1001;
    Ok(format!(in alloc;
        "{{\"apiVersion\":\"example.com/v1beta1\",\"hostPort\":\"h{object}:{value}\",\"kind\":\"CronTab\",\"metadata\":{{\"name\":\"o{object}\"}},\"timeoutSeconds\":{seconds}}}"
    )?)
}

#[tactic(auto, unfolding(crate::specs::Bodies::port_front))]
fn port_front(value: u64) -> &'static str
    ensures { result.now ≡ port_front value }
{
    if value % 2 == 0 { "" } else { "p:" }
}

/// The body that creates an object at `v1`.
#[tactic(auto, unfolding(crate::specs::Bodies::hub_body))]
pub fn hub_body(alloc: Global, object: u64, value: u64) -> Result<String, NoMemory>
    ensures { IfOk result (λ s. string_bytes s ≡ hub_body object value) }
{
    let front = port_front(value);
    Ok(format!(in alloc;
        "{{\"apiVersion\":\"example.com/v1\",\"host\":\"h{object}\",\"kind\":\"CronTab\",\"metadata\":{{\"name\":\"o{object}\"}},\"port\":\"{front}{value}\",\"timeoutMillis\":{value}}}"
    )?)
}

/// The body that starts a migration behind so many switches.
#[tactic(auto, unfolding(crate::specs::Bodies::start_body))]
pub fn start_body(alloc: Global, switches: u64) -> Result<String, NoMemory>
    ensures { IfOk result (λ s. string_bytes s ≡ start_body switches) }
{
    Ok(format!(in alloc;
        "{{\"apiVersion\":\"storagemigration.k8s.io/v1alpha1\",\"kind\":\"StorageVersionMigration\",\"metadata\":{{\"name\":\"m{switches}\"}},\"spec\":{{\"resource\":{{\"group\":\"example.com\",\"resource\":\"crontabs\"}}}}}}"
    )?)
}
