//! What a target names whose path has no escapes, found without memory.
ghost use Rattle.std.specs.Prelude.{◌≡◌, MatchOption};
ghost use Rattle.http_routes.specs.Paths.{segments};
ghost use Rattle.http_routes.specs.Routes.{path_in, query_in};
ghost use Rattle.http_routes.specs.Views.{Finds};
ghost use Rattle.http_routes.specs.declared.finding.Found.TheVariants as finds;

use crate::parts::{MOST_SEGMENTS, is_stop};
use crate::resource::{Resource, named};
use api_calls::Versions;

/// What is found for a target, lent.
#[derive(Clone, Copy, Drop)]
pub enum Found<'b> {
    /// A resource, and the query behind its path.
    Named {
        resource: Resource<'b>,
        query: &'b [u8],
    },
    Nothing,
    /// Its path may have escapes.
    Escaped,
}

fn as_found<'b>(resource: Option<Resource<'b>>, query: &'b [u8]) -> Found<'b>
    ensures { MatchOption resource.entry (result ≡ finds.Nothing) (λ r. result ≡ finds.Named r query.entry) }
{
    match resource {
        Some(resource) => Found::Named { resource, query },
        None => Found::Nothing,
    }
}

/// What is found for the target. It takes no memory.
pub fn find_plain<'b, V: Versions>(versions: &V, target: &'b [u8]) -> Found<'b>
    ensures { Finds (V.meaning versions.now) (segments (path_in target.now)) (query_in target.now) result }
{
    let mut parts: [&'b [u8]; MOST_SEGMENTS] = [b""; MOST_SEGMENTS];
    let mut count = 0;
    let mut start = 0;
    for i in 0..target.len() {
        if is_stop(target[i]) {
            if target[i] == b'%' {
                return Found::Escaped;
            }
            parts[count] = &target[start..i];
            count += 1;
            if target[i] == b'?' {
                return as_found(named(versions, &parts[..count]), &target[i + 1..]);
            }
            if count == MOST_SEGMENTS {
                return Found::Nothing;
            }
            start = i + 1;
        }
    }
    parts[count] = &target[start..];
    as_found(named(versions, &parts[..count + 1]), b"")
}
