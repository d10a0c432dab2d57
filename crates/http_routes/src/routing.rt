//! From a request to its call.
ghost use Rattle.std.specs.Prelude.{◌≡◌, IfOk};
ghost use Rattle.http_routes.specs.Routes.{Routes, IsAsked, IsServed};
ghost use Rattle.http_routes.specs.Queries.{pairs_of};
ghost use Rattle.http_routes.specs.Views.{action_of, resource_of, route_of, FitsAction, FitsResource};

use crate::action::{Action, cell, make_call, methods_of};
use crate::calls::Route;
use crate::finding::{Found, find_plain};
use crate::parts::{cut_target, lent, segments};
use crate::places::place_of;
use crate::query::{Queried, read_query};
use crate::resource::{Resource, named};
use api_calls::Versions;
use kj_value::NoMemory;
use std::alloc::Global;

// What a request comes to whose path and method are right.
fn asked<'a, V: Versions>(
    alloc: Global,
    versions: &V,
    action: Action<'_>,
    query: &[u8],
    body: &'a [u8],
) -> Result<Route<'a>, NoMemory>
    requires { FitsAction action }
    ensures { IfOk result (λ r. IsAsked (V.meaning versions.now) (action_of action.entry) (pairs_of query.now) body.now (route_of r)) }
{
    match read_query(alloc, action, query)? {
        Queried::Paged(paging) => {
            let Some(version) = place_of(versions, action) else {
                return Ok(Route::NoResource);
            };
            let call = make_call(alloc, action, version, body, paging)?;
            Ok(Route::Calls(call))
        }
        Queried::Bad(why) => Ok(Route::BadRequest(why)),
    }
}

// What a request comes to whose path is right.
fn served<'a, V: Versions>(
    alloc: Global,
    versions: &V,
    resource: Resource<'_>,
    method: &[u8],
    query: &[u8],
    body: &'a [u8],
) -> Result<Route<'a>, NoMemory>
    requires { FitsResource resource }
    ensures { IfOk result (λ r. IsServed (V.meaning versions.now) (resource_of resource.entry) method.now (pairs_of query.now) body.now (route_of r)) }
{
    let Some(action) = cell(methods_of(resource), method) else {
        return Ok(Route::MethodNotAllowed);
    };
    asked(alloc, versions, action, query, body)
}

// The same as `find_call` of any target, with memory for the segments of its path.
fn find_escaped<'a, V: Versions>(
    alloc: Global,
    versions: &V,
    method: &[u8],
    target: &[u8],
    body: &'a [u8],
) -> Result<Route<'a>, NoMemory>
    ensures { IfOk result (λ r. Routes (V.meaning versions.now) method.now target.now body.now (route_of r)) }
{
    let (path, query) = cut_target(target);
    let Some(parts) = segments(alloc, path)? else {
        return Ok(Route::NoResource);
    };
    let parts = lent(alloc, parts.as_slice())?;
    let Some(resource) = named(versions, parts.as_slice()) else {
        return Ok(Route::NoResource);
    };
    served(alloc, versions, resource, method, query, body)
}

/// What a request comes to, by its method and its target (a path, and a query behind the first question mark; RFC 9112,
/// section 3.2.1), whose segments, keys and values may be percent-encoded: a call with its arguments and the body; or
/// `NoResource` exactly where the path names nothing, be it for a name or a namespace that breaks its rule; else
/// `MethodNotAllowed` exactly where what it names doesn't have the method; else `BadRequest` exactly where the query isn't
/// served; else `NoResource` exactly where the definition doesn't have the version. Whether a version is served isn't looked at,
/// nor the body. It takes memory for names, for the pairs of a query and for what has escapes, and answers `NoMemory` where
/// there is none.
pub fn find_call<'a, V: Versions>(
    alloc: Global,
    versions: &V,
    method: &[u8],
    target: &[u8],
    body: &'a [u8],
) -> Result<Route<'a>, NoMemory>
    ensures { IfOk result (λ r. Routes (V.meaning versions.now) method.now target.now body.now (route_of r)) }
{
    match find_plain(versions, target) {
        Found::Named { resource, query } => served(alloc, versions, resource, method, query, body),
        Found::Nothing => Ok(Route::NoResource),
        Found::Escaped => find_escaped(alloc, versions, method, target, body),
    }
}
