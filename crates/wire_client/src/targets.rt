//! The targets of requests.
ghost use Rattle.std.specs.Prelude.{◌≡◌, ◌++◌, codes, IfOk, OnOk, string_bytes};
ghost use Rattle.kube_meta.specs.Key.{KeyView};
ghost use Rattle.place.specs.Place.{place_of};
ghost use Rattle.wire_client.specs.Calls.{version_path, everywhere, in_namespace, at_key, limit_query, token_query};
ghost use Rattle.wire_client.specs.Forms.{api_version};

use kj_value::NoMemory;
use kube_meta::Key;
use percent_encoding::{NON_ALPHANUMERIC, percent_encode};
use place::Place;
use std::alloc::Global;

/// GROUP/VERSION.
#[tactic(auto, unfolding(crate::specs::Forms::api_version))]
pub(crate) fn version_text(alloc: Global, place: &Place) -> Result<String, NoMemory>
    ensures { IfOk result (λ s. string_bytes s ≡ api_version (place_of place.now).names) }
{
    let group = place.group.as_str();
    let version = place.version.as_str();
    Ok(format!(in alloc; "{group}/{version}")?)
}

// Adds a word and a name to a path.
fn add_part(path: &mut String, word: &str, name: &str) -> Result<(), NoMemory>
    ensures { OnOk result (string_bytes path.new ≡ string_bytes path.old ++ (word.now ++ name.now)) }
{
    path.push_str(word)?;
    path.push_str(name)?;
    Ok(())
}

// Where the resources of the place's version begin.
#[tactic(auto, unfolding(crate::specs::Calls::version_path))]
fn version_path(alloc: Global, place: &Place) -> Result<String, NoMemory>
    ensures { IfOk result (λ s. string_bytes s ≡ version_path (place_of place.now).names) }
{
    let mut path = String::new(alloc);
    add_part(&mut path, "/apis/", place.group.as_str())?;
    add_part(&mut path, "/", place.version.as_str())?;
    Ok(path)
}

fn everywhere(alloc: Global, place: &Place) -> Result<String, NoMemory>
    ensures { IfOk result (λ s. string_bytes s ≡ everywhere (place_of place.now).names) }
{
    let mut path = version_path(alloc, place)?;
    add_part(&mut path, "/", place.plural.as_str())?;
    Ok(path)
}

/// The target of the objects of a namespace.
pub(crate) fn in_namespace(alloc: Global, place: &Place, ns: &str) -> Result<String, NoMemory>
    ensures { IfOk result (λ s. string_bytes s ≡ in_namespace (place_of place.now).names ns.now) }
{
    let mut path = version_path(alloc, place)?;
    add_part(&mut path, "/namespaces/", ns)?;
    add_part(&mut path, "/", place.plural.as_str())?;
    Ok(path)
}

/// The target of an object.
pub(crate) fn at_key(alloc: Global, place: &Place, key: &Key) -> Result<String, NoMemory>
    ensures { IfOk result (λ s. string_bytes s ≡ at_key (place_of place.now).names key.now) }
{
    let mut path = in_namespace(alloc, place, key.ns())?;
    add_part(&mut path, "/", key.name())?;
    Ok(path)
}

#[tactic(auto, unfolding(crate::specs::Calls::limit_query))]
fn limit_query(alloc: Global, limit: u64) -> Result<String, NoMemory>
    ensures { IfOk result (λ s. string_bytes s ≡ limit_query limit) }
{
    Ok(format!(in alloc; "?limit={limit}")?)
}

#[tactic(auto, unfolding(crate::specs::Calls::token_query))]
fn add_token(target: &mut String, token: &str) -> Result<(), NoMemory>
    ensures { OnOk result (string_bytes target.new ≡ string_bytes target.old ++ token_query token.now) }
{
    if token.is_empty() {
        return Ok(());
    }
    target.push_str("&continue=")?;
    percent_encode(token.as_bytes(), NON_ALPHANUMERIC).append_to(target)?;
    Ok(())
}

/// The target of a page.
pub(crate) fn page_target(
    alloc: Global,
    place: &Place,
    limit: u64,
    token: &str,
) -> Result<String, NoMemory>
    ensures { IfOk result (λ s. string_bytes s ≡ (everywhere (place_of place.now).names ++ limit_query limit) ++ token_query token.now) }
{
    let mut target = everywhere(alloc, place)?;
    let query = limit_query(alloc, limit)?;
    target.push_str(query.as_str())?;
    add_token(&mut target, token)?;
    Ok(target)
}
