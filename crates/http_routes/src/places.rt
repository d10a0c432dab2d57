//! The place of the version at which something is asked.
ghost use Rattle.std.specs.Prelude.{◌≡◌, ◌<◌, ℕ, MatchOption};
ghost use Rattle.http_routes.specs.Actions.{version_in, IsVersion, IsUnknown, AsksAt, AsksNowhere};
ghost use Rattle.http_routes.specs.Views.{action_of, bytes_lent};

use crate::action::Action;
use api_calls::Versions;

// The version of this name.
fn version_of<V: Versions>(versions: &V, name: &[u8]) -> Option<u8>
    ensures { MatchOption result
        (IsUnknown (V.meaning versions.now) name.now)
        (λ v. IsVersion (V.meaning versions.now) name.now v) }
{
    for v in 0..versions.count() {
        if versions.name(v).as_str().as_bytes() == name {
            return Some(v);
        }
    }
    None
}

// The name of the version at which this is asked.
fn version_name(action: Action<'_>) -> Option<&[u8]>
    ensures { bytes_lent result ≡ version_in (action_of action.entry) }
{
    match action {
        Action::Get { version, .. } => Some(version),
        Action::List { version, .. } => Some(version),
        Action::Create { version, .. } => Some(version),
        Action::Replace { version, .. } => Some(version),
        Action::Delete { version, .. } => Some(version),
        Action::Group => None,
        Action::Crd => None,
        Action::SetVersions => None,
        Action::Trim => None,
        Action::Start => None,
        Action::Migration { .. } => None,
        Action::Migrations => None,
        Action::Raw { .. } => None,
    }
}

/// The place of the version at which this is asked, counted from 0, and 0 where it is asked at none. `None` where the definition
/// doesn't have the version.
pub fn place_of<V: Versions>(versions: &V, action: Action<'_>) -> Option<u8>
    ensures { MatchOption result
        (AsksNowhere (V.meaning versions.now) (action_of action.entry))
        (λ v. AsksAt (V.meaning versions.now) (action_of action.entry) v) }
{
    match version_name(action) {
        Some(name) => version_of(versions, name),
        None => Some(0),
    }
}
