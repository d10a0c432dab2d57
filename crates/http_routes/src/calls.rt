//! Calls, and what a request comes to.

use api_calls::{Token, Why};
use kj_value::Txt;
use kube_meta::Key;

/// A call of the server, with its arguments. A version is its place in the definition, counted from 0. A body is that of the
/// request, unread.
#[derive(Drop)]
pub enum Call<'a> {
    /// The object of a key at a version.
    Get {
        version: u8,
        key: Key,
    },
    /// The objects at a version: those of a namespace, or of all. At most so many are asked for, where 0 is no limit; `from`
    /// says behind which object the list goes on.
    List {
        version: u8,
        namespace: Option<Txt>,
        limit: u64,
        from: Option<Token>,
    },
    Create {
        version: u8,
        namespace: Txt,
        body: &'a [u8],
    },
    Replace {
        version: u8,
        key: Key,
        body: &'a [u8],
    },
    Delete {
        version: u8,
        key: Key,
        body: &'a [u8],
    },
    /// The group of the definition, with its versions.
    Group,
    /// The definition.
    Crd,
    /// Which versions are served and which one is stored.
    SetVersions {
        body: &'a [u8],
    },
    /// Takes versions out of the stored list.
    Trim {
        body: &'a [u8],
    },
    /// Starts a migration.
    Start {
        body: &'a [u8],
    },
    Migration {
        name: Txt,
    },
    Migrations,
    /// The stored text of the object of a key.
    Raw {
        key: Key,
    },
}

/// What a request comes to.
#[derive(Drop)]
pub enum Route<'a> {
    Calls(Call<'a>),
    /// Nothing has the path, or the definition doesn't have the version: 404, with the reason NotFound.
    NoResource,
    /// What the path names doesn't have the method: 405.
    MethodNotAllowed,
    /// The query isn't served (`BadQuery`), or its continue token is none of the list's (`BadToken`): 400.
    BadRequest(Why),
}
