//! What each method asks of a resource, and the call that it is.
ghost use Rattle.std.specs.Prelude.{◌≡◌, IfOk, None};
ghost use Rattle.api_calls.specs.Calls.{create, list};
ghost use Rattle.http_routes.specs.Actions.{row_of, cell as cell_of, call_of};
ghost use Rattle.http_routes.specs.Paths.{object};
ghost use Rattle.http_routes.specs.Views.{key_view, resource_of, action_of, action_in, row_view, paging_of, call_view, bytes_in, lent, FitsResource, FitsAction, FitsAny, FitsKey, FitsRow};

use crate::calls::Call;
use crate::query::Paging;
use crate::resource::Resource;
use kj_value::{NoMemory, Txt};
use kube_meta::Key;
use std::alloc::Global;

/// What a method asks of a resource, lent; a version by its name.
#[derive(Clone, Copy, Drop)]
pub enum Action<'b> {
    Get {
        version: &'b [u8],
        namespace: &'b str,
        name: &'b str,
    },
    List {
        version: &'b [u8],
        namespace: Option<&'b str>,
    },
    Create {
        version: &'b [u8],
        namespace: &'b str,
    },
    Replace {
        version: &'b [u8],
        namespace: &'b str,
        name: &'b str,
    },
    Delete {
        version: &'b [u8],
        namespace: &'b str,
        name: &'b str,
    },
    Group,
    Crd,
    SetVersions,
    Trim,
    Start,
    Migration {
        name: &'b str,
    },
    Migrations,
    Raw {
        namespace: &'b str,
        name: &'b str,
    },
}

/// What the four methods ask of a resource.
#[derive(Clone, Copy, Drop)]
pub struct Row<'b> {
    pub get: Option<Action<'b>>,
    pub post: Option<Action<'b>>,
    pub put: Option<Action<'b>>,
    pub delete: Option<Action<'b>>,
}

// By GET, POST, PUT and DELETE.
fn row_with<'b>(
    get: Option<Action<'b>>,
    post: Option<Action<'b>>,
    put: Option<Action<'b>>,
    delete: Option<Action<'b>>,
) -> Row<'b>
    ensures { result ≡ record { get = get.entry; post = post.entry; put = put.entry; delete = delete.entry } }
{
    Row {
        get,
        post,
        put,
        delete,
    }
}

// What the methods ask of an object.
fn object_row<'b>(version: &'b [u8], namespace: &'b str, name: &'b str) -> Row<'b>
    requires { FitsKey namespace.now name.now }
    ensures row { row_view result ≡ row_of (object version.now (key_view namespace.now name.now)) }
    ensures fits { FitsRow result }
{
    Row {
        get: Some(Action::Get {
            version,
            namespace,
            name,
        }),
        post: None,
        put: Some(Action::Replace {
            version,
            namespace,
            name,
        }),
        delete: Some(Action::Delete {
            version,
            namespace,
            name,
        }),
    }
}

/// What the methods ask of this resource.
pub fn methods_of(resource: Resource<'_>) -> Row<'_>
    requires { FitsResource resource }
    ensures row { row_view result ≡ row_of (resource_of resource.entry) }
    ensures fits { FitsRow result }
{
    match resource {
        Resource::Group => row_with(Some(Action::Group), None, None, None),
        Resource::Everywhere { version } => {
            let list = Action::List {
                version,
                namespace: None,
            };
            row_with(Some(list), None, None, None)
        }
        Resource::Collection { version, namespace } => {
            let list = Action::List {
                version,
                namespace: Some(namespace),
            };
            let create = Action::Create { version, namespace };
            row_with(Some(list), Some(create), None, None)
        }
        Resource::Object {
            version,
            namespace,
            name,
        } => object_row(version, namespace, name),
        Resource::Crd => row_with(Some(Action::Crd), None, Some(Action::SetVersions), None),
        Resource::CrdStatus => row_with(None, None, Some(Action::Trim), None),
        Resource::Migrations => row_with(Some(Action::Migrations), Some(Action::Start), None, None),
        Resource::Migration { name } => row_with(
            Some(Action::Migration { name }),
            None,
            None,
            None,
        ),
        Resource::Raw { namespace, name } => {
            row_with(Some(Action::Raw { namespace, name }), None, None, None)
        }
    }
}

/// What this method asks.
#[tactic(auto, unfolding(crate::specs::Actions::cell))]
pub fn cell<'b>(row: Row<'b>, method: &[u8]) -> Option<Action<'b>>
    requires { FitsRow row }
    ensures cell { action_in result ≡ cell_of (row_view row.entry) method.now }
    ensures fits { FitsAny result }
{
    if method == b"GET".as_slice() {
        return row.get;
    }
    if method == b"POST".as_slice() {
        return row.post;
    }
    if method == b"PUT".as_slice() {
        return row.put;
    }
    if method == b"DELETE".as_slice() {
        return row.delete;
    }
    None
}

fn owned(alloc: Global, text: Option<&str>) -> Result<Option<Txt>, NoMemory>
    ensures { IfOk result (λ t. bytes_in t ≡ lent text.entry) }
{
    match text {
        Some(text) => Ok(Some(Txt::of(alloc, text)?)),
        None => Ok(None),
    }
}

fn listed<'a>(
    alloc: Global,
    version: u8,
    namespace: Option<&str>,
    paging: Paging,
) -> Result<Call<'a>, NoMemory>
    ensures { IfOk result (λ c. call_view c ≡ list version (lent namespace.entry) (paging_of paging).limit (paging_of paging).from) }
{
    let namespace = owned(alloc, namespace)?;
    Ok(Call::List {
        version,
        namespace,
        limit: paging.limit,
        from: paging.from,
    })
}

fn created<'a>(
    alloc: Global,
    version: u8,
    namespace: &str,
    body: &'a [u8],
) -> Result<Call<'a>, NoMemory>
    ensures { IfOk result (λ c. call_view c ≡ create (record { version = version; ns = namespace.now; name = None; bytes = body.now })) }
{
    let namespace = Txt::of(alloc, namespace)?;
    Ok(Call::Create {
        version,
        namespace,
        body,
    })
}

/// The call that is asked for, at the version of this place where it is asked at one.
pub fn make_call<'a>(
    alloc: Global,
    action: Action<'_>,
    version: u8,
    body: &'a [u8],
    paging: Paging,
) -> Result<Call<'a>, NoMemory>
    requires { FitsAction action }
    ensures { IfOk result (λ c. call_view c ≡ call_of (action_of action.entry) version body.now (paging_of paging)) }
{
    match action {
        Action::Get {
            namespace,
            name,
            ..
        } => {
            let key = Key::of(alloc, namespace, name)?;
            Ok(Call::Get { version, key })
        }
        Action::List { namespace, .. } => listed(alloc, version, namespace, paging),
        Action::Create { namespace, .. } => created(alloc, version, namespace, body),
        Action::Replace {
            namespace,
            name,
            ..
        } => {
            let key = Key::of(alloc, namespace, name)?;
            Ok(Call::Replace { version, key, body })
        }
        Action::Delete {
            namespace,
            name,
            ..
        } => {
            let key = Key::of(alloc, namespace, name)?;
            Ok(Call::Delete { version, key, body })
        }
        Action::Group => Ok(Call::Group),
        Action::Crd => Ok(Call::Crd),
        Action::SetVersions => Ok(Call::SetVersions { body }),
        Action::Trim => Ok(Call::Trim { body }),
        Action::Start => Ok(Call::Start { body }),
        Action::Migration { name } => {
            let name = Txt::of(alloc, name)?;
            Ok(Call::Migration { name })
        }
        Action::Migrations => Ok(Call::Migrations),
        Action::Raw { namespace, name } => {
            let key = Key::of(alloc, namespace, name)?;
            Ok(Call::Raw { key })
        }
    }
}
