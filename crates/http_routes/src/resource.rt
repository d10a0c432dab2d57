//! What a path names.
ghost use Rattle.std.specs.Prelude.{◌≡◌, ◌≢◌, ◌++◌, ◌∷◌, [], map, MatchOption, IfSome};
ghost use Rattle.kube_meta.specs.Names.{dot};
ghost use Rattle.http_routes.specs.Paths.{crd_name, IsCrd, IsMigrations, IsNamespaced, Names, NamesNothing, path_of};
ghost use Rattle.http_routes.specs.Views.{resource_of, now_of, FitsResource};

use crate::names::{name_text, namespace_text};
use crate::parts::part;
use crate::words::{
    expect, expect_apis, expect_crd_group, expect_crd_version, expect_crds as expect_crds_word,
    expect_migration_group, expect_migration_version, expect_migrations as expect_migrations_word,
    expect_namespaces, expect_raw, expect_status,
};
use api_calls::Versions;

/// What a path names, lent; a version as its segment.
#[derive(Clone, Copy, Drop)]
pub enum Resource<'b> {
    Group,
    Everywhere {
        version: &'b [u8],
    },
    Collection {
        version: &'b [u8],
        namespace: &'b str,
    },
    Object {
        version: &'b [u8],
        namespace: &'b str,
        name: &'b str,
    },
    Crd,
    CrdStatus,
    Migrations,
    Migration {
        name: &'b str,
    },
    Raw {
        namespace: &'b str,
        name: &'b str,
    },
}

fn expect_group<V: Versions>(versions: &V, part: &[u8]) -> Option<()>
    ensures { MatchOption result (part.now ≢ (V.meaning versions.now).group) (λ _. part.now ≡ (V.meaning versions.now).group) }
{
    expect(part, versions.group().as_str().as_bytes())
}

fn expect_plural<V: Versions>(versions: &V, part: &[u8]) -> Option<()>
    ensures { MatchOption result (part.now ≢ (V.meaning versions.now).plural) (λ _. part.now ≡ (V.meaning versions.now).plural) }
{
    expect(part, versions.plural().as_str().as_bytes())
}

// Passes where the part is these bytes, a point and those.
fn expect_pointed(part: &[u8], front: &[u8], back: &[u8]) -> Option<()>
    ensures { MatchOption result (part.now ≢ front.now ++ (dot ∷ back.now)) (λ _. part.now ≡ front.now ++ (dot ∷ back.now)) }
{
    let n = front.len();
    if part.len() <= n {
        return None;
    }
    if part[n] != b'.' {
        return None;
    }
    expect(&part[..n], front)?;
    expect(&part[n + 1..], back)
}

fn expect_crd_name<V: Versions>(versions: &V, part: &[u8]) -> Option<()>
    ensures { MatchOption result (part.now ≢ crd_name (V.meaning versions.now)) (λ _. part.now ≡ crd_name (V.meaning versions.now)) }
{
    expect_pointed(
        part,
        versions.plural().as_str().as_bytes(),
        versions.group().as_str().as_bytes(),
    )
}

// Passes where the parts are the first ones of the definition's path.
fn expect_crds(apis: &[u8], group: &[u8], version: &[u8], crds: &[u8]) -> Option<()>
    ensures { MatchOption result (IsCrd apis.now group.now version.now crds.now → ⊥) (λ _. IsCrd apis.now group.now version.now crds.now) }
{
    expect_apis(apis)?;
    expect_crd_group(group)?;
    expect_crd_version(version)?;
    expect_crds_word(crds)
}

// Passes where the parts are those of the migrations' path.
fn expect_migrations(apis: &[u8], group: &[u8], version: &[u8], migrations: &[u8]) -> Option<()>
    ensures { MatchOption result (IsMigrations apis.now group.now version.now migrations.now → ⊥) (λ _. IsMigrations apis.now group.now version.now migrations.now) }
{
    expect_apis(apis)?;
    expect_migration_group(group)?;
    expect_migration_version(version)?;
    expect_migrations_word(migrations)
}

fn group_at<'b, V: Versions>(versions: &V, apis: &[u8], group: &[u8]) -> Option<Resource<'b>>
    ensures names { MatchOption result
        (NamesNothing (V.meaning versions.now) ([] ∷ apis.now ∷ group.now ∷ []))
        (λ r. Names (V.meaning versions.now) ([] ∷ apis.now ∷ group.now ∷ []) (resource_of r)) }
    ensures fits { IfSome result FitsResource }
{
    expect_apis(apis)?;
    expect_group(versions, group)?;
    Some(Resource::Group)
}

fn raw_at<'b, V: Versions>(
    versions: &V,
    raw: &[u8],
    namespace: &'b [u8],
    name: &'b [u8],
) -> Option<Resource<'b>>
    ensures names { MatchOption result
        (NamesNothing (V.meaning versions.now) ([] ∷ raw.now ∷ namespace.now ∷ name.now ∷ []))
        (λ r. Names (V.meaning versions.now) ([] ∷ raw.now ∷ namespace.now ∷ name.now ∷ []) (resource_of r)) }
    ensures fits { IfSome result FitsResource }
{
    expect_raw(raw)?;
    let namespace = namespace_text(namespace)?;
    let name = name_text(name)?;
    Some(Resource::Raw { namespace, name })
}

fn everywhere_at<'b, V: Versions>(
    versions: &V,
    apis: &[u8],
    group: &[u8],
    version: &'b [u8],
    plural: &[u8],
) -> Option<Resource<'b>>
    ensures names { MatchOption result
        (NamesNothing (V.meaning versions.now) ([] ∷ apis.now ∷ group.now ∷ version.now ∷ plural.now ∷ []))
        (λ r. Names (V.meaning versions.now) ([] ∷ apis.now ∷ group.now ∷ version.now ∷ plural.now ∷ []) (resource_of r)) }
    ensures fits { IfSome result FitsResource }
{
    match expect_migrations(apis, group, version, plural) {
        Some(()) => Some(Resource::Migrations),
        None => {
            expect_apis(apis)?;
            expect_group(versions, group)?;
            expect_plural(versions, plural)?;
            Some(Resource::Everywhere { version })
        }
    }
}

fn crd_at<'b, V: Versions>(
    versions: &V,
    apis: &[u8],
    group: &[u8],
    version: &[u8],
    resource: &[u8],
    name: &'b [u8],
) -> Option<Resource<'b>>
    ensures names { MatchOption result
        (NamesNothing (V.meaning versions.now) ([] ∷ apis.now ∷ group.now ∷ version.now ∷ resource.now ∷ name.now ∷ []))
        (λ r. Names (V.meaning versions.now) ([] ∷ apis.now ∷ group.now ∷ version.now ∷ resource.now ∷ name.now ∷ []) (resource_of r)) }
    ensures fits { IfSome result FitsResource }
{
    match expect_crds(apis, group, version, resource) {
        Some(()) => {
            expect_crd_name(versions, name)?;
            Some(Resource::Crd)
        }
        None => {
            expect_migrations(apis, group, version, resource)?;
            let name = name_text(name)?;
            Some(Resource::Migration { name })
        }
    }
}

// Passes where the parts are those of a path of namespaced objects.
fn expect_namespaced<V: Versions>(
    versions: &V,
    apis: &[u8],
    group: &[u8],
    namespaces: &[u8],
    plural: &[u8],
) -> Option<()>
    ensures { MatchOption result
        (IsNamespaced (V.meaning versions.now) apis.now group.now namespaces.now plural.now → ⊥)
        (λ _. IsNamespaced (V.meaning versions.now) apis.now group.now namespaces.now plural.now) }
{
    expect_apis(apis)?;
    expect_group(versions, group)?;
    expect_namespaces(namespaces)?;
    expect_plural(versions, plural)
}

fn collection_at<'b, V: Versions>(
    versions: &V,
    apis: &[u8],
    group: &[u8],
    version: &'b [u8],
    fourth: &[u8],
    fifth: &'b [u8],
    last: &[u8],
) -> Option<Resource<'b>>
    ensures names { MatchOption result
        (NamesNothing (V.meaning versions.now) ([] ∷ apis.now ∷ group.now ∷ version.now ∷ fourth.now ∷ fifth.now ∷ last.now ∷ []))
        (λ r. Names (V.meaning versions.now) ([] ∷ apis.now ∷ group.now ∷ version.now ∷ fourth.now ∷ fifth.now ∷ last.now ∷ []) (resource_of r)) }
    ensures fits { IfSome result FitsResource }
{
    match expect_crds(apis, group, version, fourth) {
        Some(()) => {
            expect_crd_name(versions, fifth)?;
            expect_status(last)?;
            Some(Resource::CrdStatus)
        }
        None => {
            expect_namespaced(versions, apis, group, fourth, last)?;
            let namespace = namespace_text(fifth)?;
            Some(Resource::Collection { version, namespace })
        }
    }
}

fn object_at<'b, V: Versions>(
    versions: &V,
    apis: &[u8],
    group: &[u8],
    version: &'b [u8],
    namespaces: &[u8],
    namespace: &'b [u8],
    plural: &[u8],
    name: &'b [u8],
) -> Option<Resource<'b>>
    ensures names { MatchOption result
        (NamesNothing (V.meaning versions.now) ([] ∷ apis.now ∷ group.now ∷ version.now ∷ namespaces.now ∷ namespace.now ∷ plural.now ∷ name.now ∷ []))
        (λ r. Names (V.meaning versions.now) ([] ∷ apis.now ∷ group.now ∷ version.now ∷ namespaces.now ∷ namespace.now ∷ plural.now ∷ name.now ∷ []) (resource_of r)) }
    ensures fits { IfSome result FitsResource }
{
    expect_namespaced(versions, apis, group, namespaces, plural)?;
    let namespace = namespace_text(namespace)?;
    let name = name_text(name)?;
    Some(Resource::Object {
        version,
        namespace,
        name,
    })
}

/// What the segments of a path name.
pub fn named<'b, V: Versions>(versions: &V, parts: &[&'b [u8]]) -> Option<Resource<'b>>
    ensures names { MatchOption result
        (NamesNothing (V.meaning versions.now) (map now_of parts.now))
        (λ r. Names (V.meaning versions.now) (map now_of parts.now) (resource_of r)) }
    ensures fits { IfSome result FitsResource }
{
    if parts.len() < 3 {
        return None;
    }
    if !part(parts, 0).is_empty() {
        return None;
    }
    match parts.len() {
        3 => group_at(versions, part(parts, 1), part(parts, 2)),
        4 => raw_at(versions, part(parts, 1), part(parts, 2), part(parts, 3)),
        5 => everywhere_at(
            versions,
            part(parts, 1),
            part(parts, 2),
            part(parts, 3),
            part(parts, 4),
        ),
        6 => crd_at(
            versions,
            part(parts, 1),
            part(parts, 2),
            part(parts, 3),
            part(parts, 4),
            part(parts, 5),
        ),
        7 => collection_at(
            versions,
            part(parts, 1),
            part(parts, 2),
            part(parts, 3),
            part(parts, 4),
            part(parts, 5),
            part(parts, 6),
        ),
        8 => object_at(
            versions,
            part(parts, 1),
            part(parts, 2),
            part(parts, 3),
            part(parts, 4),
            part(parts, 5),
            part(parts, 6),
            part(parts, 7),
        ),
        _ => None,
    }
}
