//! Keys of annotations.
ghost use Rattle.std.specs.Prelude.{◌≡◌, ◌++◌, [], nat_eq, string_bytes, IfOk, OnOk};
ghost use Rattle.std.specs.List.{starts_with};
ghost use Rattle.keep_laws.specs.Spokes.{api_version};
ghost use Rattle.keep_laws.specs.Keys.{hub_key, spoke_prefix, spoke_key, kind_among, key_kind};
ghost use Rattle.keep_laws.specs.Judging.{is_own};
ghost use Rattle.spoke_keep.specs.inner.Seen.{kind_seen, kind_found, own_name};

use crate::spokes::{Spoke, Spokes};
use kj_value::{NoMemory, Txt};
use std::alloc::Global;

// Whose annotation a key is of.
pub(crate) enum Kind<'a> {
    Plain,
    Hub,
    OfSpoke(&'a Spoke),
    NoSpoke,
}

/// The key of the annotation of a spoke's object that keeps what the hub has and the spoke can't hold.
pub fn hub_key() -> &'static str
    ensures { result.now ≡ hub_key }
{
    "hub.kubeconv.local/kept"
}

fn spoke_prefix() -> &'static str
    ensures { result.now ≡ spoke_prefix }
{
    "spoke.kubeconv.local/"
}

/// The key of the annotation of the hub's object that keeps what the spoke of this name has and the hub can't
/// hold.
pub fn spoke_key(alloc: Global, name: &str) -> Result<Txt, NoMemory>
    ensures { IfOk result (λ t. t.bytes ≡ spoke_key name.now) }
{
    let mut key = String::from_str(alloc, spoke_prefix())?;
    key.push_str(name)?;
    Ok(Txt::of_string(key))
}

// Both names, behind an empty text, with a slash between them.
fn join(text: &mut String, group: &str, version: &str) -> Result<(), NoMemory>
    requires { string_bytes text.old ≡ [] }
    ensures { OnOk result (string_bytes text.new ≡ api_version group.now version.now) }
{
    text.push_str(group)?;
    text.push_str("/")?;
    text.push_str(version)?;
    Ok(())
}

// GROUP/VERSION
pub(crate) fn version_text(alloc: Global, group: &Txt, version: &Txt) -> Result<Txt, NoMemory>
    ensures { IfOk result (λ t. t.bytes ≡ api_version group.now.bytes version.now.bytes) }
{
    let bytes = group.len().saturating_add(version.len()).saturating_add(1);
    let Ok(room) = String::with_capacity(alloc, bytes) else {
        return Err(NoMemory);
    };
    let mut text = room;
    match join(&mut text, group.as_str(), version.as_str()) {
        Ok(()) => Ok(Txt::of_string(text)),
        Err(refused) => {
            drop(text);
            Err(refused)
        }
    }
}

fn has_prefix(key: &str) -> bool
    ensures { result ≡ starts_with nat_eq key.now spoke_prefix }
{
    key.as_bytes().starts_with(spoke_prefix().as_bytes())
}

fn find<'a>(items: &'a [Spoke], key: &str) -> Option<&'a Spoke>
    ensures { kind_found result ≡ kind_among key.entry.now items.entry.now }
{
    for s in items {
        if key == s.key() {
            return Some(s);
        }
    }
    None
}

pub(crate) fn kind_of<'a>(all: &'a Spokes, key: &str) -> Kind<'a>
    ensures { kind_seen result ≡ key_kind all.entry.now key.entry.now }
{
    if key == hub_key() {
        return Kind::Hub;
    }
    if !has_prefix(key) {
        return Kind::Plain;
    }
    match find(all.items(), key) {
        Some(s) => Kind::OfSpoke(s),
        None => Kind::NoSpoke,
    }
}

pub(crate) fn is_own(s: &Spoke, own: Option<&Spoke>) -> bool
    ensures { result ≡ is_own (own_name own.entry) s.entry.now.name }
{
    match own {
        Some(o) => s.name().as_str() == o.name().as_str(),
        None => false,
    }
}
