//! Lists of versions at which objects may stand.
ghost use Rattle.std.specs.Prelude.{◌≡◌, ◌+◌, ◌<◌, ◌≤◌, ◌∷◌, [], ◌++◌, false, filter, length};
ghost use Rattle.api_calls.specs.Settings.{first_unknown};
ghost use Rattle.api_calls.specs.State.{has, joined};
ghost use Rattle.api_calls.specs.Versions.{versions_of};
ghost use Rattle.api_core.specs.inner.TrimLaws.{unkept, until};

use api_calls::StoredList;

/// The versions of a list, lent.
pub(crate) fn versions(list: &StoredList) -> &[u8]
    requires { list.now.len ≤ 8 }
    ensures { result.now ≡ versions_of list.now }
{
    &list.items[..list.len as usize]
}

/// Whether a version is among others.
pub(crate) fn contains(list: &[u8], v: u8) -> bool
    ensures { result ≡ has list.now v }
{
    list.iter().any(|x| *x == v)
}

/// The first of the kept versions that isn't in the list.
pub(crate) fn first_outside(list: &[u8], keep: &[u8]) -> Option<u8>
    ensures { result ≡ first_unknown list.now keep.now }
{
    for v in keep {
        if !contains(list, *v) {
            return Some(*v);
        }
    }
    None
}

/// The versions of a list before one of them, and all where it isn't there.
pub(crate) fn before(list: &[u8], v: u8) -> &[u8]
    ensures { result.now ≡ until v list.now }
{
    for (i, x) in list.iter().enumerate() {
        if *x == v {
            return &list[..i];
        }
    }
    list
}

// Adds a version at the end.
fn push(list: &mut StoredList, v: u8)
    requires { list.old.len < 8 }
    ensures versions { versions_of list.new ≡ versions_of list.old ++ v ∷ [] }
    ensures len { list.new.len ≡ list.old.len + 1 }
{
    list.items[list.len as usize] = v;
    list.len += 1;
}

fn empty() -> StoredList
    ensures versions { versions_of result ≡ [] }
    ensures len { result.len ≡ 0 }
{
    StoredList {
        len: 0,
        items: [0; 8],
    }
}

/// The versions of a list that are kept, in its order.
pub(crate) fn kept_of(list: &[u8], keep: &[u8]) -> StoredList
    requires { length list.now ≤ 8 }
    ensures versions { versions_of result ≡ filter (has keep.now) list.now }
    ensures len { result.len ≤ 8 }
{
    let mut made = empty();
    for v in list {
        if contains(keep, *v) {
            push(&mut made, *v);
        }
    }
    made
}

/// The versions of a list that aren't kept, in its order.
pub(crate) fn unkept_of(list: &[u8], keep: &[u8]) -> StoredList
    requires { length list.now ≤ 8 }
    ensures versions { versions_of result ≡ unkept keep.now list.now }
    ensures len { result.len ≤ 8 }
    ensures count { result.len ≡ length (unkept keep.now list.now) }
{
    let mut made = empty();
    for v in list {
        if !contains(keep, *v) {
            push(&mut made, *v);
        }
    }
    made
}

/// A list with a version, which comes last where it wasn't there.
pub(crate) fn joined_list(list: StoredList, v: u8) -> StoredList
    requires len { list.len ≤ 8 }
    requires room { has (versions_of list) v ≡ false → length (versions_of list) < 8 }
    ensures versions { versions_of result ≡ joined (versions_of list) v }
    ensures len { result.len ≤ 8 }
{
    let mut made = list;
    if contains(versions(&list), v) {
        return list;
    }
    push(&mut made, v);
    made
}
