//! Whether a `spec` is a definition's own, but for flags.
ghost use Rattle.std.specs.Prelude.{◌≡◌, ◌↔◌, IsTrue, map, option_map};
ghost use Rattle.kj_value.specs.Json.{boolean, items_of, members_of};
ghost use Rattle.kj_value.specs.Seen.{json};
ghost use Rattle.kj_value.specs.Pair.{pair_of};
ghost use Rattle.kj_value.specs.Same.{items_same, json_same, members_same};
ghost use Rattle.crd_reading.specs.Spelled.{versions_read};
ghost use Rattle.crd_settings.specs.Flags.{IsOwnSpec, flag_value, flagged, list_with, mark_in, spec_fields, spec_value, spec_with, version_with, versions_with};

use crate::parts::{Mark, mark_in, served_name, storage_name, versions_in, versions_name};
use crd_reading::Definition;
use kj_value::{Field, JVal, same};

fn is_same(given: &JVal, own: &JVal) -> bool
    ensures { result ≡ json_same (json given.now) (json own.now) }
{
    same(given, own)
}

fn is_truth(given: &JVal, truth: bool) -> bool
    ensures { result ≡ json_same (json given.now) (boolean truth) }
{
    match given {
        JVal::Bool(b) => *b == truth,
        _ => false,
    }
}

// ---- versions

fn same_flag_value(mark: Mark, name: &str, given: &JVal, own: &JVal) -> bool
    ensures { result ≡ json_same (json given.now) (flag_value mark name.now (json own.now)) }
{
    if name == served_name() {
        return is_truth(given, mark.served);
    }
    if name == storage_name() {
        return is_truth(given, mark.storage);
    }
    is_same(given, own)
}

fn same_flagged(mark: Mark, given: &[Field], own: &[Field]) -> bool
    ensures { result ≡ members_same (members_of (map pair_of given.now)) (flagged mark (members_of (map pair_of own.now))) }
{
    if given.len() != own.len() {
        return false;
    }
    for i in 0..given.len() {
        let x = &given[i];
        let y = &own[i];
        if x.name.as_str() != y.name.as_str()
            || !same_flag_value(mark, y.name.as_str(), &x.value, &y.value)
        {
            return false;
        }
    }
    true
}

// Whether a version is the definition's with these flags.
fn same_version(mark: Mark, given: &JVal, own: &JVal) -> bool
    ensures { result ≡ json_same (json given.now) (version_with mark (json own.now)) }
{
    match (given, own) {
        (JVal::Obj(given), JVal::Obj(own)) => same_flagged(mark, given.as_slice(), own.as_slice()),
        (_, JVal::Obj(_)) => false,
        _ => is_same(given, own),
    }
}

fn same_versions(marks: &[JVal], given: &[JVal], own: &[JVal]) -> bool
    ensures { result ≡ items_same (items_of (map json given.now))
        (versions_with (mark_in (versions_read (items_of (map json marks.now)))) 0 (items_of (map json own.now))) }
{
    if given.len() != own.len() {
        return false;
    }
    for v in 0..given.len() {
        if !same_version(mark_in(marks, v), &given[v], &own[v]) {
            return false;
        }
    }
    true
}

// ---- the whole

fn same_list(marks: &[JVal], given: &JVal, own: &JVal) -> bool
    ensures { result ≡ json_same (json given.now)
        (list_with (mark_in (versions_read (items_of (map json marks.now)))) (json own.now)) }
{
    match (given, own) {
        (JVal::List(given), JVal::List(own)) => same_versions(
            marks,
            given.as_slice(),
            own.as_slice(),
        ),
        (_, JVal::List(_)) => false,
        _ => is_same(given, own),
    }
}

fn same_value(marks: &[JVal], name: &str, given: &JVal, own: &JVal) -> bool
    ensures { result ≡ json_same (json given.now)
        (spec_value (mark_in (versions_read (items_of (map json marks.now)))) name.now (json own.now)) }
{
    if name == versions_name() {
        return same_list(marks, given, own);
    }
    is_same(given, own)
}

fn same_fields(marks: &[JVal], given: &[Field], own: &[Field]) -> bool
    ensures { result ≡ members_same (members_of (map pair_of given.now))
        (spec_fields (mark_in (versions_read (items_of (map json marks.now)))) (members_of (map pair_of own.now))) }
{
    if given.len() != own.len() {
        return false;
    }
    for i in 0..given.len() {
        let x = &given[i];
        let y = &own[i];
        if x.name.as_str() != y.name.as_str()
            || !same_value(marks, y.name.as_str(), &x.value, &y.value)
        {
            return false;
        }
    }
    true
}

fn same_spec(marks: &[JVal], given: &JVal, own: &JVal) -> bool
    ensures { result ≡ json_same (json given.now)
        (spec_with (mark_in (versions_read (items_of (map json marks.now)))) (json own.now)) }
{
    match (given, own) {
        (JVal::Obj(given), JVal::Obj(own)) => same_fields(marks, given.as_slice(), own.as_slice()),
        (_, JVal::Obj(_)) => false,
        _ => is_same(given, own),
    }
}

// Whether the `spec` is the definition's, but for the values of `served` and `storage` of each version.
pub(crate) fn is_own(definition: &Definition, given: Option<&JVal>) -> bool
    ensures { IsTrue result ↔ IsOwnSpec definition.now (option_map (λ w. json w.now) given.entry) }
{
    match given {
        None => false,
        Some(spec) => same_spec(versions_in(Some(spec)), spec, definition.spec()),
    }
}
