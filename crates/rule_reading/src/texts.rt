//! Texts, and pairs of them.
ghost use Rattle.std.specs.Prelude.{◌≡◌, IfOk, option_map};
ghost use Rattle.kj_value.specs.Json.{members_of};
ghost use Rattle.kj_value.specs.Seen.{json};
ghost use Rattle.rule_reading.specs.Words.{word};
ghost use Rattle.rule_reading.specs.Shapes.{two_items, text_read, names_read, field_read};
ghost use Rattle.rule_reading.specs.Told.{answer, two_bytes};

use crate::fields::value_at;
use crate::spot::{Tried, here, in_item, in_name};
use crate::words::Word;
use kj_value::{JFields, JVal, Txt};
use std::alloc::Global;

pub(crate) fn read_text(alloc: Global, v: &JVal) -> Tried<Txt>
    ensures { IfOk result (λ r. answer (λ t. t.bytes) r ≡ text_read (json v.now)) }
{
    match v {
        JVal::Text(t) => Ok(Ok(Txt::of(alloc, t.as_str())?)),
        _ => Ok(Err(here(alloc))),
    }
}

// The items of a list of two.
pub(crate) fn two_items(v: &JVal) -> Option<(&JVal, &JVal)>
    ensures { option_map (λ p. (json p.0.now, json p.1.now)) result ≡ two_items (json v.now) }
{
    match v {
        JVal::List(items) => match items.as_slice() {
            [] => None,
            [_] => None,
            [a, b] => Some((a, b)),
            [_, _, _, ..] => None,
        },
        _ => None,
    }
}

// A list of two texts.
pub(crate) fn read_names(alloc: Global, v: &JVal) -> Tried<(Txt, Txt)>
    ensures { IfOk result (λ r. answer two_bytes r ≡ names_read (json v.now)) }
{
    match two_items(v) {
        None => Ok(Err(here(alloc))),
        Some((a, b)) => match read_text(alloc, a)? {
            Err(spot) => Ok(Err(in_item(alloc, 0, spot)?)),
            Ok(first) => match read_text(alloc, b)? {
                Err(spot) => Ok(Err(in_item(alloc, 1, spot)?)),
                Ok(second) => Ok(Ok((first, second))),
            },
        },
    }
}

pub(crate) fn text_at(alloc: Global, fields: &JFields, i: usize, keyword: Word) -> Tried<Txt>
    ensures { IfOk result (λ r. answer (λ t. t.bytes) r
        ≡ field_read (word keyword) text_read i (members_of fields.now)) }
{
    match value_at(alloc, fields, i, keyword)? {
        Err(spot) => Ok(Err(spot)),
        Ok(v) => match read_text(alloc, v)? {
            Err(spot) => Ok(Err(in_name(alloc, keyword.text(), spot)?)),
            Ok(text) => Ok(Ok(text)),
        },
    }
}

pub(crate) fn names_at(
    alloc: Global,
    fields: &JFields,
    i: usize,
    keyword: Word,
) -> Tried<(Txt, Txt)>
    ensures { IfOk result (λ r. answer two_bytes r
        ≡ field_read (word keyword) names_read i (members_of fields.now)) }
{
    match value_at(alloc, fields, i, keyword)? {
        Err(spot) => Ok(Err(spot)),
        Ok(v) => match read_names(alloc, v)? {
            Err(spot) => Ok(Err(in_name(alloc, keyword.text(), spot)?)),
            Ok(names) => Ok(Ok(names)),
        },
    }
}
