//! The first object of a list that isn't as it has to be.
ghost use Rattle.std.specs.Prelude.{◌≡◌, ◌++◌, not, length, is_none, codes, decimal, IfOk};
ghost use Rattle.std.specs.List.{position_from, zip};
ghost use Rattle.kj_value.specs.Kinds.{as_object};
ghost use Rattle.kj_value.specs.Fields.{field};
ghost use Rattle.kj_value.specs.Seen.{json};
ghost use Rattle.review_forms.specs.Form.{has_text, fields_of};
ghost use Rattle.review_forms.specs.Response.{is_same_object};
ghost use Rattle.review_forms.specs.Faults.{OnNotReview};

use crate::fault::ReviewFault;
use crate::fields::has_text;
use crate::sameness::is_same_object;
use kj_value::{JItems, JVal, NoMemory, Txt};
use std::alloc::Global;

/// The first that is no object.
pub(crate) fn first_other(items: &JItems) -> Option<usize>
    ensures { result ≡ position_from (λ j. is_none (as_object j)) 0 items.now }
{
    let values = items.as_slice();
    for i in 0..values.len() {
        let other = values[i].as_object().is_none();
        if other {
            return Some(i);
        }
    }
    None
}

/// Something else than an object stands at the place of the list at the path.
pub(crate) fn not_object(alloc: Global, path: &str, i: usize) -> ReviewFault
    ensures { OnNotReview (λ p. p ≡ path.now ++ (codes "[" ++ decimal i ++ codes "]")) result }
{
    match item_path(alloc, path, i) {
        Ok(path) => ReviewFault::NotReview { path },
        Err(NoMemory) => ReviewFault::NoMemory,
    }
}

fn item_path(alloc: Global, path: &str, i: usize) -> Result<Txt, NoMemory>
    ensures { IfOk result (λ t. t.bytes ≡ path.now ++ (codes "[" ++ decimal i ++ codes "]")) }
{
    let mut text = String::from_str(alloc, path)?;
    let item = format!(in alloc; "[{i}]")?;
    text.push_str(item.as_str())?;
    Ok(Txt::of_string(text))
}

/// The first that isn't of the wanted version.
pub(crate) fn first_elsewhere(objects: &JItems, desired: &str) -> Option<usize>
    ensures { result ≡ position_from (λ k. not (has_text desired.now (field (codes "apiVersion") (fields_of k)))) 0 objects.now }
{
    let values = objects.as_slice();
    for i in 0..values.len() {
        let there = is_at(&values[i], desired);
        if !there {
            return Some(i);
        }
    }
    None
}

fn is_at(object: &JVal, desired: &str) -> bool
    ensures { result ≡ has_text desired.now (field (codes "apiVersion") (fields_of (json object.now))) }
{
    match object.as_object() {
        Some(fields) => has_text(fields, "apiVersion", desired),
        None => false,
    }
}

/// The first that isn't the object at its place of the list that was sent.
pub(crate) fn first_changed(objects: &JItems, sent: &JItems) -> Option<usize>
    requires { length objects.now ≡ length sent.now }
    ensures { result ≡ position_from (λ p. not (is_same_object p.0 p.1)) 0 (zip objects.now sent.now) }
{
    let values = objects.as_slice();
    let others = sent.as_slice();
    for i in 0..values.len() {
        let same = is_same_object(&values[i], &others[i]);
        if !same {
            return Some(i);
        }
    }
    None
}
