//! Whether values keep the rules of the fields of metadata.
ghost use Rattle.std.specs.Prelude.{◌≡◌, option_map, List, ℕ};
ghost use Rattle.std.specs.List.{list_all};
ghost use Rattle.kj_value.specs.Seen.{json};
ghost use Rattle.kj_value.specs.Pair.{pair_of};
ghost use Rattle.kj_value.specs.Fields.{field};
ghost use Rattle.kube_meta.specs.Names.{is_name, is_namespace};
ghost use Rattle.object_reading.specs.Finalizers.{is_finalizer};
ghost use Rattle.object_reading.specs.Labels.{is_label_value};
ghost use Rattle.object_reading.specs.Numbers.{is_resource_version};
ghost use Rattle.object_reading.specs.Fields.{given};
ghost use Rattle.object_reading.specs.Rules.{keeps, is_text, is_list, any_text, any_list, is_label, are_labels, is_annotation, are_annotations, few_finalizers, are_finalizers, is_named};

use crate::finalizers::{FINALIZERS, finalizer_ok};
use crate::labels::{annotation_key_ok, label_key_ok, label_value_ok};
use crate::numerals::resource_version_ok;
use kj_value::{Field, JFields, JItems, JVal};
use kube_meta::{name_ok, namespace_ok};

/// The value at a name, where it isn't null.
pub fn given<'a>(fields: &'a JFields, name: &str) -> Option<&'a JVal>
    ensures { option_map (λ v. json v.now) result ≡ given (field name.now fields.entry.now) }
{
    match fields.get(name) {
        Some(JVal::Null) => None,
        Some(value) => Some(value),
        None => None,
    }
}

/// Whether labels keep their rule.
#[tactic(auto, using(crate::proofs::Lists::pairs_members))]
pub(crate) fn labels_ok(value: Option<&JVal>) -> bool
    ensures { result ≡ keeps are_labels (option_map (λ v. json v.now) value.entry) }
{
    match value {
        None => true,
        Some(JVal::Obj(fields)) => all_labels(fields),
        _ => false,
    }
}

fn all_labels(fields: &JFields) -> bool
    ensures { result ≡ list_all is_label fields.now }
{
    fields.as_slice().iter().all(|f| label_ok(f))
}

fn label_ok(field: &Field) -> bool
    ensures { result ≡ is_label (pair_of field.now) }
{
    match &field.value {
        JVal::Text(text) => label_key_ok(field.name.as_str()) && label_value_ok(text.as_str()),
        _ => false,
    }
}

/// Whether annotations keep their rule.
#[tactic(auto, using(crate::proofs::Lists::pairs_members))]
pub(crate) fn annotations_ok(value: Option<&JVal>) -> bool
    ensures { result ≡ keeps are_annotations (option_map (λ v. json v.now) value.entry) }
{
    match value {
        None => true,
        Some(JVal::Obj(fields)) => all_annotations(fields),
        _ => false,
    }
}

fn all_annotations(fields: &JFields) -> bool
    ensures { result ≡ list_all is_annotation fields.now }
{
    fields.as_slice().iter().all(|f| annotation_ok(f))
}

fn annotation_ok(field: &Field) -> bool
    ensures { result ≡ is_annotation (pair_of field.now) }
{
    match &field.value {
        JVal::Text(_) => annotation_key_ok(field.name.as_str()),
        _ => false,
    }
}

/// Whether finalizers keep their rule.
#[tactic(auto, using(crate::proofs::Lists::list_items))]
pub(crate) fn finalizers_ok(value: Option<&JVal>) -> bool
    ensures { result ≡ keeps are_finalizers (option_map (λ v. json v.now) value.entry) }
{
    match value {
        None => true,
        Some(JVal::List(items)) => few_finalizers(items),
        _ => false,
    }
}

fn few_finalizers(items: &JItems) -> bool
    ensures { result ≡ few_finalizers items.now }
{
    items.len() <= FINALIZERS && all_finalizers(items)
}

fn all_finalizers(items: &JItems) -> bool
    ensures { result ≡ list_all (is_text is_finalizer) items.now }
{
    items.as_slice().iter().all(|j| item_ok(j))
}

fn item_ok(item: &JVal) -> bool
    ensures { result ≡ is_text is_finalizer (json item.now) }
{
    match item {
        JVal::Text(text) => finalizer_ok(text.as_str()),
        _ => false,
    }
}

/// Whether references to owners keep their rule: any list.
pub(crate) fn owners_ok(value: Option<&JVal>) -> bool
    ensures { result ≡ keeps (is_list any_list) (option_map (λ v. json v.now) value.entry) }
{
    match value {
        None => true,
        Some(JVal::List(_)) => true,
        _ => false,
    }
}

/// Whether a namespace keeps its rule.
pub(crate) fn namespace_field_ok(value: Option<&JVal>) -> bool
    ensures { result ≡ keeps (is_text is_namespace) (option_map (λ v. json v.now) value.entry) }
{
    match value {
        None => true,
        Some(JVal::Text(text)) => namespace_ok(text.as_str()),
        _ => false,
    }
}

/// Whether a resource version keeps its rule.
pub(crate) fn resource_version_field_ok(value: Option<&JVal>) -> bool
    ensures { result ≡ keeps (is_text is_resource_version) (option_map (λ v. json v.now) value.entry) }
{
    match value {
        None => true,
        Some(JVal::Text(text)) => resource_version_ok(text.as_str()),
        _ => false,
    }
}

/// Whether there is a name, and it is the name of an object.
pub(crate) fn name_field_ok(value: Option<&JVal>) -> bool
    ensures { result ≡ is_named (option_map (λ v. json v.now) value.entry) }
{
    match value {
        Some(JVal::Text(text)) => name_ok(text.as_str()),
        _ => false,
    }
}
