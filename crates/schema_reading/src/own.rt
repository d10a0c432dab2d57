//! The keywords of one node, as its document spells them.
ghost use Rattle.std.specs.Prelude.{◌≡◌, map, option_map, filter, IfOk};
ghost use Rattle.kj_value.specs.Json.{items_of, members_of};
ghost use Rattle.kj_value.specs.Seen.{json};
ghost use Rattle.struct_schema.specs.Names.{value_at};
ghost use Rattle.struct_schema.specs.Shape.{shape, no_map, no_shape};
ghost use Rattle.struct_schema.specs.ShapeOf.{shape_of};
ghost use Rattle.schema_reading.specs.Words.{word};
ghost use Rattle.schema_reading.specs.Kind.{is_yes};
ghost use Rattle.schema_reading.specs.OwnRead.{kind_or_any, number_of, choices_of, form_of, texts_in, names_of, is_counted, own_read};

use crate::keywords::format_of;
use crate::kinds::{is_yes, node_kind, value_at};
use crate::words::{Keyword, passed_type};
use kj_value::{JFields, JItems, JVal, NoMemory, TextList, Txt};
use std::alloc::Global;
use struct_schema::{Choices, IntFormat, NodeKind, Required, Schema};

fn kind_or_any(kind: Option<NodeKind>) -> NodeKind
    ensures { result ≡ kind_or_any kind }
{
    match kind {
        None => NodeKind::Any,
        Some(kind) => kind,
    }
}

fn number_at(fields: &JFields, keyword: Keyword) -> Option<i64>
    ensures { result ≡ number_of (value_at (word keyword) (members_of fields.now)) }
{
    match value_at(fields, keyword) {
        Some(JVal::Int(n)) => Some(*n),
        _ => None,
    }
}

fn is_yes_at(fields: &JFields, keyword: Keyword) -> bool
    ensures { result ≡ is_yes (value_at (word keyword) (members_of fields.now)) }
{
    is_yes(value_at(fields, keyword))
}

fn form_at(fields: &JFields) -> Option<IntFormat>
    ensures { result ≡ form_of (value_at (word Keyword.Format) (members_of fields.now)) }
{
    match value_at(fields, Keyword::Format) {
        None => None,
        Some(v) => format_of(v),
    }
}

fn copy_choices(alloc: Global, items: &JItems) -> Result<Choices, NoMemory>
    ensures { IfOk result (λ js. js ≡ items.now) }
{
    let copies = items.copied(alloc)?;
    Ok(Choices::new(alloc, copies)?)
}

fn choices_at(alloc: Global, fields: &JFields) -> Result<Option<Choices>, NoMemory>
    ensures { IfOk result
        (λ o. o ≡ choices_of (value_at (word Keyword.Enum) (members_of fields.now))) }
{
    match value_at(fields, Keyword::Enum) {
        Some(JVal::List(items)) => Ok(Some(copy_choices(alloc, items)?)),
        _ => Ok(None),
    }
}

fn is_counted(root: bool, name: &str) -> bool
    ensures { result ≡ is_counted root name.now }
{
    passed_type(root, name).is_none()
}

fn names_in(alloc: Global, root: bool, items: &[JVal]) -> Result<TextList, NoMemory>
    ensures { IfOk result
        (λ ns. ns ≡ filter (is_counted root) (texts_in (items_of (map json items.now)))) }
{
    let mut names = TextList::new(alloc);
    for x in items {
        if let JVal::Text(t) = x {
            if is_counted(root, t.as_str()) {
                names.push(Txt::of(alloc, t.as_str())?)?;
            }
        }
    }
    Ok(names)
}

fn names_at(alloc: Global, root: bool, fields: &JFields) -> Result<TextList, NoMemory>
    ensures { IfOk result (λ ns. ns ≡ filter (is_counted root)
        (names_of (value_at (word Keyword.Required) (members_of fields.now)))) }
{
    match value_at(fields, Keyword::Required) {
        Some(JVal::List(items)) => names_in(alloc, root, items.as_slice()),
        _ => Ok(TextList::new(alloc)),
    }
}

fn required_at(alloc: Global, root: bool, fields: &JFields) -> Result<Required, NoMemory>
    ensures { IfOk result (λ ns. ns ≡ filter (is_counted root)
        (names_of (value_at (word Keyword.Required) (members_of fields.now)))) }
{
    let names = names_at(alloc, root, fields)?;
    Ok(Required::new(alloc, names)?)
}

// The schema that a node spells, without its default and the schemas inside it.
pub(crate) fn read_own(alloc: Global, root: bool, fields: &JFields) -> Result<Schema, NoMemory>
    ensures { IfOk result (λ s. shape_of s
        ≡ shape (own_read root (members_of fields.now)) no_map no_shape no_shape) }
{
    let choices = choices_at(alloc, fields)?;
    let required = required_at(alloc, root, fields)?;
    Ok(Schema {
        kind: kind_or_any(node_kind(fields)),
        preserve: is_yes_at(fields, Keyword::Preserve),
        nullable: is_yes_at(fields, Keyword::Nullable),
        choices,
        minimum: number_at(fields, Keyword::Minimum),
        maximum: number_at(fields, Keyword::Maximum),
        format: form_at(fields),
        min_length: number_at(fields, Keyword::MinLength),
        max_length: number_at(fields, Keyword::MaxLength),
        min_items: number_at(fields, Keyword::MinItems),
        max_items: number_at(fields, Keyword::MaxItems),
        required,
        properties: None,
        additional: None,
        items: None,
        default_value: None,
    })
}
