//! Texts that are put together piece by piece.
ghost use Rattle.std.specs.Prelude.{◌≡◌, ◌<◌, IfOk, OnOk, string_bytes};
ghost use Rattle.kj_value.specs.Text.{quoted};
ghost use Rattle.api_calls.specs.Documents.{group_version};
ghost use Rattle.call_texts.specs.PageTexts.{Adds, comma_before, left_text, list_back, list_front};

use api_calls::Versions;
use itoa::Buffer;
use kj_value::{JVal, NoMemory, Txt, write};
use std::alloc::Global;

/// What stands before the thing at a place of a list.
pub fn comma_before(i: usize) -> &'static str
    ensures { result.now ≡ comma_before i }
{
    if i == 0 { "" } else { "," }
}

/// A text in quotes.
pub fn quoted(alloc: Global, text: &str) -> Result<Txt, NoMemory>
    ensures { IfOk result (λ t. t.bytes ≡ quoted text.now) }
{
    let value = JVal::Text(Txt::of(alloc, text)?);
    write(alloc, &value)
}

/// `GROUP/VERSION` in quotes.
pub fn group_version<V: Versions>(alloc: Global, versions: &V, v: u8) -> Result<Txt, NoMemory>
    requires { v < (V.meaning versions.now).count }
    ensures { IfOk result (λ t. t.bytes ≡ quoted (group_version (V.meaning versions.now) v)) }
{
    let mut name = String::new(alloc);
    name.push_str(versions.group().as_str())?;
    name.push_str("/")?;
    name.push_str(versions.name(v).as_str())?;
    quoted(alloc, name.as_str())
}

/// Adds a piece. The room doubles where it is spent.
pub fn add(text: &mut String, piece: &str) -> Result<(), NoMemory>
    ensures { OnOk result (Adds (string_bytes text.old) piece.now (string_bytes text.new)) }
{
    text.push_str(piece)?;
    Ok(())
}

/// Adds what stands before the objects of a list.
pub fn add_front<V: Versions>(
    alloc: Global,
    text: &mut String,
    versions: &V,
    v: u8,
) -> Result<(), NoMemory>
    requires { v < (V.meaning versions.now).count }
    ensures { OnOk result (Adds (string_bytes text.old) (list_front (V.meaning versions.now) v) (string_bytes text.new)) }
{
    let version = group_version(alloc, versions, v)?;
    add(text, "{\"apiVersion\":")?;
    add(text, version.as_str())?;
    add(text, ",\"items\":[")?;
    Ok(())
}

// Adds how many objects are left behind a page.
fn add_left(text: &mut String, remaining: u64) -> Result<(), NoMemory>
    ensures { OnOk result (Adds (string_bytes text.old) (left_text remaining) (string_bytes text.new)) }
{
    if remaining == 0 {
        return Ok(());
    }
    let mut buffer = Buffer::new();
    add(text, ",\"remainingItemCount\":")?;
    add(text, buffer.format(remaining))?;
    Ok(())
}

/// Adds what stands behind the objects of a list: the token that goes on, the number, and how many are left.
pub fn add_back<V: Versions>(
    alloc: Global,
    text: &mut String,
    versions: &V,
    token: &str,
    number: u64,
    remaining: u64,
) -> Result<(), NoMemory>
    ensures { OnOk result (Adds (string_bytes text.old) (list_back (V.meaning versions.now) token.now number remaining) (string_bytes text.new)) }
{
    let kind = quoted(alloc, versions.list_kind().as_str())?;
    let token = quoted(alloc, token)?;
    let mut buffer = Buffer::new();
    let number = quoted(alloc, buffer.format(number))?;
    add(text, "],\"kind\":")?;
    add(text, kind.as_str())?;
    add(text, ",\"metadata\":{\"continue\":")?;
    add(text, token.as_str())?;
    add_left(text, remaining)?;
    add(text, ",\"resourceVersion\":")?;
    add(text, number.as_str())?;
    add(text, "}}")?;
    Ok(())
}
