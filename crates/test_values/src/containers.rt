//! Lists and objects of values, lists of texts, texts by name, a text that grows and a moment.
use crate::told::Told;
use kj_value::{
    JFields, JItems, JVal, Stamp, TextList, TextMap, Txt, depth, one_reading, one_text,
    reading_depth, same, sound, text_reads,
};
use std::alloc::Global;

/// The answer to a case.
pub(crate) fn answer(alloc: Global, word: u8, text: &str, out: &mut Told) {
    match word {
        b'i' => items(alloc, out),
        b'f' => fields(alloc, text, out),
        b'F' => fields_read(alloc, text, out),
        b'T' => texts(alloc, text, out),
        b'M' => map(alloc, text, out),
        b'x' => joined(alloc, out),
        b'm' => moment(out),
        _ => laws(out),
    }
}

fn laws(out: &mut Told) {
    sound(&JVal::Null);
    one_text();
    one_reading();
    reading_depth();
    text_reads();
    out.add("laws");
}

// ---- values

fn fill(items: &mut JItems) -> bool {
    items.push(JVal::Int(1)).is_ok() && items.push(JVal::Bool(true)).is_ok()
}

fn add_items(alloc: Global, items: &JItems, out: &mut Told) {
    out.add_number(alloc, items.len() as u64);
    out.add_number(alloc, items.as_slice().len() as u64);
    out.add_is(items.get(1).is_some());
    out.add_is(items.get(2).is_some());
}

// Whether the first item was the number 1, where null stands now.
fn replaced(items: &mut JItems) -> bool {
    if items.len() == 0 {
        return false;
    }
    same(&items.replace(0, JVal::Null), &JVal::Int(1))
}

fn items(alloc: Global, out: &mut Told) {
    match JItems::with_room(alloc, 1) {
        Ok(items) => filled(alloc, items, out),
        Err(_) => out.lose(),
    }
    out.add_number(alloc, depth(&JVal::List(JItems::new(alloc))) as u64);
}

fn filled(alloc: Global, items: JItems, out: &mut Told) {
    let mut items = items;
    fill_and_replace(alloc, &mut items, out);
    out.add_value(alloc, &JVal::List(items));
}

fn fill_and_replace(alloc: Global, items: &mut JItems, out: &mut Told) {
    if !fill(items) {
        out.lose();
    }
    add_items(alloc, items, out);
    out.add_is(replaced(items));
}

fn put(alloc: Global, fields: &mut JFields, name: &str, n: i64) -> bool {
    match Txt::of(alloc, name) {
        Ok(name) => fields.set(name, JVal::Int(n)).is_ok(),
        Err(_) => false,
    }
}

// Sets each of these names to its place.
fn set_all(alloc: Global, fields: &mut JFields, text: &str, out: &mut Told) {
    let mut n = 0i64;
    for name in text.split(' ') {
        n = n.wrapping_add(1);
        if !put(alloc, fields, name, n) {
            out.lose();
        }
    }
}

fn fields(alloc: Global, text: &str, out: &mut Told) {
    let mut fields = JFields::new(alloc);
    set_and_count(alloc, &mut fields, text, out);
    out.add_value(alloc, &JVal::Obj(fields));
    out.add_number(alloc, depth(&JVal::Obj(JFields::new(alloc))) as u64);
}

fn set_and_count(alloc: Global, fields: &mut JFields, text: &str, out: &mut Told) {
    set_all(alloc, fields, text, out);
    out.add_number(alloc, fields.len() as u64);
}

fn add_fields(fields: &JFields, out: &mut Told) {
    match fields.at(1) {
        Some((name, _)) => out.add(name),
        None => out.lose(),
    }
    out.add_is(fields.get("b").is_some());
    out.add_is(fields.get("aa").is_some());
}

fn remove_fields(alloc: Global, fields: &mut JFields, out: &mut Told) {
    out.add_is(fields.remove("aa").is_some());
    out.add_is(fields.remove("a").is_some());
    out.add_number(alloc, fields.as_slice().len() as u64);
}

fn fields_read(alloc: Global, text: &str, out: &mut Told) {
    let mut fields = JFields::new(alloc);
    set_all(alloc, &mut fields, text, out);
    add_fields(&fields, out);
    remove_fields(alloc, &mut fields, out);
    out.add_number(alloc, fields.into_vec().len() as u64);
}

// ---- texts

fn add_texts(alloc: Global, texts: &TextList, out: &mut Told) {
    out.add_number(alloc, texts.len() as u64);
    match texts.get(0) {
        Some(text) => out.add(text.as_str()),
        None => out.lose(),
    }
    out.add_is(texts.get(1).is_some());
    out.add_number(alloc, texts.as_slice().len() as u64);
}

fn push_text(alloc: Global, texts: &mut TextList, text: &str) -> bool {
    match Txt::of(alloc, text) {
        Ok(text) => texts.push(text).is_ok(),
        Err(_) => false,
    }
}

fn texts(alloc: Global, text: &str, out: &mut Told) {
    let mut texts = TextList::new(alloc);
    if !push_text(alloc, &mut texts, text) {
        out.lose();
    }
    add_texts(alloc, &texts, out);
    out.add_number(alloc, texts.into_vec().len() as u64);
}

fn put_text(alloc: Global, map: &mut TextMap, name: &str, value: &str) -> bool {
    let Ok(name) = Txt::of(alloc, name) else {
        return false;
    };
    match Txt::of(alloc, value) {
        Ok(value) => map.set(name, value).is_ok(),
        Err(_) => false,
    }
}

// Whether a pair has a name of one byte and a value, which was set.
fn put_pair(alloc: Global, map: &mut TextMap, pair: &str) -> bool {
    match pair.split_at_checked(1) {
        Some((name, value)) => put_text(alloc, map, name, value),
        None => false,
    }
}

fn set_texts(alloc: Global, map: &mut TextMap, text: &str, out: &mut Told) {
    for pair in text.split(' ') {
        if !put_pair(alloc, map, pair) {
            out.lose();
        }
    }
}

fn add_map(alloc: Global, map: &TextMap, out: &mut Told) {
    out.add_number(alloc, map.len() as u64);
    match map.get("b") {
        Some(text) => out.add(text.as_str()),
        None => out.lose(),
    }
    match map.at(0) {
        Some((name, _)) => out.add(name),
        None => out.lose(),
    }
}

fn remove_texts(alloc: Global, map: &mut TextMap, out: &mut Told) {
    out.add_is(map.remove("a").is_some());
    out.add_is(map.remove("a").is_some());
    out.add_number(alloc, map.as_slice().len() as u64);
}

fn map(alloc: Global, text: &str, out: &mut Told) {
    let mut map = TextMap::new(alloc);
    set_texts(alloc, &mut map, text, out);
    add_map(alloc, &map, out);
    remove_texts(alloc, &mut map, out);
    out.add_number(alloc, map.into_vec().len() as u64);
}

fn joined(alloc: Global, out: &mut Told) {
    match Txt::with_room(alloc, 3) {
        Ok(mut text) => {
            text.add("a");
            text.add("é");
            out.add_number(alloc, text.len() as u64);
            out.add(text.as_str());
            out.add(text.into_string().as_str());
        }
        Err(_) => out.lose(),
    }
}

fn moment(out: &mut Told) {
    let stamp = Stamp {
        text: *b"2024-01-02T03:04:05Z",
    };
    out.add(stamp.as_str());
}
