//! Objects out of documents, written, read back and measured.
ghost use Rattle.std.specs.Prelude.{◌≡◌, IfOk, IfSome, option_map};
ghost use Rattle.kube_meta.specs.View.{object_of, stamp_bytes};
ghost use Rattle.object_reading.specs.Written.{IsMoment, IsWritable};

use crate::spelling::cut;
use crate::told::Told;
use crd_admission::measure_within;
use kept_entries::{Entry, Kept, write_kept};
use kj_value::{
    JFields, JVal, MAX_JSON_LEVELS, NoMemory, Stamp, TextList, Txt, depth, read, write,
};
use kube_meta::{Object, copy_object, write_object};
use object_reading::{read_object, read_written};
use std::alloc::Global;

/// The answer to a case, of the object that a document submits, or of kept entries.
pub(crate) fn answer(alloc: Global, word: u8, text: &str, out: &mut Told) {
    match word {
        b'n' => numbered(alloc, text, out),
        b'e' => entries(alloc, out),
        _ => of_document(alloc, word, "", text, out),
    }
}

fn numbered(alloc: Global, text: &str, out: &mut Told) {
    match cut(text, ' ') {
        Some((number, document)) => of_document(alloc, b'n', number, document, out),
        None => out.lose(),
    }
}

fn of_document(alloc: Global, word: u8, number: &str, document: &str, out: &mut Told) {
    match submitted(alloc, document) {
        Some(mut o) => of_object(alloc, word, number, &mut o, out),
        None => out.lose(),
    }
}

fn of_object(alloc: Global, word: u8, number: &str, o: &mut Object, out: &mut Told)
    requires { IsWritable (object_of o.old) }
{
    match word {
        b'n' => with_number(alloc, o, number, out),
        b'u' => unnamed(alloc, o, out),
        _ => measured(alloc, o, out),
    }
}

fn submitted(alloc: Global, text: &str) -> Option<Object>
    ensures { IfSome result (λ o. IsWritable (object_of o)) }
{
    match read(alloc, text.as_bytes(), MAX_JSON_LEVELS) {
        Ok(document) => read_object(alloc, document, "CronTab").ok(),
        Err(_) => None,
    }
}

/// The document of an object.
pub(crate) fn document(alloc: Global, o: &Object) -> Option<JVal> {
    match copy_object(alloc, o) {
        Ok(o) => write_object(alloc, o).ok(),
        Err(_) => None,
    }
}

fn text(alloc: Global, o: &Object) -> Option<Txt> {
    match document(alloc, o) {
        Some(document) => written(alloc, &document),
        None => None,
    }
}

fn written(alloc: Global, document: &JVal) -> Option<Txt> {
    if depth(document) > MAX_JSON_LEVELS {
        return None;
    }
    write(alloc, document).ok()
}

// ---- what is set

fn stamp(text: [u8; 20]) -> Option<Stamp>
    ensures { IfSome (option_map stamp_bytes result) IsMoment }
{
    if !text.as_slice().is_ascii() {
        return None;
    }
    Some(Stamp { text })
}

fn set_stamps(o: &mut Object, generation: i64)
    requires { IsWritable (object_of o.old) }
    ensures { IsWritable (object_of o.new) }
{
    o.meta.created = stamp(*b"2024-01-02T03:04:05Z");
    o.meta.deleted = stamp(*b"2024-01-02T03:04:06Z");
    o.meta.generation = generation;
}

fn set_number(o: &mut Object, number: Txt, uid: Txt)
    requires { IsWritable (object_of o.old) }
    ensures { IsWritable (object_of o.new) }
{
    o.meta.resource_version = Some(number);
    o.meta.uid = Some(uid);
}

fn number_and_uid(alloc: Global, o: &mut Object, number: &str) -> bool
    requires { IsWritable (object_of o.old) }
    ensures { IsWritable (object_of o.new) }
{
    let Ok(number) = Txt::of(alloc, number) else {
        return false;
    };
    match Txt::of(alloc, "u") {
        Ok(uid) => {
            set_number(o, number, uid);
            true
        }
        Err(_) => false,
    }
}

// The body gets a name that the object's own value takes.
fn set_kind(alloc: Global, o: &mut Object) -> bool {
    match Txt::of(alloc, "kind") {
        Ok(name) => o.body.set(name, JVal::Bool(true)).is_ok(),
        Err(_) => false,
    }
}

// ---- written and read back

fn again(alloc: Global, o: &Object) -> Result<Object, NoMemory>
    requires { IsWritable (object_of o.now) }
    ensures { IfOk result (λ p. object_of p ≡ object_of o.now) }
{
    read_written(alloc, write_object(alloc, copy_object(alloc, o)?)?)
}

// The text of an object that was written and read back.
fn text_again(alloc: Global, o: &Object) -> Option<Txt>
    requires { IsWritable (object_of o.now) }
{
    match again(alloc, o) {
        Ok(p) => text(alloc, &p),
        Err(_) => None,
    }
}

// The text of an object with stamps, this number and a uid, where it is also that of what is read back from it.
fn with_number(alloc: Global, o: &mut Object, number: &str, out: &mut Told)
    requires { IsWritable (object_of o.old) }
{
    set_stamps(o, 2);
    if !number_and_uid(alloc, o, number) {
        out.lose();
    }
    add_both(alloc, o, out);
}

fn add_both(alloc: Global, o: &Object, out: &mut Told)
    requires { IsWritable (object_of o.now) }
{
    match text(alloc, o) {
        Some(first) => add_same(first.as_str(), &text_again(alloc, o), out),
        None => out.lose(),
    }
}

// Adds the first of two texts, where they are the same.
fn add_same(first: &str, second: &Option<Txt>, out: &mut Told) {
    match second {
        Some(second) => {
            if first == second.as_str() {
                out.add(first);
            } else {
                out.lose();
            }
        }
        None => out.lose(),
    }
}

// ---- measured

// Adds how many bytes an object measures; there is an answer for each limit from there on, and for none below.
fn add_measure(alloc: Global, o: &Object, out: &mut Told) {
    match measure_within(o, u64::MAX) {
        Some(bytes) => {
            if is_measure(o, bytes) {
                out.add_number(alloc, bytes);
            } else {
                out.lose();
            }
        }
        None => out.lose(),
    }
}

fn is_measure(o: &Object, bytes: u64) -> bool {
    measure_within(o, bytes) == Some(bytes)
        && measure_within(o, 0).is_none()
        && measure_within(o, bytes.saturating_sub(1)).is_none()
}

// What an object measures as it is, and with stamps, and how long its text is at most; and what it measures where it gets a number, a uid and
// a kind too.
fn measured(alloc: Global, o: &mut Object, out: &mut Told)
    requires { IsWritable (object_of o.old) }
{
    add_measure(alloc, o, out);
    set_stamps(o, i64::MAX);
    add_measure(alloc, o, out);
    add_length(alloc, o, out);
    if !number_and_uid(alloc, o, "7") {
        out.lose();
    }
    if !set_kind(alloc, o) {
        out.lose();
    }
    add_measure(alloc, o, out);
}

fn add_length(alloc: Global, o: &Object, out: &mut Told) {
    match text(alloc, o) {
        Some(text) => out.add_number(alloc, text.len() as u64),
        None => out.lose(),
    }
}

fn empty_name(alloc: Global, o: &mut Object) -> bool {
    match Txt::of(alloc, "") {
        Ok(name) => {
            o.meta.name = name;
            true
        }
        Err(_) => false,
    }
}

// The measure and the text of an object whose name is emptied, and whose body gets a kind.
fn unnamed(alloc: Global, o: &mut Object, out: &mut Told) {
    if !empty_name(alloc, o) {
        out.lose();
    }
    if !set_kind(alloc, o) {
        out.lose();
    }
    add_measure(alloc, o, out);
    add_object(alloc, o, out);
}

fn add_object(alloc: Global, o: &Object, out: &mut Told) {
    match text(alloc, o) {
        Some(text) => out.add(text.as_str()),
        None => out.lose(),
    }
}

// ---- kept entries

fn one_entry(alloc: Global) -> Option<Entry> {
    let Ok(name) = Txt::of(alloc, "a") else {
        return None;
    };
    let mut was = JFields::new(alloc);
    if was.set(name, JVal::Int(1)).is_err() {
        return None;
    }
    let at = TextList::new(alloc);
    Some(Entry { at, was })
}

fn add_entry(alloc: Global, kept: &mut Kept) -> bool {
    match one_entry(alloc) {
        Some(entry) => kept.push(entry).is_ok(),
        None => false,
    }
}

// The text of no entries, and how many there are after one more.
fn entries(alloc: Global, out: &mut Told) {
    add_no_entries(alloc, out);
    let mut kept = Kept::new(alloc);
    if !add_entry(alloc, &mut kept) {
        out.lose();
    }
    out.add_number(alloc, kept.len() as u64);
}

fn add_no_entries(alloc: Global, out: &mut Told) {
    match write_kept(alloc, &Kept::new(alloc)) {
        Ok(text) => out.add(text.as_str()),
        Err(_) => out.lose(),
    }
}
