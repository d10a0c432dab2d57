//! Cases of what no request shows: values and their containers, the outside in memory and of `std`, messages of HTTP, responses in chunks,
//! links, keys and tokens, the cache of forms, objects that are measured, responses to reviews, objects that converters turn, and requests
//! that a definition with a converter admits.
//!
//! They are told by scripts, which are cases of `test_calls`. The first line of a script says of which part it is, and its name. Each other
//! line is a case: its first byte tells what is done with the text behind the second, and the answer is a line. Where a case is bytes, `~`
//! stands for one that no text has, `` ` `` for the first of two, `|` with a letter for a control byte, and `(PIECE*COUNT)` for so many pieces.
//!
//! | part | line | what is answered |
//! |---|---|---|
//! | any | `: TEXT` | nothing: what the lines behind it are given beside, which is the most levels of a value, or the objects that were sent |
//! | `# values` | `r TEXT` | the text of the value that bytes are, or why they are none |
//! | | `t TEXT` | the text of the value that bytes are as a text |
//! | | `d TEXT`, `c TEXT`, `s TEXT` | how deep a value is; its copy; whether the first two items of a list are the same |
//! | | `i`, `f`, `F`, `T`, `M`, `x`, `m`, `L` | lists, fields that are set and read, texts, texts by name, a text that grows, a moment, laws |
//! | `# outside` | `S`, `C` | a moment at so many seconds; what the system's clock says then |
//! | | `R`, `W`, `w` | readers and writers of `std`: a letter for each |
//! | | `a`, `A`, `b`, `B` | a source and a sink in memory, and those that never fail |
//! | | `p`, `P`, `D` | files in memory, those that never fail, and a file of the system |
//! | | `e`, `k`, `K` | a connection; exchanges of a link; and of three that are made and taken back |
//! | `# messages` | `q`, `z` | the requests, or the response, that are read in pieces of each of some sizes, where a call fails or none |
//! | | `o`, `n`, `O` | messages that are written: to a sink with so much room, to a narrow one, and where each call fails in turn |
//! | | `c`, `L` | what is handed on of a response that may be in chunks, `as it is` or with its length; laws |
//! | `# keys` | `k KEY KEY`, `n NAME NAME` | a key, or a name, out of its place, and how it stands to another |
//! | | `t TOKEN`, `T NUMBER`, `u BOOT BORN`, `m` | what a token says; a token; a uid; the refusal for want of memory |
//! | | `2` | what is kept and found in a cache of two forms |
//! | `# documents` | `n NUMBER DOCUMENT` | the text of an object with stamps, a number and a uid, which reads back |
//! | | `m DOCUMENT`, `u DOCUMENT` | what an object measures; the same of one without its name, and its text |
//! | | `e` | the text of no kept entries, and how many there are after one more |
//! | `# reviews` | `r TEXT`, `e TEXT`, `f` | what is taken of a response; the same of an exchange with this answer, or one that fails, and its request |
//! | `# turns` | `r TO OBJECT` | what the converter that renames a field turns an object to |
//! | | `l TO~OBJECT~ANSWER~ANSWER` | what turns come to over a link in memory with these answers, one turn for each and one more; how often the converter failed; and its requests |
//! | `# hooks` | `l HUB` | whether the definition of `src/hooks.rt` is loaded with that hub |
//! | | `a VERSION~BODY~ANSWER~ANSWER` | what a create at the version is admitted with, by a converter with these answers, or why it is refused; then the turns, and a `!` for each fault. An answer is a document, `-` for a refusal or `!` for a fault. A document of more than 1,000 bytes is told by how many these are |
//!
//! Nothing here has a contract that says what is answered.
#![tactic(auto)]

mod chunks;
mod containers;
mod forms;
mod hooks;
mod keys;
mod links;
mod messages;
mod objects;
mod outside;
mod reviews;
mod spelling;
mod streams;
mod told;
mod turns;
mod values;

use std::alloc::Global;
use std::rt;
use told::Told;

fn answer<R: rt::Files>(
    system: &R,
    alloc: Global,
    part: u8,
    given: &str,
    word: u8,
    text: &str,
    out: &mut Told,
) {
    match part {
        b'v' => values::answer(alloc, given, word, text, out),
        b'o' => outside::answer(alloc, system, word, text, out),
        b'm' => messages::answer(alloc, word, text, out),
        b'k' => keys::answer(alloc, word, text, out),
        b'd' => objects::answer(alloc, word, text, out),
        b't' => turns::answer(alloc, word, text, out),
        b'h' => hooks::answer(alloc, word, text, out),
        _ => reviews::answer(alloc, given, word, text, out),
    }
}

// Adds a line. Answers whether there was room.
fn add(all: &mut String, line: &str) -> bool {
    all.push_str(line).is_ok() && all.push_str("\n").is_ok()
}

// Adds the line that a case is answered with.
fn add_answer<R: rt::Files>(
    system: &R,
    alloc: Global,
    part: u8,
    given: &str,
    line: &str,
    all: &mut String,
) -> bool {
    let mut out = Told::new(alloc);
    match line.as_bytes().first() {
        Some(word) => {
            let text = line.get(2..).unwrap_or("");
            answer(system, alloc, part, given, *word, text, &mut out);
        }
        None => out.lose(),
    }
    add(all, out.line().unwrap_or("no such case"))
}

/// What a script answers, whose first line begins with `# ` and the name of a part, which is known by its first byte: a line for each case.
pub fn tell<R: rt::Files>(system: &R, alloc: Global, head: &str, lines: &str) -> Option<String> {
    let part = *head.as_bytes().get(2)?;
    let mut given = "";
    let mut all = String::new(alloc);
    for line in lines.lines() {
        if line.starts_with(": ") {
            given = line.get(2..)?;
        } else if !add_answer(system, alloc, part, given, line, &mut all) {
            return None;
        }
    }
    Some(all)
}
