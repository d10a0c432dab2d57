//! What each line of a case says.
use crate::case::{Again, Asked, Block, Case, Connections, Documents, Outside};
use crate::lines::Lines;
use crate::telling::go;
use std::alloc::Global;
use std::mem;
use std::sync::Wait;
use std::thread::Threads;
use std::time::Clock;

// What stands behind the word of a line.
fn behind(line: &str) -> &str {
    match line.find(' ') {
        Some(place) => line.get(place.wrapping_add(1)..).unwrap_or(""),
        None => "",
    }
}

// So many times the text.
fn repeated(alloc: Global, text: &str, times: usize) -> Option<String> {
    let mut all = Lines::new(alloc);
    for _ in 0..times {
        all.push(text);
    }
    all.told()
}

// Puts a text in place of another. Answers whether there was memory.
fn put(alloc: Global, place: &mut String, text: &str) -> bool {
    match String::from_str(alloc, text) {
        Ok(text) => {
            *place = text;
            true
        }
        Err(_) => false,
    }
}

fn edit(alloc: Global, documents: &mut Documents, text: &str) -> bool {
    let old = documents.old.as_str();
    match documents.crd.as_str().replacen(alloc, old, text, 1) {
        Ok(crd) => {
            documents.crd = crd;
            true
        }
        Err(_) => false,
    }
}

fn of_documents(alloc: Global, documents: &mut Documents, word: u8, text: &str) -> bool {
    match word {
        b'd' => { put(alloc, &mut documents.base, text) && put(alloc, &mut documents.crd, text) }
        b'r' => put(alloc, &mut documents.rules, text),
        b'-' => put(alloc, &mut documents.old, text),
        _ => edit(alloc, documents, text),
    }
}

fn add_get(alloc: Global, asked: &mut Asked, target: &str) -> bool {
    match format!(in alloc; "GET {target} HTTP/1.1\r\n\r\n") {
        Ok(head) => asked.input.push_str(head.as_str()).is_ok(),
        Err(_) => false,
    }
}

// The request that isn't whole yet, with its body.
fn request(alloc: Global, asked: &Asked) -> Option<String> {
    let target = asked.target.as_str();
    let body = asked.body.as_str();
    let len = body.len();
    format!(in alloc; "{target} HTTP/1.1\r\nContent-Length: {len}\r\n\r\n{body}").ok()
}

fn add_body(alloc: Global, asked: &mut Asked, text: &str) -> bool {
    if asked.body.push_str(text).is_err() {
        return false;
    }
    match request(alloc, asked) {
        Some(request) => {
            asked.body.clear();
            asked.input.push_str(request.as_str()).is_ok()
        }
        None => false,
    }
}

fn add_line(input: &mut String, text: &str, end: &str) -> bool {
    input.push_str(text).is_ok() && input.push_str(end).is_ok()
}

fn of_requests(alloc: Global, asked: &mut Asked, word: u8, text: &str) -> bool {
    match word {
        b'p' => asked.body.push_str(text).is_ok(),
        b'b' => add_body(alloc, asked, text),
        b'i' => asked.input.push_str(text).is_ok(),
        b'L' => add_line(&mut asked.input, text, "\n"),
        _ => add_line(&mut asked.input, text, "\r\n"),
    }
}

// Whether it is a number, which is put there.
fn put_size(place: &mut usize, text: &str) -> bool {
    match text.parse::<usize>() {
        Ok(n) => {
            *place = n;
            true
        }
        Err(_) => false,
    }
}

fn put_number(place: &mut u64, text: &str) -> bool {
    match text.parse::<u64>() {
        Ok(n) => {
            *place = n;
            true
        }
        Err(_) => false,
    }
}

fn of_connections(connections: &mut Connections, word: u8, text: &str) -> bool {
    match word {
        b'm' => put_size(&mut connections.count, text),
        b'F' => put_number(&mut connections.failing_read, text),
        _ => put_number(&mut connections.failing_write, text),
    }
}

fn of_outside(outside: &mut Outside, word: u8, text: &str) -> bool {
    match word {
        b's' => put_size(&mut outside.piece, text),
        b'f' => put_number(&mut outside.failing_read, text),
        b'u' => put_number(&mut outside.failing_write, text),
        b'c' => put_number(&mut outside.failing_ears, text),
        b'm' | b'F' | b'U' => of_connections(&mut outside.connections, word, text),
        b'l' => put_size(&mut outside.last, text),
        b'D' => {
            outside.spoils_crd = true;
            true
        }
        b'R' => {
            outside.spoils_rules = true;
            true
        }
        _ => false,
    }
}

fn of_again(alloc: Global, again: &mut Again, word: u8, text: &str) -> bool {
    if word == b'a' {
        return put(alloc, &mut again.pieces, text);
    }
    if text == "place" {
        again.places = true;
    } else {
        again.faults = true;
    }
    true
}

fn of_case(alloc: Global, case: &mut Case, word: u8, text: &str) -> bool {
    match word {
        b'd' | b'r' | b'-' | b'+' => of_documents(alloc, &mut case.documents, word, text),
        b'p' | b'b' | b'i' | b'h' | b'L' => of_requests(alloc, &mut case.asked, word, text),
        b'a' | b'e' => of_again(alloc, &mut case.again, word, text),
        _ => of_outside(&mut case.outside, word, text),
    }
}

fn add_gets(alloc: Global, asked: &mut Asked, target: &str, times: usize) -> bool {
    for _ in 0..times {
        if !add_get(alloc, asked, target) {
            return false;
        }
    }
    true
}

// The next line, which stands so many times.
fn of_times(alloc: Global, case: &mut Case, word: u8, text: &str) -> bool {
    let times = case.times;
    case.times = 1;
    match word {
        b't' => put_size(&mut case.times, text),
        b'G' => add_gets(alloc, &mut case.asked, text, times),
        _ => match repeated(alloc, text, times) {
            Some(all) => of_case(alloc, case, word, all.as_str()),
            None => false,
        },
    }
}

// Nothing is printed where a line was taken, and there is no answer where it wasn't.
fn silent(alloc: Global, is_taken: bool) -> Option<String> {
    if is_taken {
        Some(String::new(alloc))
    } else {
        None
    }
}

// Takes a line, and answers what is to be printed; there is no answer where it is no line, or memory is wanted.
fn take_line<R: Threads + Wait + Clock + Sync>(
    rt: &R,
    alloc: Global,
    case: &mut Case,
    line: &str,
) -> Option<String> {
    match line.as_bytes().first() {
        None => silent(alloc, true),
        Some(b'#') => format!(in alloc; "{line}\n").ok(),
        Some(b'.') => go(rt, alloc, case),
        Some(b'w') => silent(alloc, put(alloc, &mut case.asked.words, line)),
        Some(b'P') => silent(alloc, put(alloc, &mut case.asked.target, line)),
        Some(word) => silent(alloc, of_times(alloc, case, *word, behind(line))),
    }
}

// Takes lines, with this text in place of each `@`.
fn take_lines<R: Threads + Wait + Clock + Sync>(
    rt: &R,
    alloc: Global,
    case: &mut Case,
    lines: &[String],
    number: &str,
    all: &mut Lines,
) {
    for line in lines {
        match line.as_str().replace(alloc, "@", number) {
            Ok(line) => all.add(take_line(rt, alloc, case, line.as_str())),
            Err(_) => all.lose(),
        }
    }
}

// Takes the lines of a block once for each of its numbers, with the number in place of each `@`.
fn take_block<R: Threads + Wait + Clock + Sync>(
    rt: &R,
    alloc: Global,
    case: &mut Case,
    block: Block,
) -> Option<String> {
    let mut all = Lines::new(alloc);
    for number in block.first..block.end {
        match format!(in alloc; "{number}") {
            Ok(number) => take_lines(rt, alloc, case, &block.lines, number.as_str(), &mut all),
            Err(_) => all.lose(),
        }
    }
    all.told()
}

// Puts a line behind the others of a block.
fn gather(alloc: Global, lines: &mut Vec<String>, line: &str) -> bool {
    match String::from_str(alloc, line) {
        Ok(line) => lines.push(line).is_ok(),
        Err(_) => false,
    }
}

// Begins a block of the numbers from the one on and below the other.
fn begin(block: &mut Block, numbers: &str) -> bool {
    match numbers.split_once(' ') {
        Some((first, end)) => put_size(&mut block.first, first) && put_size(&mut block.end, end),
        None => false,
    }
}

/// Takes a line, and answers what is to be printed; there is no answer where it is no line, or memory is wanted.
pub fn take<R: Threads + Wait + Clock + Sync>(
    rt: &R,
    alloc: Global,
    case: &mut Case,
    line: &str,
) -> Option<String> {
    if line == "@" {
        let block = mem::replace(&mut case.block, Block::new(alloc));
        return take_block(rt, alloc, case, block);
    }
    if line.starts_with("@ ") {
        return silent(alloc, begin(&mut case.block, behind(line)));
    }
    if case.block.first < case.block.end {
        return silent(alloc, gather(alloc, &mut case.block.lines, line));
    }
    take_line(rt, alloc, case, line)
}
