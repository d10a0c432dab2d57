//! What a line of a script asks for.
/// A turn or a look, and on what. What a line leaves out is empty, 0 or, of the weight, 1.
#[derive(Clone, Copy, Drop)]
pub struct Order<'a> {
    /// Whose it is: the first byte of the line.
    pub who: u8,
    pub word: &'a str,
    pub name: &'a str,
    pub text: &'a str,
    /// The place of a version: of what was prepared, or what is to be set.
    pub at: u8,
    /// An object's number, or the place of a migration.
    pub number: u64,
    /// The place of the request's version.
    pub asked: u8,
    /// How many chunks what was prepared weighs, or how many objects or turns are meant.
    pub weight: u64,
}

/// An order with no operands.
pub fn bare(who: u8, word: &str) -> Order<'_> {
    Order {
        who,
        word,
        name: "",
        text: "",
        at: 0,
        number: 0,
        asked: 0,
        weight: 1,
    }
}

fn put_place(place: &mut u8, word: &str) -> bool {
    match word.parse::<u8>() {
        Ok(number) => {
            *place = number;
            true
        }
        Err(_) => false,
    }
}

fn put_number(place: &mut u64, word: &str) -> bool {
    match word.parse::<u64>() {
        Ok(number) => {
            *place = number;
            true
        }
        Err(_) => false,
    }
}

// A name, or where the order has one a text.
fn put_text<'a>(order: &mut Order<'a>, word: &'a str) {
    if order.name.is_empty() {
        order.name = word;
    } else {
        order.text = word;
    }
}

// The order gets one word more: the place of a version behind `@`, that of the request's version behind `?`, a number
// behind `#`, a weight behind `+`, a name, or a text. Answers whether it is one.
fn put<'a>(order: &mut Order<'a>, word: &'a str) -> bool {
    let rest = word.get(1..).unwrap_or("");
    match word.as_bytes().first() {
        Some(b'@') => put_place(&mut order.at, rest),
        Some(b'?') => put_place(&mut order.asked, rest),
        Some(b'#') => put_number(&mut order.number, rest),
        Some(b'+') => put_number(&mut order.weight, rest),
        Some(_) => {
            put_text(order, word);
            true
        }
        None => false,
    }
}

// The first byte of a line, and the line behind what says whose it is.
fn front(line: &str) -> (u8, &str) {
    let who = line.as_bytes().first().copied().unwrap_or(0);
    match who {
        b'1' | b'2' | b'=' => (who, line.get(2..).unwrap_or("")),
        _ => (who, line),
    }
}

/// The order that a line spells, as `replace a @0 #2 edited`.
pub fn order_of(line: &str) -> Option<Order<'_>> {
    let (who, rest) = front(line);
    let mut order = bare(who, "");
    for word in rest.split_whitespace() {
        if order.word.is_empty() {
            order.word = word;
        } else if !put(&mut order, word) {
            return None;
        }
    }
    Some(order)
}

/// The first byte of an order's word, which tells it.
pub fn code(order: &Order<'_>) -> u8 {
    order.word.as_bytes().first().copied().unwrap_or(0)
}
