//! Looks at a core, which change nothing.
use crate::answers::{listed, page_text, seen_text, told};
use crate::order::{Order, code};
use crate::turns::key_of;
use api_calls::{StoredList, Token, Versions};
use api_core::{Core, Seen};
use migrate_core::MigrationItem;
use std::alloc::Global;

fn found_text(alloc: Global, found: &Option<Seen>) -> Option<String> {
    match found {
        Some(seen) => seen_text(alloc, seen),
        None => String::from_str(alloc, "none").ok(),
    }
}

// The object of a name, told.
fn object<V: Versions>(alloc: Global, core: &Core<V>, name: &str) -> Option<String> {
    let Some(key) = key_of(alloc, name) else {
        return None;
    };
    match core.peek(alloc, &key) {
        Ok(peeked) => found_text(alloc, &peeked.found),
        Err(_) => None,
    }
}

fn settings_text(alloc: Global, storage: u8, stored: &StoredList, revision: u64) -> Option<String> {
    match format!(in alloc; "#{revision} @{storage} of") {
        Ok(text) => listed(alloc, text.as_str(), stored),
        Err(_) => None,
    }
}

// The revision, the storage version and the stored list.
fn settings<V: Versions>(alloc: Global, core: &Core<V>) -> Option<String> {
    let (flags, stored, revision) = core.settings();
    settings_text(alloc, flags.storage, &stored, revision)
}

fn item_text(alloc: Global, item: Option<&MigrationItem>) -> Option<String> {
    match item {
        Some(item) => {
            let name = item.name();
            let target = item.target();
            let condition = item.condition();
            format!(in alloc; "{name} to @{target} {condition:?}").ok()
        }
        None => String::from_str(alloc, "none").ok(),
    }
}

// The migration at a place, in the order of their starts.
fn migration<V: Versions>(alloc: Global, core: &Core<V>, place: u64) -> Option<String> {
    match core.migrations(alloc) {
        Ok(items) => item_text(alloc, items.as_slice().get(place as usize)),
        Err(_) => None,
    }
}

// So many objects behind a token, or with none the first ones.
fn page_behind<V: Versions>(
    alloc: Global,
    core: &Core<V>,
    behind: Option<&Token>,
    count: u64,
) -> Option<String> {
    match core.page(alloc, 0, None, behind, count) {
        Ok(page) => page_text(alloc, &page),
        Err(fault) => told(alloc, &fault),
    }
}

// The place behind the object of a name, as it stood at a number.
fn token_of(alloc: Global, order: &Order<'_>) -> Option<Token> {
    match key_of(alloc, order.name) {
        Some(key) => Some(Token {
            rv: order.number,
            key,
        }),
        None => None,
    }
}

// So many objects behind that of a name, as they stood at a number, or with no name the first ones as they stand.
fn page<V: Versions>(alloc: Global, core: &Core<V>, order: &Order<'_>) -> Option<String> {
    if order.name.is_empty() {
        return page_behind(alloc, core, None, order.weight);
    }
    match token_of(alloc, order) {
        Some(token) => page_behind(alloc, core, Some(&token), order.weight),
        None => None,
    }
}

/// What a look answers.
pub fn looked<V: Versions>(alloc: Global, core: &Core<V>, order: &Order<'_>) -> Option<String> {
    match code(order) {
        b'o' => object(alloc, core, order.name),
        b's' => settings(alloc, core),
        b'm' => migration(alloc, core, order.number),
        b'p' => page(alloc, core, order),
        _ => None,
    }
}
