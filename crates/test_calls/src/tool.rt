//! The tool of the tests: it may fail at a conversion of a chosen number, and it may wait for another thread.
ghost use Rattle.std.specs.Prelude.{◌≡◌, ◌≤◌, ◌<◌, IsTrue};

use api_calls::Tool;
use std::alloc::Global;
use std::sync::Arc;
use std::sync::atomic::{AtomicU64, Ordering};

// How often is asked at most whether the other thread has come so far.
const TRIES: u64 = 1_000_000_000;

/// A call of the definition.
#[derive(Clone, Copy, PartialEq, Eq, Drop)]
pub enum Place {
    Admit,
    Form,
    HubOf,
}

// The call of this name, by its second letter.
fn place_of(word: &str) -> Option<Place> {
    match word.as_bytes().get(1) {
        Some(b'd') => Some(Place::Admit),
        Some(b'o') => Some(Place::Form),
        Some(b'u') => Some(Place::HubOf),
        _ => None,
    }
}

/// How far two threads have come, of which one waits inside a call until the other has its answer.
pub struct Post {
    // Each is 0 until it is so.
    waits: AtomicU64,
    answered: AtomicU64,
    spent: AtomicU64,
}

impl Drop for Post {
    fn drop(self) {
        let Post {
            waits: _,
            answered: _,
            spent: _,
        } = self;
    }
}

// Whether the word was set before the tries were spent.
fn comes(word: &AtomicU64) -> bool {
    for _ in 0..TRIES {
        if word.load(Ordering::SeqCst) != 0 {
            return true;
        }
    }
    false
}

impl Post {
    /// Nothing has happened at it.
    pub fn new() -> Post {
        Post {
            waits: AtomicU64::new(0),
            answered: AtomicU64::new(0),
            spent: AtomicU64::new(0),
        }
    }

    // Waits until the other thread has its answer.
    fn wait(&self) {
        self.waits.store(1, Ordering::SeqCst);
        if !comes(&self.answered) {
            self.spent.store(1, Ordering::SeqCst);
        }
    }

    /// Waits until a call waits here.
    pub fn see(&self) {
        if !comes(&self.waits) {
            self.spent.store(1, Ordering::SeqCst);
        }
    }

    /// Lets the call go on that waits here.
    pub fn tell(&self) {
        self.answered.store(1, Ordering::SeqCst);
    }

    /// Whether someone waited in vain.
    pub fn is_spent(&self) -> bool {
        self.spent.load(Ordering::SeqCst) != 0
    }
}

/// A tool that fails once, at the conversion of a chosen number, and counts that. It may also wait once, in one call of
/// the definition.
pub struct Chosen {
    left: u64,
    faults: u64,
    place: Place,
    post: Option<Arc<Post, Global>>,
}

impl Drop for Chosen {
    fn drop(self) {
        let Chosen {
            left: _,
            faults: _,
            place: _,
            post: _,
        } = self;
    }
}

impl Chosen {
    /// A tool that fails at the conversion of this number, counted from 1; it never fails where the number is 0.
    pub fn at(number: u64) -> Chosen {
        Chosen {
            left: number,
            faults: 0,
            place: Place::Admit,
            post: None,
        }
    }

    /// A tool that never fails, and waits at the post the first time that the call of this name is made.
    pub fn waiting(word: &str, post: &Arc<Post, Global>) -> Option<Chosen> {
        let Some(place) = place_of(word) else {
            return None;
        };
        match Arc::try_clone(post) {
            Ok(post) => Some(Chosen {
                left: 0,
                faults: 0,
                place,
                post: Some(post),
            }),
            Err(_) => None,
        }
    }

    /// Waits where this is the call that waits.
    pub fn meet(&mut self, place: Place)
        ensures { self.new.faults ≡ self.old.faults }
    {
        if self.place == place {
            if let Some(post) = self.post.take() {
                post.wait();
            }
        }
    }

    /// Counts a conversion. Whether it fails.
    pub fn fails(&mut self) -> bool
        ensures fails { IsTrue result → self.old.faults < self.new.faults }
        ensures rises { self.old.faults ≤ self.new.faults }
    {
        self.left = self.left.wrapping_sub(1);
        if self.left != 0 {
            return false;
        }
        match self.faults.checked_add(1) {
            Some(faults) => {
                self.faults = faults;
                true
            }
            None => false,
        }
    }
}

impl Tool for Chosen {
    ghost faults = { λ t. t.faults };

    fn count(&self) -> u64 {
        self.faults
    }
}
