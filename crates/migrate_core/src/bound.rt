//! Places between keys, and ranges of keys.
ghost use Rattle.std.specs.Prelude.{◌≡◌};
ghost use Rattle.kube_meta.specs.Plan.{Start, After, End, is_end, passed};

use kube_meta::KeySpot;
use std::cmp::Ordering;
use std::marker::Model;

/// A place between the keys, in their order: before the first, behind one, or behind the last.
#[derive(Drop)]
pub(crate) struct KeyBound {
    pub(crate) place: BoundPlace,
}

#[derive(Drop)]
pub(crate) enum BoundPlace {
    Start,
    After(KeySpot),
    End,
}

impl Model for KeyBound {
    ghost use Rattle.kube_meta.specs.Plan.{Bound};

    ghost Value = { Bound };

    ghost use Rattle.migrate_core.specs.Bounds.{bound_of};

    ghost view = { λ b. bound_of b.place };
}

impl KeyBound {
    pub(crate) fn start() -> KeyBound
        ensures { result ≡ Start }
    {
        KeyBound {
            place: BoundPlace::Start,
        }
    }

    pub(crate) fn after(key: KeySpot) -> KeyBound
        ensures { result ≡ After key }
    {
        KeyBound {
            place: BoundPlace::After(key),
        }
    }

    pub(crate) fn end() -> KeyBound
        ensures { result ≡ End }
    {
        KeyBound {
            place: BoundPlace::End,
        }
    }

    /// The same place once more. It takes no memory.
    pub(crate) fn again(&self) -> KeyBound
        ensures { result ≡ self.now }
    {
        match &self.place {
            BoundPlace::Start => KeyBound::start(),
            BoundPlace::After(key) => KeyBound::after(key.again()),
            BoundPlace::End => KeyBound::end(),
        }
    }

    /// Whether it is behind every key.
    pub(crate) fn is_end(&self) -> bool
        ensures { result ≡ is_end self.now }
    {
        match &self.place {
            BoundPlace::Start => false,
            BoundPlace::After(_) => false,
            BoundPlace::End => true,
        }
    }

    /// Whether a key stands at or before it.
    pub(crate) fn passed(&self, key: &KeySpot) -> bool
        ensures { result ≡ passed self.now key.now }
    {
        match &self.place {
            BoundPlace::Start => false,
            BoundPlace::After(last) => !matches!(key.compare(last), Ordering::Greater),
            BoundPlace::End => true,
        }
    }
}

/// The keys behind one bound, up to another.
#[derive(Drop)]
pub(crate) struct KeyRange {
    pub(crate) after: KeyBound,
    pub(crate) upto: KeyBound,
}

impl Model for KeyRange {
    ghost use Rattle.kube_meta.specs.Plan.{Span};

    ghost Value = { Span };

    ghost view = { λ r. record { after = r.after; upto = r.upto } };
}

impl KeyRange {
    /// All keys.
    pub(crate) fn whole() -> KeyRange
        ensures { result ≡ record { after = Start; upto = End } }
    {
        KeyRange {
            after: KeyBound::start(),
            upto: KeyBound::end(),
        }
    }
}
