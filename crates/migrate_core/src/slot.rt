//! A place for one claim.
ghost use Rattle.std.specs.Prelude.{◌≡◌};
ghost use Rattle.std.specs.Option.{option_copied};
ghost use Rattle.kube_meta.specs.Plan.{Span, Free, Held, Loose, After, is_free, is_loose};
ghost use Rattle.migrate_core.specs.inner.Slots.{is_held, is_held_by, held_as, held_span, turned};

use crate::bound::{KeyBound, KeyRange};
use kube_meta::KeySpot;
use std::marker::Model;

/// A place for one claim: free, held by the claim of a number, or loose; the last two have a range of keys.
#[derive(Drop)]
pub(crate) struct ClaimSlot {
    state: SlotUse,
    // Means nothing where the slot is free.
    range: KeyRange,
}

#[derive(Clone, Copy, Drop)]
pub(crate) enum SlotUse {
    Free,
    Held(u64),
    Loose,
}

impl Model for ClaimSlot {
    ghost use Rattle.kube_meta.specs.Plan.{Slot};

    ghost Value = { Slot };

    ghost use Rattle.migrate_core.specs.SlotUses.{slot_of};

    ghost view = { λ s. slot_of s.state s.range };
}

impl ClaimSlot {
    pub(crate) fn free() -> ClaimSlot
        ensures { result ≡ Free }
    {
        ClaimSlot {
            state: SlotUse::Free,
            range: KeyRange::whole(),
        }
    }

    pub(crate) fn is_free(&self) -> bool
        ensures { result ≡ is_free self.now }
    {
        match self.state {
            SlotUse::Free => true,
            SlotUse::Held(_) => false,
            SlotUse::Loose => false,
        }
    }

    pub(crate) fn is_loose(&self) -> bool
        ensures { result ≡ is_loose self.now }
    {
        match self.state {
            SlotUse::Free => false,
            SlotUse::Held(_) => false,
            SlotUse::Loose => true,
        }
    }

    pub(crate) fn is_held_by(&self, claim: u64) -> bool
        ensures { result ≡ is_held_by claim self.now }
    {
        match self.state {
            SlotUse::Free => false,
            SlotUse::Held(number) => number == claim,
            SlotUse::Loose => false,
        }
    }

    /// A loose slot is held by the claim afterwards.
    pub(crate) fn hold(&mut self, claim: u64)
        ensures { self.new ≡ held_as claim self.old }
    {
        if self.is_loose() {
            self.state = SlotUse::Held(claim);
        }
    }

    /// The slot is held by the claim, with this range.
    pub(crate) fn take(&mut self, claim: u64, range: KeyRange)
        ensures { self.new ≡ Held claim range }
    {
        self.state = SlotUse::Held(claim);
        self.range = range;
    }

    /// A held slot is loose afterwards.
    pub(crate) fn loosen(&mut self)
        ensures { self.new ≡ turned (λ r. Loose r) self.old }
    {
        if self.is_held() {
            self.state = SlotUse::Loose;
        }
    }

    /// A held slot is free afterwards.
    pub(crate) fn clear(&mut self)
        ensures { self.new ≡ turned (λ r. Free) self.old }
    {
        if self.is_held() {
            self.state = SlotUse::Free;
        }
    }

    /// The range of a held slot begins behind the key afterwards, and the claim holds it.
    pub(crate) fn pass(&mut self, claim: u64, key: KeySpot)
        ensures { self.new ≡ turned (λ r. Held claim (record r { after = After key })) self.old }
    {
        if self.is_held() {
            self.state = SlotUse::Held(claim);
            self.range.after = KeyBound::after(key);
        }
    }

    /// The range, where the slot is held.
    pub(crate) fn held_range(&self) -> Option<&KeyRange>
        ensures { option_copied result ≡ held_span self.now }
    {
        match self.state {
            SlotUse::Free => None,
            SlotUse::Held(_) => Some(&self.range),
            SlotUse::Loose => None,
        }
    }

    fn is_held(&self) -> bool
        ensures { result ≡ is_held self.now }
    {
        matches!(self.state, SlotUse::Held(_))
    }
}
