//! Laws of objects with kept entries. Each function does nothing, and its clause is the law.
ghost use Rattle.std.specs.Prelude.{◌≡◌, ◌↔◌, true};
ghost use Rattle.kept_entries.specs.Entry.{are_in_order};
ghost use Rattle.kept_entries.specs.declared.entry.Entry.{Entry};
ghost use Rattle.hub_cells.specs.Side as sides;
ghost use Rattle.hub_cells.specs.Level.{Level, NoNameTwice};
ghost use Rattle.keep_laws.specs.Whole.{Held, Ready, IsWholeOnSide, IsPair, IsTheOne, marks_of, other_object};
ghost use Rattle.keep_laws.specs.Settle.{IsAllowed, settled, converted};
ghost use Rattle.keep_laws.specs.Known.{IsKnown};
ghost use Rattle.keep_laws.specs.Alive.{AliveAt};
ghost use Rattle.keep_laws.specs.Words.{Has, Parts, IsSettledObject};

/// Each whole object of the hub is paired with exactly one of the spoke, which is whole, and each whole
/// object of the spoke with exactly one of the hub.
pub fn exactly_one()
    ensures spoke { (l : Level) (h : Held) → Ready l → IsWholeOnSide sides.hub l h
        → IsTheOne (λ x. IsPair l x h) (other_object sides.hub l h) }
    ensures hub { (l : Level) (x : Held) → Ready l → IsWholeOnSide sides.spoke l x
        → IsTheOne (λ h. IsPair l x h) (other_object sides.spoke l x) }
    ensures whole { (l : Level) (x h : Held) → Ready l → IsWholeOnSide sides.hub l h → IsPair l x h
        → IsWholeOnSide sides.spoke l x }
{}

/// Going over gives a whole object, and over and back is the identity on whole objects.
pub fn over_and_back()
    ensures whole { (d : sides.Side) (l : Level) (x : Held) → Ready l → IsWholeOnSide d l x
        → IsWholeOnSide (sides.other d) l (other_object d l x) }
    ensures back { (d : sides.Side) (l : Level) (x : Held) → Ready l → IsWholeOnSide d l x
        → other_object (sides.other d) l (other_object d l x) ≡ x }
{}

/// Taking out dead entries gives a whole object and leaves the fields as they are; a whole object has
/// none. What goes is the dead entries and nothing else.
pub fn settling()
    ensures whole { (d : sides.Side) (l : Level) (x : Held) → Ready l → IsAllowed d l (marks_of d l x)
        → IsWholeOnSide d l (settled d l x) }
    ensures fields { (d : sides.Side) (l : Level) (x : Held) → NoNameTwice d l → IsKnown d l x.fields
        → (settled d l x).fields ≡ x.fields }
    ensures left { (d : sides.Side) (l : Level) (x : Held) → NoNameTwice (sides.other d) l → Parts x.entries
        → (e : Entry) → Has e (settled d l x).entries ↔ (Has e x.entries × AliveAt d l x.fields x.entries e.at e.was) }
    ensures stays { (d : sides.Side) (l : Level) (x : Held) → IsWholeOnSide d l x → settled d l x ≡ x }
{}

/// Converting an object that its schema allows gives a whole one, and converting that back gives the
/// object without its dead entries: those that were alive, and no others.
pub fn converting()
    ensures whole { (d : sides.Side) (l : Level) (x : Held) → Ready l → IsAllowed d l (marks_of d l x)
        → IsWholeOnSide (sides.other d) l (converted d l x) }
    ensures back { (d : sides.Side) (l : Level) (x : Held) → Ready l → IsAllowed d l (marks_of d l x)
        → converted (sides.other d) l (converted d l x) ≡ settled d l x }
    ensures left { (d : sides.Side) (l : Level) (x : Held) → Ready l → IsAllowed d l (marks_of d l x) → Parts x.entries
        → (e : Entry) → Has e (converted (sides.other d) l (converted d l x)).entries
        ↔ (Has e x.entries × AliveAt d l x.fields x.entries e.at e.was) }
{}

/// An object whose names are known, whose tuples are allowed and whose entries are in order and all
/// alive is whole.
pub fn in_words()
    ensures { (d : sides.Side) (l : Level) (x : Held) → Ready l → IsSettledObject d l x → IsWholeOnSide d l x }
{}

/// The entries of a whole object are in order.
pub fn rising_entries()
    ensures { (d : sides.Side) (l : Level) (x : Held) → Ready l → IsWholeOnSide d l x
        → are_in_order x.entries ≡ true }
{}
