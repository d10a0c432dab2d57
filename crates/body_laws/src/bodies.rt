//! Laws of bodies with what they keep. Each function does nothing, and its clause is the law. No law asks anything of values, or of
//! what is kept.
ghost use Rattle.std.specs.Prelude.{◌≡◌};
ghost use Rattle.kj_value.specs.Json.{members_of};
ghost use Rattle.kj_value.specs.Fields.{Pairs};
ghost use Rattle.kj_value.specs.Sound.{AreRising};
ghost use Rattle.hub_cells.specs.Side as sides;
ghost use Rattle.body_laws.specs.Frame.{Level, IsFrame};
ghost use Rattle.body_laws.specs.Kept.{Kept, nothing};
ghost use Rattle.body_laws.specs.Over.{over, left, Held, crossed, settled};
ghost use Rattle.body_laws.specs.Body.{IsBody};
ghost use Rattle.body_laws.specs.Alive.{without_dead, IsSettled, IsPair};
ghost use Rattle.body_laws.specs.Known.{IsKnown};
ghost use Rattle.body_laws.specs.Stays.{Stays};

/// Total: every body goes over, whatever is kept beside it, and as a body. Each object of the program has a body.
pub fn every_body_goes_over()
    ensures body { (d : sides.Side) (l : Level) (x : Pairs) (k : Kept l) → IsFrame l
        → IsBody (sides.other d) l (over d l x k) }
    ensures object { (d : sides.Side) (l : Level) (x : Pairs) → AreRising (members_of x) → IsBody d l x }
{}

/// Body: over and back, every body is what it was. So an edit wins: what a client writes at a version in place of what it was
/// shown is read back there as written. And a forged entry does no harm: that holds whatever the client writes into what is kept.
pub fn over_and_back()
    ensures back { (d : sides.Side) (l : Level) (x : Held l) → IsFrame l → IsBody d l x.fields
        → (settled d l x).fields ≡ x.fields }
    ensures edited { (d : sides.Side) (l : Level) (shown : Held l) (x : Pairs) → IsFrame l → IsBody d l x
        → over (sides.other d) l (over d l x (crossed (sides.other d) l shown).kept) (left d l x (crossed (sides.other d) l shown).kept) ≡ x }
    ensures forged { (d : sides.Side) (l : Level) (x : Pairs) (k : Kept l) → IsFrame l → IsBody d l x
        → over (sides.other d) l (over d l x k) (left d l x k) ≡ x }
{}

/// What isn't touched stays: x goes over, a client makes z of what it is shown and leaves what is kept, and z comes back.
pub fn untouched_stays()
    ensures { (d : sides.Side) (l : Level) (x : Held l) (z : Pairs) → IsFrame l
        → Stays d l x.fields (crossed d l x).fields z (over (sides.other d) l z (crossed d l x).kept) }
{}

/// Known names: with nothing kept, what goes over has only names of its levels.
pub fn known_names()
    ensures { (d : sides.Side) (l : Level) (x : Pairs) → IsFrame l → IsKnown (sides.other d) l (over d l x (nothing l)) }
{}

/// Over and back takes out what is dead and nothing else, what is dead changes nothing, and one step settles.
pub fn settling()
    ensures dead { (d : sides.Side) (l : Level) (x : Held l) → IsFrame l → IsBody d l x.fields
        → settled d l x ≡ without_dead d l x }
    ensures harmless { (d : sides.Side) (l : Level) (x : Held l) → IsFrame l
        → crossed d l (without_dead d l x) ≡ crossed d l x }
    ensures once { (d : sides.Side) (l : Level) (x : Held l) → IsFrame l → IsBody d l x.fields
        → IsSettled d l (settled d l x) }
    ensures over { (d : sides.Side) (l : Level) (x : Held l) → IsFrame l → IsBody d l x.fields
        → IsSettled (sides.other d) l (crossed d l x) }
{}

/// The two ways are inverse between settled objects: each is paired with exactly one of the other side, which is settled too.
pub fn one_each()
    ensures pair { (d : sides.Side) (l : Level) (x : Held l) → IsSettled d l x → IsPair d l x (crossed d l x) }
    ensures only { (d : sides.Side) (l : Level) (x y : Held l) → IsPair d l x y → crossed d l x ≡ y }
    ensures settled { (d : sides.Side) (l : Level) (x : Held l) → IsSettled d l x
        → IsSettled (sides.other d) l (crossed d l x) }
{}
