//! Laws of whole objects. Each function does nothing, and its clause is the law. `all` is a definition, and
//! `s` its spoke at place `v`.
ghost use Rattle.std.specs.Prelude.{◌≡◌, ℕ, Some, slice_get};
ghost use Rattle.kj_value.specs.Json.{members_of};
ghost use Rattle.kj_value.specs.Sound.{AreRising};
ghost use Rattle.kube_meta.specs.View.{ObjectView};
ghost use Rattle.hub_cells.specs.Side.{spoke};
ghost use Rattle.hub_cells.specs.Level.{Name};
ghost use Rattle.keep_laws.specs.FittedBody.{IsBodyOf};
ghost use Rattle.keep_laws.specs.Spokes.{Spoke, Spokes, IsDefinition, api_version};
ghost use Rattle.keep_laws.specs.Notes.{IsObject, noted};
ghost use Rattle.keep_laws.specs.Pair.{IsPairOf};
ghost use Rattle.keep_laws.specs.WholeHub.{IsHubBody, IsWholeHub, IsSettledAt};
ghost use Rattle.keep_laws.specs.Keys.{key_kind};
ghost use Rattle.keep_laws.specs.Settling.{SettlesAtHub, SettlesAtSpoke};
ghost use Rattle.keep_laws.specs.LeftNotes.{NoteLeftAtHub, LeftAtSpoke};
ghost use Rattle.keep_laws.specs.Over.{GoesOver};
ghost use Rattle.keep_laws.specs.Given.{Laws};

use crate::fitted_laws::{body_in_words, whole_in_words, whole_is_body};
use kept_entries::one_list;

/// What is promised of entries and bodies, as one fact: a text spells one list of entries, a body
/// speaks to conversion, and a whole object has a body and is settled.
pub fn given()
    ensures { Laws }
{
    one_list();
    body_in_words();
    whole_is_body();
    whole_in_words();
}

/// What is paired with a whole object of the hub is settled, and is the only object that is; and a settled
/// object is paired with one object of the hub.
pub fn one_each()
    ensures settled { (all : Spokes) (v : ℕ) (s : Spoke) → IsDefinition all → slice_get all.items v ≡ Some s
        → (x h : ObjectView) → IsObject x → IsWholeHub all h → IsPairOf all s x h → IsSettledAt all s x }
    ensures spoke { (all : Spokes) (v : ℕ) (s : Spoke) → IsDefinition all → slice_get all.items v ≡ Some s
        → (x y h : ObjectView) → IsObject x → IsObject y → IsWholeHub all h
        → IsPairOf all s x h → IsPairOf all s y h → x ≡ y }
    ensures hub { (all : Spokes) (v : ℕ) (s : Spoke) → IsDefinition all → slice_get all.items v ≡ Some s
        → (x g h : ObjectView) → IsObject g → IsObject h → IsSettledAt all s x
        → IsPairOf all s x g → IsPairOf all s x h → g ≡ h }
{
    given();
}

/// What goes over to the hub is whole there, and is paired with what is left of the object once settled; an
/// object goes over to one object, and one that is paired with a whole object goes over to it.
pub fn going_over()
    ensures whole { (all : Spokes) (v : ℕ) (s : Spoke) → IsDefinition all → slice_get all.items v ≡ Some s
        → (x h : ObjectView) → AreRising (members_of x.body) → IsBodyOf spoke s.fit x.body
        → GoesOver all s x h → IsWholeHub all h }
    ensures pair { (all : Spokes) (v : ℕ) (s : Spoke) → IsDefinition all → slice_get all.items v ≡ Some s
        → (x y h : ObjectView) → GoesOver all s x h → SettlesAtSpoke all s x y → IsPairOf all s y h }
    ensures one { (all : Spokes) (v : ℕ) (s : Spoke) → IsDefinition all → slice_get all.items v ≡ Some s
        → (x g h : ObjectView) → GoesOver all s x g → GoesOver all s x h → g ≡ h }
    ensures back { (all : Spokes) (v : ℕ) (s : Spoke) → IsDefinition all → slice_get all.items v ≡ Some s
        → (x h : ObjectView) → IsWholeHub all h → IsPairOf all s x h → GoesOver all s x h }
{
    given();
}

/// An object settles to one object, which is settled, or whole at the hub; and such an object settles to
/// itself. Of each annotation that keeps entries the dead ones go and nothing else: an entry stands
/// afterwards exactly where it stood before and is alive. A cell stays, but where nothing is there and it has
/// a default in some version: there stands the form of that value, which is kept where the spoke can't hold it.
pub fn settling()
    ensures one { (all : Spokes) (v : ℕ) (s : Spoke) → IsDefinition all → slice_get all.items v ≡ Some s
        → (x y z : ObjectView) → SettlesAtSpoke all s x y → SettlesAtSpoke all s x z → y ≡ z }
    ensures settled { (all : Spokes) (v : ℕ) (s : Spoke) → IsDefinition all → slice_get all.items v ≡ Some s
        → (x y : ObjectView) → SettlesAtSpoke all s x y → IsSettledAt all s y }
    ensures stays { (all : Spokes) (v : ℕ) (s : Spoke) → IsDefinition all → slice_get all.items v ≡ Some s
        → (x : ObjectView) → IsSettledAt all s x → SettlesAtSpoke all s x x }
    ensures one_at_hub { (all : Spokes) (x y z : ObjectView) → SettlesAtHub all x y → SettlesAtHub all x z
        → y ≡ z }
    ensures whole { (all : Spokes) → IsDefinition all → (x y : ObjectView)
        → x.api_version ≡ api_version all.group all.hub → AreRising (members_of x.body)
        → IsHubBody all.items x.body → SettlesAtHub all x y → IsWholeHub all y }
    ensures stays_at_hub { (all : Spokes) → IsDefinition all → (h : ObjectView) → IsWholeHub all h
        → SettlesAtHub all h h }
    ensures left { (all : Spokes) (v : ℕ) (s : Spoke) → IsDefinition all → slice_get all.items v ≡ Some s
        → (x y : ObjectView) → AreRising (members_of x.body) → IsBodyOf spoke s.fit x.body
        → SettlesAtSpoke all s x y → LeftAtSpoke all s x y }
    ensures left_at_hub { (all : Spokes) → IsDefinition all → (x y : ObjectView) → SettlesAtHub all x y
        → (k : Name) → NoteLeftAtHub y.body (key_kind all k) (noted k x) (noted k y) }
{
    given();
}

/// Over to the hub and back is what is left of an object once settled: what goes of its annotations is the
/// dead entries and nothing else, beside the annotation of its own side and those of no known spoke, and what
/// comes is the form of a default of some version where nothing is. So it is the identity on settled objects;
/// and back and over again is the identity on whole ones.
pub fn over_and_back()
    ensures settles { (all : Spokes) (v : ℕ) (s : Spoke) → IsDefinition all → slice_get all.items v ≡ Some s
        → (x h z : ObjectView) → AreRising (members_of x.body) → IsBodyOf spoke s.fit x.body
        → GoesOver all s x h → IsObject z → IsPairOf all s z h → SettlesAtSpoke all s x z }
    ensures left { (all : Spokes) (v : ℕ) (s : Spoke) → IsDefinition all → slice_get all.items v ≡ Some s
        → (x y h z : ObjectView) → GoesOver all s x h → SettlesAtSpoke all s x y → IsObject z
        → IsPairOf all s z h → z ≡ y }
    ensures settled { (all : Spokes) (v : ℕ) (s : Spoke) → IsDefinition all → slice_get all.items v ≡ Some s
        → (x h z : ObjectView) → IsSettledAt all s x → GoesOver all s x h
        → IsObject z → IsPairOf all s z h → z ≡ x }
    ensures entries { (all : Spokes) (v : ℕ) (s : Spoke) → IsDefinition all → slice_get all.items v ≡ Some s
        → (x h z : ObjectView) → AreRising (members_of x.body) → IsBodyOf spoke s.fit x.body
        → GoesOver all s x h → IsPairOf all s z h → LeftAtSpoke all s x z }
    ensures whole { (all : Spokes) (v : ℕ) (s : Spoke) → IsDefinition all → slice_get all.items v ≡ Some s
        → (h x g : ObjectView) → IsWholeHub all h → IsPairOf all s x h → GoesOver all s x g → g ≡ h }
{
    given();
}
