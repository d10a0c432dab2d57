//! Laws of a loaded definition. Each function does nothing, and its clause is the law. The settings of a meaning aren't
//! looked at by them.
ghost use Rattle.std.specs.Prelude.{◌≡◌, ◌<◌, ℕ, Option};
ghost use Rattle.kj_value.specs.Json.{members_of};
ghost use Rattle.kj_value.specs.Fields.{Pairs};
ghost use Rattle.kj_value.specs.Sound.{AreRising};
ghost use Rattle.kube_meta.specs.View.{ObjectView};
ghost use Rattle.api_calls.specs.Meaning.{Fault, Request};
ghost use Rattle.api_calls.specs.Versions.{AdmitsWhole, DecidesAdmission, DecidesEach, IgnoresStamps, IsOneToOne, KeepsFinalizers, RefusesUnread, Stand};
ghost use Rattle.hub_cells.specs.Side.{spoke};
ghost use Rattle.hub_cells.specs.Level.{Name};
ghost use Rattle.keep_laws.specs.FittedBody.{IsBodyOf};
ghost use Rattle.keep_laws.specs.Spokes.{Spoke, api_version};
ghost use Rattle.keep_laws.specs.Over.{GoesOver, IsFirstBad};
ghost use Rattle.crd_meaning.specs.Definition.{Definition, IsLoaded, count_of, seat, at_spoke};
ghost use Rattle.crd_meaning.specs.Objects.{IsWholeValue};
ghost use Rattle.crd_meaning.specs.Request.{IsTaken};
ghost use Rattle.crd_meaning.specs.Admission.{own_name, schema_of, IsFilling, IsHubOf};
ghost use Rattle.crd_meaning.specs.Refusal.{RefusesRequest};
ghost use Rattle.crd_meaning.specs.Meant.{meant};
ghost use Rattle.crd_meaning.specs.Given.{Given};

use keep_laws::object_laws::{given, one_each, settling};
use prune_default::{one_filling, some_filling};

/// What other crates promise of pairs, of settled objects and of fillings, as one fact.
pub fn known()
    ensures { Given }
{
    one_each();
    settling();
    one_filling();
    some_filling();
}

/// Whole objects stand at the hub, and their forms at their versions.
pub fn standing()
    ensures { (d : Definition) → IsLoaded d → Stand (meant d) }
{
    known();
}

/// The form of a whole object has its finalizers.
pub fn finalizers()
    ensures { (d : Definition) → KeepsFinalizers (meant d) }
{}

/// Stamps and the generation aren't looked at.
pub fn unstamped()
    ensures { (d : Definition) → IgnoresStamps (meant d) }
{}

/// A whole object has one form at each version, and is the only one that has it.
pub fn one_to_one()
    ensures { (d : Definition) → IsLoaded d → IsOneToOne (meant d) }
{
    known();
    given();
}

/// A request is admitted in one way or refused, and not both; and each is one of them.
pub fn deciding()
    ensures once { (d : Definition) → IsLoaded d → DecidesAdmission (meant d) }
    ensures each { (d : Definition) → IsLoaded d → DecidesEach (meant d) }
{
    known();
}

/// What is admitted is whole and has the request's key, and a request whose body is no object is refused for that.
pub fn admitting()
    ensures whole { (d : Definition) → IsLoaded d → AdmitsWhole (meant d) }
    ensures unread { (d : Definition) → RefusesUnread (meant d) }
{
    known();
}

/// The body of each object that a request gives has a filling at the request's version.
pub fn fillings()
    ensures { (d : Definition) → IsLoaded d → (r : Request) (x : ObjectView) (e : Option ℕ)
        → IsTaken d r x e → (k : Pairs) × IsFilling (schema_of d r) x.body k }
{
    known();
}

/// A request is refused for one reason.
pub fn one_cause()
    ensures { (d : Definition) → IsLoaded d → (r : Request)
        → (f g : Fault) → RefusesRequest d r f → RefusesRequest d r g → f ≡ g }
{
    known();
}

/// What a spoke's object becomes at the hub is its hub value, where it is a whole one. The form of that value is what is
/// left of the object once settled.
pub fn going_over()
    ensures { (d : Definition) → IsLoaded d → (v : ℕ) (s : Spoke) (x h : ObjectView) → v < count_of d
        → seat d v ≡ at_spoke s → x.api_version ≡ api_version d.spokes.group s.name
        → AreRising (members_of x.body) → IsBodyOf spoke s.fit x.body
        → GoesOver d.spokes s x h → IsWholeValue d h → IsHubOf d v x h }
{
    given();
}

/// An object has one hub value, and where it has one, no annotation that is read is badly kept.
pub fn one_hub()
    ensures one { (d : Definition) → IsLoaded d → (v : ℕ) (x g h : ObjectView)
        → IsHubOf d v x g → IsHubOf d v x h → g ≡ h }
    ensures read { (d : Definition) (v : ℕ) (x h : ObjectView) → IsHubOf d v x h → (k : Name)
        → IsFirstBad d.spokes (own_name (seat d v)) x.meta.annotations k → ⊥ }
{
    known();
}
