//! The versions of a definition, as the server asks for them.
ghost use Rattle.std.specs.Prelude.{◌≡◌, ◌≢◌, ◌+◌, ◌*◌, ◌<◌, ◌≤◌, ◌++◌, ◌↔◌, IfOk, IfErr, IfSome, IsErrOf, IsSome, IsTrue, MatchOption, Option, None, List, length, ℕ, ℤ, pos, Bool};
ghost use Rattle.kj_value.specs.Json.{depth};
ghost use Rattle.kube_meta.specs.Document.{document};
ghost use Rattle.kube_meta.specs.Names.{is_namespace};
ghost use Rattle.kube_meta.specs.Shapes.{shaped};
ghost use Rattle.kube_meta.specs.View.{ObjectView, object_of};
ghost use Rattle.api_calls.specs.Meaning.{Meaning, Weighs, stamped, stored_text};
ghost use Rattle.api_calls.specs.Versions.{AdmitsWhole, AreFlags, DecidesAdmission, DecidesBodies, IgnoresStamps, IsOneToOne, IsRequest, IsStored, IsStoredList, KeepsFinalizers, KeepsKey, NamesDiffer, Refused, RefusesOnce, RefusesUnread, Stand, StandsAt, request_of, versions_of};
ghost use Rattle.api_calls.specs.declared.flags.Flags.{Flags};
ghost use Rattle.object_reading.specs.Refusal.{refusal};

use crate::cause::Cause;
use crate::flags::{Flags, StoredList};
use crate::tool::Tool;
use crate::why::Why;
use kj_value::{NoMemory, Txt, one_text};
use kube_meta::{Object, Shape};
use object_reading::accepted;
use std::alloc::Global;

/// The most levels of lists and objects of an object's document.
pub const OBJECT_LEVELS: u32 = 64;

/// A request to store an object: to create one, or to replace the one that the path names.
#[derive(Clone, Copy)]
pub struct Incoming<'a> {
    pub version: u8,
    pub creating: bool,
    /// The path's namespace.
    pub ns: &'a str,
    /// The path's name, where the request replaces.
    pub name: Option<&'a str>,
    pub bytes: &'a [u8],
}

/// What was admitted.
#[derive(Drop)]
pub struct Admitted {
    /// The hub value.
    pub hub: Object,
    /// What it takes at most, in chunks of 256 bytes, at whichever version it is stored.
    pub weight: u64,
    /// The request's resourceVersion.
    pub expected: Option<u64>,
    /// What the hub value becomes at the version that was named as the storage version, where it was made to be weighed.
    pub shape: Option<Shape>,
}

/// Why nothing was admitted.
#[derive(Drop)]
pub enum AdmitFault {
    /// The body is no document of the definition, or the path isn't its.
    BadRequest(Why),
    /// The document has a fault; `name` is the name that it gives.
    Invalid { name: Txt, cause: Cause },
    /// The tool had a fault.
    Tool,
    /// Memory was wanted and there was none. It may come for any request.
    NoMemory,
}

impl From<NoMemory> for AdmitFault {
    ghost use Rattle.std.specs.Prelude.{◌≡◌};
    ghost use Rattle.api_calls.specs.declared.versions.AdmitFault.TheVariants as fault;

    ghost from_gives = { λ _ e. e ≡ fault.NoMemory };

    fn from(_refused: NoMemory) -> AdmitFault {
        AdmitFault::NoMemory
    }
}

/// Why an object wasn't converted.
#[derive(Clone, Copy, Drop)]
pub enum ConvFault {
    /// The tool had a fault.
    Tool,
    /// Memory was wanted and there was none. It may come for any object.
    NoMemory,
}

impl From<NoMemory> for ConvFault {
    ghost use Rattle.std.specs.Prelude.{◌≡◌};
    ghost use Rattle.api_calls.specs.declared.versions.ConvFault.TheVariants as fault;

    ghost from_gives = { λ _ e. e ≡ fault.NoMemory };

    fn from(_refused: NoMemory) -> ConvFault {
        ConvFault::NoMemory
    }
}

/// The versions of a definition (the `spec` of a CustomResourceDefinition, apiextensions.k8s.io/v1). Objects are kept as
/// hub values, which are objects at one of the versions, and each version has its form of them. A version is its place
/// in `spec.versions`, counted from 0.
pub trait Versions {
    type Tool: Tool;

    ghost HONEST: { Bool };

    /// Whether it is known what values mean. Where it isn't, as where another program converts, the relations of the
    /// meaning say no more than that objects stand at their versions.
    const HONEST: bool;

    ghost meaning: { Self → Meaning };

    /// How many versions there are. It takes no memory.
    fn count(&self) -> u8
        ensures { result ≡ (meaning self.now).count };

    /// The name of a version. It takes no memory.
    fn name(&self, v: u8) -> &Txt
        requires { v < (meaning self.now).count }
        ensures { result.now.bytes ≡ (meaning self.now).name v };

    /// A version of the name, or `None` exactly where there is none. It takes no memory.
    fn find(&self, name: &str) -> Option<u8>
        ensures { MatchOption result
            ((v : ℕ) → v < (meaning self.now).count → (meaning self.now).name v ≢ name.now)
            (λ v. (v < (meaning self.now).count) × ((meaning self.now).name v ≡ name.now)) };

    /// The flags at first. It takes no memory.
    fn opening(&self) -> Flags
        ensures { result ≡ (meaning self.now).opening };

    /// The name of the resource in paths. It takes no memory.
    fn plural(&self) -> &Txt
        ensures { result.now.bytes ≡ (meaning self.now).plural };

    /// The group. It takes no memory.
    fn group(&self) -> &Txt
        ensures { result.now.bytes ≡ (meaning self.now).group };

    /// The kind of the objects. It takes no memory.
    fn kind(&self) -> &Txt
        ensures { result.now.bytes ≡ (meaning self.now).kind };

    /// The kind of a list of objects. It takes no memory.
    fn list_kind(&self) -> &Txt
        ensures { result.now.bytes ≡ (meaning self.now).list_kind };

    /// The hub value of a request, its weight, and the number that the request gives; and, where it is at hand, what the hub
    /// value becomes at the version of the place `storage`, which may be any number. `BadRequest` and `Invalid` come exactly
    /// where the meaning refuses the request so, `Tool` only where the tool's count of faults rose.
    fn admit(
        &self,
        alloc: Global,
        tool: &mut Self::Tool,
        input: &Incoming<'_>,
        storage: u8,
    ) -> Result<Admitted, AdmitFault>
        requires known { IsRequest (meaning self.now) (request_of input.now) }
        requires creating { IsTrue input.now.creating ↔ (IsSome input.now.name → ⊥) }
        ensures ok { IfOk result (λ a. (meaning self.now).admits (request_of input.now) (object_of a.hub) a.expected) }
        ensures weighs { IfOk result (λ a. IsTrue (meaning self.now).honest → Weighs (meaning self.now) (object_of a.hub) a.weight) }
        ensures weight { IfOk result (λ a. 0 < a.weight) }
        ensures shape { IfOk result (λ a. IfSome a.shape (λ p. (meaning self.now).pair storage (object_of a.hub) (shaped p (object_of a.hub)))) }
        ensures levels { IfOk result (λ a. depth (document (object_of a.hub)) ≤ OBJECT_LEVELS) }
        ensures refused { IfErr result (Refused ((meaning self.now).refuses (request_of input.now)) (Self.Tool.faults tool.old < Self.Tool.faults tool.new)) }
        ensures rises { Self.Tool.faults tool.old ≤ Self.Tool.faults tool.new };

    /// The hub value whose stored text at the version these bytes are. `Tool` comes only where the tool's count of faults
    /// rose.
    fn hub_of(
        &self,
        alloc: Global,
        tool: &mut Self::Tool,
        v: u8,
        stored: &[u8],
    ) -> Result<Object, ConvFault>
        requires { (h : ObjectView) × IsStored (meaning self.now) v h stored.now }
        ensures ok { IfOk result (λ h. IsStored (meaning self.now) v (object_of h) stored.now) }
        ensures levels { IfOk result (λ h. depth (document (object_of h)) ≤ OBJECT_LEVELS) }
        ensures tool { IsErrOf result ConvFault.Tool → Self.Tool.faults tool.old < Self.Tool.faults tool.new }
        ensures rises { Self.Tool.faults tool.old ≤ Self.Tool.faults tool.new };

    /// The object at a version that pairs with a hub value. `Tool` comes only where the tool's count of faults rose.
    fn form(
        &self,
        alloc: Global,
        tool: &mut Self::Tool,
        v: u8,
        hub: &Object,
    ) -> Result<Object, ConvFault>
        requires known { v < (meaning self.now).count }
        requires whole { (meaning self.now).whole (object_of hub.now) }
        ensures ok { IfOk result (λ x. (meaning self.now).pair v (object_of hub.now) (object_of x)) }
        ensures levels { IfOk result (λ x. depth (document (object_of x)) ≤ OBJECT_LEVELS) }
        ensures tool { IsErrOf result ConvFault.Tool → Self.Tool.faults tool.old < Self.Tool.faults tool.new }
        ensures rises { Self.Tool.faults tool.old ≤ Self.Tool.faults tool.new };

    /// The same object, where the hub value isn't wanted any more: what it has in common with its form is moved.
    fn into_form(
        &self,
        alloc: Global,
        tool: &mut Self::Tool,
        v: u8,
        hub: Object,
    ) -> Result<Object, ConvFault>
        requires known { v < (meaning self.now).count }
        requires whole { (meaning self.now).whole (object_of hub) }
        ensures ok { IfOk result (λ x. (meaning self.now).pair v (object_of hub) (object_of x)) }
        ensures levels { IfOk result (λ x. depth (document (object_of x)) ≤ OBJECT_LEVELS) }
        ensures tool { IsErrOf result ConvFault.Tool → Self.Tool.faults tool.old < Self.Tool.faults tool.new }
        ensures rises { Self.Tool.faults tool.old ≤ Self.Tool.faults tool.new };

    /// The flags of a body that sets them. `BadRequest` and `Invalid` come exactly where the meaning refuses the body so,
    /// `Tool` never.
    fn read_flags(&self, alloc: Global, bytes: &[u8]) -> Result<Flags, AdmitFault>
        ensures ok { IfOk result ((meaning self.now).sets bytes.now) }
        ensures legal { IfOk result (AreFlags (meaning self.now).count) }
        ensures refused { IfErr result (Refused ((meaning self.now).refuses_flags bytes.now) ⊥) };

    /// The versions that a body keeps in the stored list. `BadRequest` and `Invalid` come exactly where the meaning
    /// refuses the body so, `Tool` never.
    fn read_keep(&self, alloc: Global, bytes: &[u8]) -> Result<StoredList, AdmitFault>
        ensures ok { IfOk result (λ s. (meaning self.now).keeps bytes.now (versions_of s)) }
        ensures legal { IfOk result (IsStoredList (meaning self.now).count) }
        ensures refused { IfErr result (Refused ((meaning self.now).refuses_keep bytes.now) ⊥) };

    /// The most bytes that `show` appends. It takes no memory.
    fn show_room(&self) -> u64
        ensures { result ≡ (meaning self.now).show_room };

    /// Appends the text of the CustomResourceDefinition with these flags and this stored list. It takes no memory.
    fn show(&self, flags: &Flags, stored: &StoredList, out: &mut Txt)
        requires room { (meaning self.now).show_room ≤ out.old.room }
        requires storage { flags.now.storage < (meaning self.now).count }
        requires stored { IsStoredList (meaning self.now).count stored.now }
        ensures text { out.new.bytes ≡ out.old.bytes ++ (meaning self.now).shown flags.now (versions_of stored.now) }
        ensures room { out.new.room + length ((meaning self.now).shown flags.now (versions_of stored.now)) ≡ out.old.room };

    /// The meaning tells whether it is known what values mean.
    ghost told: { (it : Self) → (meaning it).honest ≡ HONEST };

    /// There are from two to eight versions.
    ghost few: { (it : Self) → (2 ≤ (meaning it).count) × ((meaning it).count ≤ 8) };

    /// A version is served at first, and one is the storage version.
    ghost opens: { (it : Self) → AreFlags (meaning it).count (meaning it).opening };

    /// Versions have different names.
    ghost names: { (it : Self) → NamesDiffer (meaning it) };

    /// Objects stand at their versions.
    ghost stand: { (it : Self) → Stand (meaning it) };

    /// Stamps and the generation aren't looked at.
    ghost unstamped: { (it : Self) → IgnoresStamps (meaning it) };

    /// The form at each version is a one-to-one function on whole hub values.
    ghost one_to_one: { (it : Self) → IsTrue HONEST → IsOneToOne (meaning it) };

    /// The form of a hub value has its key.
    ghost same_key: { (it : Self) → IsTrue HONEST → KeepsKey (meaning it) };

    /// The form of a hub value has its finalizers.
    ghost finalizers: { (it : Self) → IsTrue HONEST → KeepsFinalizers (meaning it) };

    /// What is admitted is whole, in the path's namespace and of its name, with a number exactly where the request replaces.
    ghost admitted: { (it : Self) → AdmitsWhole (meaning it) };

    /// A request is admitted in one way or refused, and not both.
    ghost decides: { (it : Self) → IsTrue HONEST → DecidesAdmission (meaning it) };

    /// A request is refused for one reason.
    ghost refuses_once: { (it : Self) → IsTrue HONEST → RefusesOnce (meaning it) };

    /// A request whose body is no object is refused for that.
    ghost unread: { (it : Self) → IsTrue HONEST → RefusesUnread (meaning it) };

    /// A body sets flags or is refused for one reason, and not both.
    ghost decides_flags: { (it : Self) → DecidesBodies Flags (meaning it).sets (meaning it).refuses_flags };

    /// A body keeps stored versions or is refused for one reason, and not both.
    ghost decides_keep: { (it : Self) → DecidesBodies (List ℕ) (meaning it).keeps (meaning it).refuses_keep };
}

/// The document of an object that stands at a version is accepted where objects of the kind are read. The function does
/// nothing, and its clause is the law.
pub fn standing_is_read<V: Versions>()
    ensures { (it : V) (v : ℕ) (x : ObjectView) → StandsAt (V.meaning it) v x → refusal (V.meaning it).kind (document x) ≡ None }
{
    accepted()
}

/// Hub values of one stored text at a version are one, where it is known what values mean: the text tells the object, and
/// the object tells the hub value. The function does nothing, and its clause is the law.
pub fn one_stored<V: Versions>()
    ensures { (it : V) (v : ℕ) (g h : ObjectView) (bytes : List ℕ) → IsTrue V.HONEST
        → IsStored (V.meaning it) v g bytes → IsStored (V.meaning it) v h bytes → g ≡ h }
{
    one_text()
}

/// A hub value has at most one weight, which isn't 0, and the same with other stamps and another generation. The function
/// does nothing, and its clauses are the laws.
pub fn one_weight<V: Versions>()
    ensures one { (it : V) (h : ObjectView) (w x : ℕ) → Weighs (V.meaning it) h w → Weighs (V.meaning it) h x → w ≡ x }
    ensures something { (it : V) (h : ObjectView) (w : ℕ) → Weighs (V.meaning it) h w → 0 < w }
    ensures unstamped { (it : V) (h : ObjectView) (w : ℕ) (created deleted : Option (List ℕ)) (generation : ℤ)
        → Weighs (V.meaning it) h w → Weighs (V.meaning it) (stamped h created deleted generation) w }
{}

/// The stored text of a hub value at any version takes no more than its weight, in chunks of 256 bytes, whatever its stamps
/// are, where the generation isn't negative: that of the object at the version, or, where it is known what values mean, that
/// of the hub value. The function does nothing, and its clauses are the laws.
pub fn stored_fits<V: Versions>()
    ensures form { (it : V) (v w n : ℕ) (h x : ObjectView) → (V.meaning it).whole h → v < (V.meaning it).count → (V.meaning it).pair v h x
        → Weighs (V.meaning it) h w → x.meta.generation ≡ pos n → length (stored_text x) ≤ 256 * w }
    ensures hub { (it : V) (v w n : ℕ) (h x : ObjectView) → IsTrue V.HONEST → (V.meaning it).whole h → v < (V.meaning it).count → (V.meaning it).pair v h x
        → Weighs (V.meaning it) h w → h.meta.generation ≡ pos n → length (stored_text x) ≤ 256 * w }
{}
