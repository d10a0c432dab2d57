//! How a migration from outside can end over a server of a definition: what such a server shows has the form that a client takes, its
//! pages go on with their list, what it may reply to a list, a get and a put, and so how the whole ends.
//!
//! Each law is the contract of a function that does nothing. It speaks of exchanges, of requests and responses as bytes, and of the
//! server's history, and knows nothing of how a client or a server is built.
ghost use Rattle.std.specs.Prelude.{◌≡◌, ◌<◌, ◌≤◌, ◌^◌, ◌++◌, ℕ, List, [], None, Option, Some, Result, IfErr, IsTrue, true};
ghost use Rattle.kj_value.specs.Json.{Json};
ghost use Rattle.kube_meta.specs.Key.{KeyView};
ghost use Rattle.kube_meta.specs.Document.{document};
ghost use Rattle.kube_meta.specs.View.{ObjectView};
ghost use Rattle.kube_meta.specs.declared.limits.Limits.{Limits};
ghost use Rattle.edge_io.specs.Causes.{Rose};
ghost use Rattle.edge_io.specs.Exchanges.{Exchange};
ghost use Rattle.api_calls.specs.Documents.{numbered, object_list};
ghost use Rattle.api_calls.specs.Item.{Item, items};
ghost use Rattle.api_calls.specs.Legal.{Each, key_of};
ghost use Rattle.api_calls.specs.Objects.{Stored};
ghost use Rattle.api_calls.specs.Replies.{AreShown};
ghost use Rattle.api_calls.specs.Reply.{ReplyView};
ghost use Rattle.http_wire.specs.Head.{Request};
ghost use Rattle.http_routes.specs.Actions.{IsVersion};
ghost use Rattle.http_routes.specs.Paths.{IsKey};
ghost use Rattle.request_replies.specs.Replies.{Replies};
ghost use Rattle.http_front.specs.One.{Did};
ghost use Rattle.http_front.specs.Steps.{Point, StepAnswers};
ghost use Rattle.http_front.specs.declared.one.OneEnd.TheVariants.{Last};
ghost use Rattle.place.specs.Place.{Names};
ghost use Rattle.wire_client.specs.Answers.{Reply, given};
ghost use Rattle.wire_client.specs.Calls.{gets, lists, puts};
ghost use Rattle.wire_client.specs.Far.{Chain, Served};
ghost use Rattle.wire_client.specs.Forms.{api_version, object_fault, page_fault, this_one};
ghost use Rattle.far_migrate.specs.Counts.{OnLink};
ghost use Rattle.far_migrate.specs.Migrates.{Migrates, tally_of};
ghost use Rattle.far_migrate.specs.Puts.{Handled};
ghost use Rattle.far_migrate.specs.declared.tally.Tally.{Tally};
ghost use Rattle.far_migrate.specs.declared.tally.FarFault.{FarFault};
ghost use Rattle.far_migrate.specs.Pages.{Run, at_first, first_limit, goes_on, most_objects};
ghost use Rattle.crd_laws.specs.Loaded.{loaded_meaning};
ghost use Rattle.crd_meaning.specs.Definition.{Definition, IsLoaded};
ghost use Rattle.crd_reading.specs.Whole.{IsWholeDefinition};
ghost use Rattle.crd_settings.specs.SettledLaws.{settings_of};
ghost use Rattle.far_laws.specs.TakenBack.{TakesBack};
ghost use Rattle.far_laws.specs.Answering.{Answered, GoesOn, IsBehind};
ghost use Rattle.far_laws.specs.Speaking.{IsShort, front};
ghost use Rattle.far_laws.specs.Dumped.{IsKnown};
ghost use Rattle.run_laws.specs.Light.{EntersLight, HasShortKind};
ghost use Rattle.run_laws.specs.Placed.{IsNamed};
ghost use Rattle.run_laws.specs.Reached.{IsAt, Reaches};
ghost use Rattle.run_laws.specs.Ending.{IsOpen, MayAnswer, MayEnd};
ghost use Rattle.run_laws.specs.Replying.{CreatesNamed, MayReply, replying};
ghost use Rattle.run_laws.specs.Shown.{WasShown};

use api_calls::Versions;
use far_laws::forms::takes_back;
use kept_entries::one_list;
use kj_value::{one_reading, text_reads};
use wire_client::Serving;

/// What a server shows of a whole value is an object of the version that the place names, under its key and with its number.
pub fn shown_has_form<V: Versions>()
    ensures { (it : V) (n : Names) (boot number born v : ℕ) (h x : ObjectView) → n.group ≡ (V.meaning it).group → IsVersion (V.meaning it) n.version v
        → IsTrue (V.meaning it).honest → (V.meaning it).whole h → IsKey (key_of h) → (V.meaning it).pair v h x → number < 2 ^ 64
        → object_fault (api_version n) (this_one (key_of h)) (document (numbered boot number born x)) ≡ None }
{}

/// A list of shown objects is a page of the version that the place names, whatever its token and whatever is left behind it.
pub fn page_has_form<V: Versions>()
    ensures { (it : V) (n : Names) (boot number left v : ℕ) (es : List Stored) (js : List Json) (token : List ℕ) → n.group ≡ (V.meaning it).group
        → IsVersion (V.meaning it) n.version v → IsTrue (V.meaning it).honest → Each (IsNamed (V.meaning it)) es → AreShown (V.meaning it) boot v es js → number < 2 ^ 64
        → page_fault (api_version n) (object_list (V.meaning it) v js token number left) ≡ None }
{}

/// Wherever a migration is between two pages, it is at the first page of a list or knows which of its objects were listed, and each page
/// that it is given there goes on with the list, where the server has at most a million objects: so the order and the number of a
/// server's objects never end a migration.
pub fn pages_go_on<V: Versions, S: Serving>()
    ensures reached { (it : V) (limits : Limits) (boot : ℕ) (far : S) (n : Names) (first log last : List Item) (es : List Exchange) (a : Run) → IsKnown (V.meaning it) limits last
        → IsBehind (record { meaning = V.meaning it; limits = limits; boot = boot }) n (S.server far) → GoesOn log last → Chain (S.server far) first es log
        → Reaches n (at_first first_limit 0) es a → IsAt (V.meaning it) log a }
    ensures page { (it : V) (limits : Limits) (boot : ℕ) (far : S) (n : Names) (log own last : List Item) (a : Run) (j : Json) → IsKnown (V.meaning it) limits last
        → limits.objects ≤ most_objects → IsBehind (record { meaning = V.meaning it; limits = limits; boot = boot }) n (S.server far) → GoesOn (log ++ own) last
        → IsAt (V.meaning it) log a → Answered (S.server far) n (lists a.limit a.token) log own (given j) → goes_on a j ≡ true }
{
    one_reading();
    text_reads();
}

/// Wherever a migration is between two pages, its list is replied to by a page of the form that the client takes, by 410 where its token
/// is too old, by 404 where the version isn't served, by 503, or, where more than one object is asked for, by a body that is too long; and
/// by nothing else. A get is replied to by an object of that form, as not found, by 404 where the version isn't served, or by 503; and so is
/// a put of what the server showed of the object before, or by 409 where the object has changed.
pub fn replies_are<V: Versions>()
    ensures list { (it : V) (limits : Limits) (boot : ℕ) (told : Option (List ℕ)) (n : Names) (log own last : List Item) (a : Run) (r : Reply) → IsOpen (V.meaning it) limits n last → HasShortKind (V.meaning it)
        → GoesOn (log ++ own) last → IsAt (V.meaning it) log a → Answered (replying (front (V.meaning it) limits boot told)) n (lists a.limit a.token) log own r
        → MayReply (V.meaning it) n log (lists a.limit a.token) r }
    ensures get { (it : V) (limits : Limits) (boot : ℕ) (told : Option (List ℕ)) (n : Names) (log own last : List Item) (key : KeyView) (r : Reply) → IsOpen (V.meaning it) limits n last → HasShortKind (V.meaning it)
        → GoesOn (log ++ own) last → IsKey key → Answered (replying (front (V.meaning it) limits boot told)) n (gets key) log own r → MayReply (V.meaning it) n log (gets key) r }
    ensures put { (it : V) (limits : Limits) (boot : ℕ) (told : Option (List ℕ)) (n : Names) (log own last : List Item) (key : KeyView) (j : Json) (r : Reply) → IsOpen (V.meaning it) limits n last → HasShortKind (V.meaning it)
        → TakesBack (V.meaning it) → GoesOn (log ++ own) last → IsKey key → WasShown (V.meaning it) boot n log key j
        → Answered (replying (front (V.meaning it) limits boot told)) n (puts key j) log own r → MayReply (V.meaning it) n log (puts key j) r }
{
    one_reading();
    text_reads();
}

/// What `serve_one` does with a request that asks for closing, told as `Last`, is what a server answers that replies to each request, where
/// the count of the tool's faults didn't rise in it. The bytes of the request and of its answer are fewer than 10^18.
pub fn last_replies<V: Versions>()
    ensures { (it : V) (limits : Limits) (boot : ℕ) (told : Option (List ℕ)) (n : ℕ) (p q : Point) (bytes answer : List ℕ) (left : Option (List ℕ))
        → Did (StepAnswers (front (V.meaning it) limits boot told) n) Last p q (Some bytes) left (Some []) (Some answer) → IsShort bytes → IsShort answer → q.faults ≤ p.faults
        → Served (replying (front (V.meaning it) limits boot told)) (items p.seen) bytes answer (items q.seen) }
{}

/// Objects that a server enters by a request are created under a namespace and a name: a create is of a path that has a namespace.
pub fn creates_named<V: Versions>()
    ensures { (it : V) (limits : Limits) (boot : ℕ) (told : Option (List ℕ)) (seen log : List Item) (request : Request) (reply : ReplyView) (item : Item)
        → Replies (front (V.meaning it) limits boot told) (Unit {0}) seen log request reply (Some item) → CreatesNamed item }
{}

/// Values that a server of a loaded definition enters by a request measure at most 262,144 bytes at every version.
pub fn enters_light()
    ensures { (d : Definition) (limits : Limits) (boot : ℕ) (told : Option (List ℕ)) (seen log : List Item) (request : Request) (reply : ReplyView) (item : Item) → IsLoaded d
        → Replies (front (loaded_meaning d (settings_of d.view)) limits boot told) (Unit {0}) seen log request reply (Some item)
        → EntersLight (loaded_meaning d (settings_of d.view)) item }
{
    one_list();
}

/// A migration ends with a tally, or by 503, by 404 where the version that the place names wasn't served, since seventeen lists were too
/// old, by want of memory, or since an exchange failed; and in no other way. The server replies to each request, and takes back what it
/// showed.
pub fn migration_ends<V: Versions>()
    ensures { (it : V) (limits : Limits) (boot : ℕ) (told : Option (List ℕ)) (n : Names) (first last : List Item) (es : List Exchange) (h : Handled) → IsOpen (V.meaning it) limits n last → HasShortKind (V.meaning it)
        → TakesBack (V.meaning it) → Chain (replying (front (V.meaning it) limits boot told)) first es last → Migrates n es h → MayEnd (V.meaning it) n first last h }
{
    one_reading();
    text_reads();
}

/// The same of a definition that was read and loaded: it takes back what it showed.
pub fn loaded_ends()
    ensures { (d : Definition) (limits : Limits) (boot : ℕ) (told : Option (List ℕ)) (n : Names) (first last : List Item) (es : List Exchange) (h : Handled) → IsLoaded d
        → IsWholeDefinition d.view → IsOpen (loaded_meaning d (settings_of d.view)) limits n last
        → Chain (replying (front (loaded_meaning d (settings_of d.view)) limits boot told)) first es last → Migrates n es h
        → MayEnd (loaded_meaning d (settings_of d.view)) n first last h }
{
    one_list();
    one_reading();
    text_reads();
    takes_back();
}

/// What `migrate` answers over such a server where the link's count of faults didn't rise: a tally, 503, 404 where the version wasn't
/// served, that seventeen lists were too old, or want of memory; and nothing else.
pub fn loaded_answers()
    ensures { (d : Definition) (limits : Limits) (boot : ℕ) (told : Option (List ℕ)) (n : Names) (first last : List Item) (es : List Exchange) (r : Result Tally FarFault) (before now : ℕ) → IsLoaded d
        → IsWholeDefinition d.view → IsOpen (loaded_meaning d (settings_of d.view)) limits n last
        → Chain (replying (front (loaded_meaning d (settings_of d.view)) limits boot told)) first es last → Migrates n es (tally_of r)
        → IfErr r (OnLink (Rose before now)) → (Rose before now → ⊥) → MayAnswer (loaded_meaning d (settings_of d.view)) n first last r }
{
    loaded_ends();
}
