//! A step of a connection that asked for closing is an answer of the server of bytes, of which the laws of migrations speak.
//!
//! Each law is the contract of a function that does nothing.
ghost use Rattle.std.specs.Prelude.{◌≡◌, ◌++◌, ℕ, List, [], Option, None, Some};
ghost use Rattle.kube_meta.specs.declared.limits.Limits.{Limits};
ghost use Rattle.api_calls.specs.Item.{Item, items};
ghost use Rattle.http_front.specs.One.{Did};
ghost use Rattle.http_front.specs.Steps.{Point, StepAnswers};
ghost use Rattle.http_front.specs.declared.one.OneEnd.{OneEnd};
ghost use Rattle.http_front.specs.declared.one.OneEnd.TheVariants.{Last};
ghost use Rattle.wire_client.specs.Far.{Served};
ghost use Rattle.far_laws.specs.Speaking.{IsShort, front, speaker};

use api_calls::Versions;

/// What `serve_one` does with a request that asks for closing, told as `Last`, is what the server of bytes answers to it: at the
/// history that the pass had seen and items of others behind it. The bytes of the request and of its answer are fewer than 10^18.
pub fn last_speaks<V: Versions>()
    ensures told { (it : V) (limits : Limits) (boot : ℕ) (told : Option (List ℕ)) (n : ℕ) (p q : Point) (bytes answer : List ℕ) (left : Option (List ℕ))
        → Did (StepAnswers (front (V.meaning it) limits boot told) n) Last p q (Some bytes) left (Some []) (Some answer) → IsShort bytes → IsShort answer
        → Served (speaker (front (V.meaning it) limits boot told)) (items p.seen) bytes answer (items q.seen) }
    // whatever the clock tells
    ensures untold { (it : V) (limits : Limits) (boot : ℕ) (told : Option (List ℕ)) (n : ℕ) (p q : Point) (bytes answer : List ℕ) (left : Option (List ℕ))
        → Did (StepAnswers (front (V.meaning it) limits boot told) n) Last p q (Some bytes) left (Some []) (Some answer) → IsShort bytes → IsShort answer
        → Served (speaker (front (V.meaning it) limits boot None)) (items p.seen) bytes answer (items q.seen) }
{}

/// However a step ends, the history goes on.
pub fn goes_on<V: Versions>()
    ensures { (it : V) (limits : Limits) (boot : ℕ) (told : Option (List ℕ)) (n : ℕ) (end : OneEnd) (p q : Point) (known left before written : Option (List ℕ))
        → Did (StepAnswers (front (V.meaning it) limits boot told) n) end p q known left before written
        → (more : List Item) × (items q.seen ≡ items p.seen ++ more) }
{}
