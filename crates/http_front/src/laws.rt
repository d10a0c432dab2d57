//! Laws of what requests are answered: each is the clause of a function that does nothing.
ghost use Rattle.std.specs.Prelude.{◌≡◌, ◌+◌, ◌<◌, ◌≤◌, ℕ, List, Option};
ghost use Rattle.api_calls.specs.Reply.{ReplyView};
ghost use Rattle.api_calls.specs.Status.{code_bad_gateway};
ghost use Rattle.http_wire.specs.Head.{Request};
ghost use Rattle.shared_api.specs.Base.{server_of};
ghost use Rattle.shared_api.specs.declared.cell.CoreBase.{CoreBase};
ghost use Rattle.http_front.specs.Steps.{StepAnswers, Point};
ghost use Rattle.http_front.specs.Talk.{Exchange, Steps};
ghost use Rattle.http_front.specs.Failures.{failures};

use api_calls::Versions;

/// A request is answered 502 only where its pass's count of the tool's faults rose meanwhile; and so, of requests answered one
/// after another, as those of a connection are, at most as many are answered 502 as that count rose by from the first to the
/// last.
pub fn few_failures<V: Versions>()
    ensures one { (b : CoreBase V) (told : Option (List ℕ)) (n : ℕ) (s t : Point) (r : Request) (a : ReplyView)
        → StepAnswers (record { server = server_of V.meaning b; told = told }) n s r a t → a.code ≡ code_bad_gateway → s.faults < t.faults }
    ensures all { (b : CoreBase V) (told : Option (List ℕ)) (n : ℕ) (s t : Point) (xs : List Exchange)
        → Steps (StepAnswers (record { server = server_of V.meaning b; told = told }) n) s xs t → failures xs + s.faults ≤ t.faults }
{}
