//! What holds of the one list by which the connections of a line of `serve` were answered, or the input of a line of `pipe`: the
//! workers move nothing but resource versions, and behind a migration that succeeded no object stands elsewhere until the storage
//! version changes.
//!
//! Each law is the contract of a function that does nothing. It knows nothing of how connections are served.

ghost use Rattle.std.specs.Prelude.{◌≡◌, ◌∷◌, ◌++◌, [], List, Option, Some, ℕ, length};
ghost use Rattle.kube_meta.specs.Plan.{Migration, running};
ghost use Rattle.api_calls.specs.Item.{Item, Logged, MarkSucceeded, entry, items};
ghost use Rattle.api_calls.specs.LegalLists.{KeepsStorage};
ghost use Rattle.api_calls.specs.Legal.{Each};
ghost use Rattle.api_calls.specs.State.{state};
ghost use Rattle.edge_io.specs.Connections.{Ending, Origin};
ghost use Rattle.serve_spans.specs.Owners.{At as StandsAt, Within};
ghost use Rattle.serve_many.specs.Answered.{Sides};
ghost use Rattle.serve_input.specs.Conversed.{At, Conversed, MayRise, Start, TakesTurn, front_of};
ghost use Rattle.serve_input.specs.declared.conversing.PipeEnd.{PipeEnd};
ghost use Rattle.kubeconv_cmd.specs.Serving.{AnsweredAll};
ghost use Rattle.kubeconv_cmd.specs.Sources.{Loaded, faults_in, meaning_in};
ghost use Rattle.run_laws.specs.Moves.{MovesNumbers};

/// What is entered beside the connections of a line of `serve` is a worker's, and moves the resource version of one object at
/// most, with the version at which it is stored. No value changes, no object comes or goes, and the flags and the stored versions
/// stay.
pub fn moves_only_numbers<I, O>()
    ensures { (k : Sides I O) (l : Loaded) (start : Start) (asked count : ℕ) (h0 handed : Option (List Origin)) (g0 given : Option (List Ending))
        → (s : AnsweredAll (faults_in l) k (meaning_in l) start asked count h0 handed g0 given) (before after : List Logged) (x : Logged)
        → s.log ≡ before ++ x ∷ after → ¬ (Within s.spans (length before) x)
        → MovesNumbers (state (meaning_in l) (items before)) (state (meaning_in l) (items before ++ x.item ∷ [])) }
{}

/// Where the words ask for no workers, each item was entered by a connection's request.
pub fn all_is_requested<I, O>()
    ensures { (k : Sides I O) (l : Loaded) (start : Start) (count : ℕ) (h0 handed : Option (List Origin)) (g0 given : Option (List Ending))
        → (s : AnsweredAll (faults_in l) k (meaning_in l) start 0 count h0 handed g0 given) (i : ℕ) (x : Logged) → StandsAt s.log i x → Within s.spans i x }
{}

/// A migration that is marked Succeeded while connections are answered is of the storage version, and from then on each object
/// stands there until the storage version changes, even if it changes back.
pub fn stands_at_the_target<I, O>()
    ensures { (k : Sides I O) (l : Loaded) (start : Start) (asked count : ℕ) (h0 handed : Option (List Origin)) (g0 given : Option (List Ending))
        → (s : AnsweredAll (faults_in l) k (meaning_in l) start asked count h0 handed g0 given) (before after later : List Item)
        → items s.log ≡ before ++ entry MarkSucceeded ∷ (after ++ later)
        → (m : Migration) × (running (state (meaning_in l) before).migrations ≡ Some m) × (m.target ≡ (state (meaning_in l) before).flags.storage)
        × (Each (KeepsStorage m.target) after → Each (λ e. e.at ≡ m.target) (state (meaning_in l) (before ++ entry MarkSucceeded ∷ after)).objects) }
{}

/// Each turn of the worker of a line of `pipe` moves the resource version of one object at most, with the version at which it is stored.
pub fn turns_move_only_numbers()
    ensures { (l : Loaded) (start : Start) (p q : At) → TakesTurn (front_of (meaning_in l) start).server p q
        → MovesNumbers (state (meaning_in l) p.log) (state (meaning_in l) q.log) }
{}

/// A migration that is marked Succeeded between the requests of a line of `pipe` is of the storage version, and from then on each object
/// stands there until the storage version changes.
pub fn pipe_stands_at_the_target()
    ensures { (l : Loaded) (turns : ℕ) (start : Start) (input : List ℕ) (w0 written : Option (List ℕ)) (end : PipeEnd)
        → (c : Conversed (front_of (meaning_in l) start) (MayRise (faults_in l)) turns input w0 written end) (before after later : List Item)
        → c.0.log ≡ before ++ entry MarkSucceeded ∷ (after ++ later)
        → (m : Migration) × (running (state (meaning_in l) before).migrations ≡ Some m) × (m.target ≡ (state (meaning_in l) before).flags.storage)
        × (Each (KeepsStorage m.target) after → Each (λ e. e.at ≡ m.target) (state (meaning_in l) (before ++ entry MarkSucceeded ∷ after)).objects) }
{}
