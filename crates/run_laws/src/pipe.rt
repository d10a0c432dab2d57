//! Of `pipe`.
ghost use Rattle.std.specs.Prelude.{◌≡◌, ◌≢◌, ◌⊎◌, ℕ, List, Some};
ghost use Rattle.http_wire.specs.Head.{Request};
ghost use Rattle.http_wire.specs.Stream.{Asks, End};
ghost use Rattle.http_wire.specs.declared.limits.TheConstants.{MOST_REQUESTS};
ghost use Rattle.command_lines.specs.Lines.{Source, pipe};
ghost use Rattle.serve_input.specs.Conversed.{MayRise};
ghost use Rattle.serve_input.specs.declared.conversing.PipeEnd.{PipeEnd};
ghost use Rattle.serve_input.specs.declared.conversing.PipeEnd.TheVariants.{ReadFault as ReadFaulted, WriteFault as WriteFaulted};
ghost use Rattle.kubeconv_cmd.specs.World.{World, held, input, streams, FilesFail, HasHandedOn, InputFails, InputStays, OutputFails, OutputStays};
ghost use Rattle.kubeconv_cmd.specs.Outcome.{Outcome};
ghost use Rattle.kubeconv_cmd.specs.Serving.{Conversation};
ghost use Rattle.kubeconv_cmd.specs.Sources.{IsAddressless, Loaded, Means, faults_in, meaning_in};
ghost use Rattle.kubeconv_cmd.specs.Status.{pipe_status, status_of};
ghost use Rattle.kubeconv_cmd.specs.declared.status.TheConstants.{BAD_INPUT, BAD_WORDS, NO_MEMORY, READ_FAILED, WRITE_FAILED};
ghost use Rattle.run_laws.specs.Ran.{IsServed, IsUnheld};

use http_wire::laws::one_reading;

/// Whatever fails.
pub fn whatever_fails<F, S, K, E, A, L, I, O>()
    // A conversation was held by a definition to some end, and the status is that of the end: each request was answered and its answer handed on before
    // anything was read but what came with it. Or none was held, and nothing was read of the input or written. So a converter that fails ends nothing.
    ensures held { (w : World F S K E A L I O) (source : Source) (turns status : ℕ) → Outcome w (pipe source turns) status
        → ((l : Loaded) × (end : PipeEnd) × Means (held w) source l × Conversation (meaning_in l) (MayRise (faults_in l)) w.start turns (streams w) (InputFails w) (OutputFails w) end × (status ≡ pipe_status end))
        ⊎ (IsUnheld (FilesFail w) (IsAddressless source) status × InputStays w × OutputStays w) }
    // A fault of reading is one of the files, with nothing read or written, or comes behind the answers to the first requests;
    // one of writing comes behind those and a front of one more response.
    ensures unread { (w : World F S K E A L I O) (source : Source) (turns status : ℕ) → Outcome w (pipe source turns) status → status ≡ READ_FAILED
        → (FilesFail w × InputStays w × OutputStays w)
        ⊎ (InputFails w × (l : Loaded) × Means (held w) source l × Conversation (meaning_in l) (MayRise (faults_in l)) w.start turns (streams w) (InputFails w) (OutputFails w) ReadFaulted) }
    ensures unwritten { (w : World F S K E A L I O) (source : Source) (turns status : ℕ) → Outcome w (pipe source turns) status → status ≡ WRITE_FAILED
        → (l : Loaded) × Means (held w) source l × Conversation (meaning_in l) (MayRise (faults_in l)) w.start turns (streams w) (InputFails w) (OutputFails w) WriteFaulted }
    // Unless the output failed, what is written is handed on, also where the input failed.
    ensures handed_on { (w : World F S K E A L I O) (source : Source) (turns status : ℕ) → Outcome w (pipe source turns) status → status ≢ WRITE_FAILED → HasHandedOn w }
    // Memory is wanted only before anything was read, 4 never comes, and 2 only where the address of a converter is none.
    ensures unread_memory { (w : World F S K E A L I O) (source : Source) (turns status : ℕ) → Outcome w (pipe source turns) status → status ≡ NO_MEMORY → InputStays w }
    ensures no_task { (w : World F S K E A L I O) (source : Source) (turns status : ℕ) → Outcome w (pipe source turns) status → status ≢ BAD_INPUT }
    ensures addressless { (w : World F S K E A L I O) (source : Source) (turns status : ℕ) → Outcome w (pipe source turns) status → status ≡ BAD_WORDS → IsAddressless source }
{}

/// Where nothing fails and the texts load, the status is that of the one end of the input, whatever was written.
pub fn the_end_of_the_input<F, S, K, E, A, L, I, O>()
    ensures { (w : World F S K E A L I O) (source : Source) (turns status : ℕ) (b : List ℕ) (requests : List Request) (end : End) → Outcome w (pipe source turns) status
        → input w ≡ Some b → ¬ FilesFail w → ¬ InputFails w → ¬ OutputFails w
        → IsServed (held w) source → Asks MOST_REQUESTS b requests end → (status ≡ status_of end) ⊎ (status ≡ NO_MEMORY) }
{
    // Asked for what its clause says: the bytes of an input spell one list of requests, which fixes the status.
    one_reading();
}
