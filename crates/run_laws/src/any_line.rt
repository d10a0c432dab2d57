//! Of each line.
ghost use Rattle.std.specs.Prelude.{◌≡◌, ◌⊎◌, ℕ, List, Some};
ghost use Rattle.command_lines.specs.Lines.{Line};
ghost use Rattle.kubeconv_cmd.specs.World.{World, held, input, EarsFail, EarsStay, FilesFail, InputFails, InputStays, OutputFails, OutputStays};
ghost use Rattle.kubeconv_cmd.specs.Sources.{Refuses};
ghost use Rattle.kubeconv_cmd.specs.Outcome.{IsPlaceless, Outcome};
ghost use Rattle.kubeconv_cmd.specs.declared.status.TheConstants.{BAD_WORDS, LISTEN_FAILED, NO_MEMORY, READ_FAILED, REFUSED, WRITE_FAILED};
ghost use Rattle.run_laws.specs.Ran.{Blames, HasDefinition, HearsNone, IsComplete, IsLocal, IsToldBy, OfSource, Ran, WantsFirst};

/// Where nothing fails.
pub fn where_nothing_fails<F, S, K, E, A, L, I, O>()
    // What was written is what the line does with the bytes of the input, by the definition by which it works, and the status is that of its
    // end; or something of its files is refused, memory was wanted, or it has an address that is none.
    ensures talk { (w : World F S K E A L I O) (line : Line) (status : ℕ) (b : List ℕ) → Outcome w line status → IsLocal line → input w ≡ Some b
        → ¬ FilesFail w → ¬ InputFails w → ¬ OutputFails w
        → Ran w line b status ⊎ (((status ≡ REFUSED) × OfSource line (Blames w)) ⊎ ((status ≡ NO_MEMORY) ⊎ ((status ≡ BAD_WORDS) × IsPlaceless line))) }
    // Where its texts are a definition, the line is done, or wanted memory; or its input was no whole conversation, or is refused.
    ensures completes { (w : World F S K E A L I O) (line : Line) (status : ℕ) → Outcome w line status → HasDefinition (held w) line
        → ¬ FilesFail w → ¬ InputFails w → ¬ OutputFails w → ¬ EarsFail w → IsComplete line status }
    // Where something of its texts is refused, nothing is served.
    ensures refused { (w : World F S K E A L I O) (line : Line) (status : ℕ) (name why : List ℕ) → Outcome w line status → OfSource line (IsToldBy (held w)) → ¬ FilesFail w
        → OfSource line (λ source. Refuses (held w) source name why) → (status ≡ REFUSED) ⊎ ((status ≡ NO_MEMORY) ⊎ ((status ≡ BAD_WORDS) × IsPlaceless line)) }
{}

/// By the status, whatever fails.
pub fn by_status<F, S, K, E, A, L, I, O>()
    // A status of 3 has the error line of something that is refused, and nothing was read or written.
    ensures refusal { (w : World F S K E A L I O) (line : Line) (status : ℕ) → Outcome w line status → status ≡ REFUSED → OfSource line (Blames w) }
    ensures unserved { (w : World F S K E A L I O) (line : Line) (status : ℕ) → Outcome w line status → status ≡ REFUSED → InputStays w × OutputStays w }
    // A fault's status comes only where something failed.
    ensures read_fault { (w : World F S K E A L I O) (line : Line) (status : ℕ) → Outcome w line status → status ≡ READ_FAILED → FilesFail w ⊎ InputFails w }
    ensures write_fault { (w : World F S K E A L I O) (line : Line) (status : ℕ) → Outcome w line status → status ≡ WRITE_FAILED → OutputFails w }
    ensures ears_fault { (w : World F S K E A L I O) (line : Line) (status : ℕ) → Outcome w line status → status ≡ LISTEN_FAILED → EarsFail w }
    // The lines but `serve` ask nothing of the ears, and those but `serve` and `dump` write nothing where memory is wanted.
    ensures ears { (w : World F S K E A L I O) (line : Line) (status : ℕ) → Outcome w line status → HearsNone line → EarsStay w }
    ensures memory { (w : World F S K E A L I O) (line : Line) (status : ℕ) → Outcome w line status → WantsFirst line → status ≡ NO_MEMORY → OutputStays w }
{}
