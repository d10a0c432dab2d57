//! Of `serve`.
ghost use Rattle.std.specs.Prelude.{◌≡◌, ◌≢◌, ℕ};
ghost use Rattle.command_lines.specs.Lines.{Listening, Source, serve};
ghost use Rattle.kubeconv_cmd.specs.World.{World, hearing, held, written, written_before, EarsFail, HearsNobody, InputStays};
ghost use Rattle.kubeconv_cmd.specs.Outcome.{Outcome};
ghost use Rattle.kubeconv_cmd.specs.Serving.{Answers};
ghost use Rattle.kubeconv_cmd.specs.Sources.{IsAddressless, Loaded, Means, faults_in, meaning_in};
ghost use Rattle.kubeconv_cmd.specs.declared.status.TheConstants.{BAD_INPUT, BAD_WORDS};
ghost use Rattle.run_laws.specs.Ran.{RunsService, SaysOfService};

/// Whatever fails.
pub fn whatever_fails<F, S, K, E, A, L, I, O>()
    // Where connections were handed out, it had been told where they come, and they were answered by one history of a definition and given back, as
    // many as were asked for at 0 and fewer at 8; at each other status none was handed out. What no connection entered is a worker's, of so many
    // passes at most as there are workers in the words, or of the pass that accepts, where there are any.
    ensures serves { (w : World F S K E A L I O) (source : Source) (s : Listening) (status : ℕ) → Outcome w (serve source s) status
        → RunsService s.connections (λ count. (l : Loaded) × Means (held w) source l × Answers (faults_in l) w.tells.sides (meaning_in l) w.start s (hearing w) count) (EarsFail w) (HearsNobody w) status }
    // At 0 the line that names a place was written, at 6 a front of it, at 2, 3 and 5 nothing, at 7 and 8 the line or nothing; and no other
    // status comes.
    ensures says { (w : World F S K E A L I O) (source : Source) (s : Listening) (status : ℕ) → Outcome w (serve source s) status → SaysOfService (written_before w) (written w) status }
    // It reads no input, and 2 comes only where the address of a converter is none.
    ensures no_input { (w : World F S K E A L I O) (source : Source) (s : Listening) (status : ℕ) → Outcome w (serve source s) status → InputStays w × (status ≢ BAD_INPUT) }
    ensures addressless { (w : World F S K E A L I O) (source : Source) (s : Listening) (status : ℕ) → Outcome w (serve source s) status → status ≡ BAD_WORDS → IsAddressless source }
{}
