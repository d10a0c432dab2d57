//! Of `convert` and `review`.
ghost use Rattle.std.specs.Prelude.{◌≡◌, ◌≢◌, ◌⊎◌, ℕ, List};
ghost use Rattle.std.specs.Io.KnownBytes.{IsAtEnd};
ghost use Rattle.crd_meaning.specs.Definition.{Definition};
ghost use Rattle.command_lines.specs.Lines.{Task, by_rules, task};
ghost use Rattle.kubeconv_cmd.specs.World.{World, flushed, held, left, written, written_before, InputStays, OfInput, OutputStays, Says};
ghost use Rattle.kubeconv_cmd.specs.Outcome.{Outcome};
ghost use Rattle.kubeconv_cmd.specs.Sources.{Means, with_rules};
ghost use Rattle.kubeconv_cmd.specs.Status.{line_saying};
ghost use Rattle.kubeconv_cmd.specs.Tasks.{AnswersDocument, Broke, LacksTarget, RefusesDocument, Wrote};
ghost use Rattle.kubeconv_cmd.specs.declared.status.TheConstants.{BAD_INPUT, DONE, WRITE_FAILED};

/// Whatever fails, at 0 the whole input was read, and the whole text of it was written and handed on; at 6 a front of the text; and at
/// each other status nothing. A status of 4 has the error line of what is refused of the input, or of the version, behind which nothing was read.
pub fn whatever_fails<F, S, K, E, A, L, I, O>()
    ensures wrote { (w : World F S K E A L I O) (crd rules : List ℕ) (t : Task) (status : ℕ) → Outcome w (task crd rules t) status → status ≡ DONE
        → (d : Definition) × Means (held w) (by_rules crd rules) (with_rules d) × OfInput w (λ b. Wrote (AnswersDocument d t b) (written_before w) (written w)) }
    ensures whole { (w : World F S K E A L I O) (crd rules : List ℕ) (t : Task) (status : ℕ) → Outcome w (task crd rules t) status → status ≡ DONE → IsAtEnd (left w) × (flushed w ≡ written w) }
    ensures broke { (w : World F S K E A L I O) (crd rules : List ℕ) (t : Task) (status : ℕ) → Outcome w (task crd rules t) status → status ≡ WRITE_FAILED
        → (d : Definition) × Means (held w) (by_rules crd rules) (with_rules d) × OfInput w (λ b. Broke (AnswersDocument d t b) (written_before w) (written w)) }
    ensures silent { (w : World F S K E A L I O) (crd rules : List ℕ) (t : Task) (status : ℕ) → Outcome w (task crd rules t) status → status ≢ DONE → status ≢ WRITE_FAILED → OutputStays w }
    ensures bad_input { (w : World F S K E A L I O) (crd rules : List ℕ) (t : Task) (status : ℕ) → Outcome w (task crd rules t) status → status ≡ BAD_INPUT
        → (d : Definition) × (why : List ℕ) × Means (held w) (by_rules crd rules) (with_rules d) × Says w (line_saying why) × (OfInput w (λ b. RefusesDocument d b t why) ⊎ (LacksTarget d t why × InputStays w)) }
{}
