//! Of `drill`.
ghost use Rattle.std.specs.Prelude.{◌≡◌, ◌≢◌, ◌⊎◌, ℕ};
ghost use Rattle.command_lines.specs.Lines.{drill};
ghost use Rattle.kubeconv_cmd.specs.World.{World, flushed, written, written_before, FilesStay, InputStays, OutputStays};
ghost use Rattle.kubeconv_cmd.specs.Outcome.{Outcome};
ghost use Rattle.kubeconv_cmd.specs.Sources.{DrillsExample};
ghost use Rattle.kubeconv_cmd.specs.Tasks.{Broke, Wrote};
ghost use Rattle.kubeconv_cmd.specs.declared.status.TheConstants.{DONE, NO_MEMORY, WRITE_FAILED};

/// Whatever fails, at 0 the whole text that is told of the drill was written and handed on, at 6 a front of it, and else nothing; and
/// no file and no input is touched.
pub fn whatever_fails<F, S, K, E, A, L, I, O>()
    ensures drilled { (w : World F S K E A L I O) (start count status : ℕ) → Outcome w (drill start count) status → status ≡ DONE
        → Wrote (DrillsExample start count) (written_before w) (written w) }
    ensures drill_whole { (w : World F S K E A L I O) (start count status : ℕ) → Outcome w (drill start count) status → status ≡ DONE → flushed w ≡ written w }
    ensures drill_broke { (w : World F S K E A L I O) (start count status : ℕ) → Outcome w (drill start count) status → status ≡ WRITE_FAILED
        → Broke (DrillsExample start count) (written_before w) (written w) }
    ensures drill_silent { (w : World F S K E A L I O) (start count status : ℕ) → Outcome w (drill start count) status → status ≢ DONE → status ≢ WRITE_FAILED → OutputStays w }
    ensures drill_ends { (w : World F S K E A L I O) (start count status : ℕ) → Outcome w (drill start count) status
        → ((status ≡ DONE) ⊎ ((status ≡ WRITE_FAILED) ⊎ (status ≡ NO_MEMORY))) × FilesStay w × InputStays w }
{}
