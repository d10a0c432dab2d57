//! Of a line of `migrate`.
ghost use Rattle.std.specs.Prelude.{◌≡◌, ◌≢◌, ◌<◌, ℕ, List};
ghost use Rattle.edge_io.specs.Connections.{AddsOne};
ghost use Rattle.tcp_links.specs.Links.{Ending};
ghost use Rattle.command_lines.specs.Lines.{migrate, remote};
ghost use Rattle.kubeconv_cmd.specs.World.{World, linked, linked_before, OutputStays};
ghost use Rattle.kubeconv_cmd.specs.Outcome.{Outcome};
ghost use Rattle.kubeconv_cmd.specs.declared.status.TheConstants.{DONE, WRITE_FAILED, LINK_FAILED, UNSETTLED};

/// Whatever fails.
pub fn whatever_fails<F, S, K, E, A, L, I, O>()
    // The status of a link that failed comes only where the count of faults of the one link rose that was made and given back.
    ensures link_fault { (w : World F S K E A L I O) (url : List ℕ) (status : ℕ) → Outcome w (remote migrate url) status → status ≡ LINK_FAILED
        → (e : Ending) × AddsOne (linked_before w) (linked w) e × (0 < e.faults) }
    // Nothing is written but a tally.
    ensures silent { (w : World F S K E A L I O) (url : List ℕ) (status : ℕ) → Outcome w (remote migrate url) status → status ≢ DONE → status ≢ UNSETTLED → status ≢ WRITE_FAILED → OutputStays w }
{}
