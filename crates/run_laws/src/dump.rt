//! Of a line of `dump`.
ghost use Rattle.std.specs.Prelude.{◌≡◌, ◌<◌, ℕ, List};
ghost use Rattle.edge_io.specs.Connections.{AddsOne};
ghost use Rattle.tcp_links.specs.Links.{Ending};
ghost use Rattle.command_lines.specs.Lines.{dump, remote};
ghost use Rattle.kubeconv_cmd.specs.World.{World, linked, linked_before};
ghost use Rattle.kubeconv_cmd.specs.Outcome.{Outcome};
ghost use Rattle.kubeconv_cmd.specs.declared.status.TheConstants.{DONE, LINK_FAILED};
ghost use Rattle.run_laws.specs.Backups.{DumpedWhole};

use record_dump::laws::one_list;

/// Whatever fails.
pub fn whatever_fails<F, S, K, E, A, L, I, O>()
    // The status of a link that failed comes only where the count of faults of the one link rose that was made and given back.
    ensures link_fault { (w : World F S K E A L I O) (url : List ℕ) (status : ℕ) → Outcome w (remote dump url) status → status ≡ LINK_FAILED
        → (e : Ending) × AddsOne (linked_before w) (linked w) e × (0 < e.faults) }
    // A line that is done wrote each object of one whole list.
    ensures whole { (w : World F S K E A L I O) (url : List ℕ) (status : ℕ) → Outcome w (remote dump url) status → status ≡ DONE → DumpedWhole w url }
{
    one_list();
}
