//! Of a line of `load`.
ghost use Rattle.std.specs.Prelude.{◌≡◌, ◌≢◌, ◌<◌, ℕ, List};
ghost use Rattle.edge_io.specs.Connections.{AddsOne};
ghost use Rattle.tcp_links.specs.Links.{Ending};
ghost use Rattle.command_lines.specs.Lines.{load, remote};
ghost use Rattle.kubeconv_cmd.specs.World.{World, linked, linked_before, OutputStays, Says};
ghost use Rattle.kubeconv_cmd.specs.Outcome.{Outcome};
ghost use Rattle.kubeconv_cmd.specs.Status.{bad_line};
ghost use Rattle.kubeconv_cmd.specs.declared.status.TheConstants.{DONE, BAD_INPUT, WRITE_FAILED, LINK_FAILED};
ghost use Rattle.run_laws.specs.Backups.{LoadedWhole};

use record_dump::laws::all_posted;

/// Whatever fails.
pub fn whatever_fails<F, S, K, E, A, L, I, O>()
    // The status of a link that failed comes only where the count of faults of the one link rose that was made and given back.
    ensures link_fault { (w : World F S K E A L I O) (url : List ℕ) (status : ℕ) → Outcome w (remote load url) status → status ≡ LINK_FAILED
        → (e : Ending) × AddsOne (linked_before w) (linked w) e × (0 < e.faults) }
    // A line that is done read its whole input, posted each line of it, and wrote how many were created and how many were there.
    ensures whole { (w : World F S K E A L I O) (url : List ℕ) (status : ℕ) → Outcome w (remote load url) status → status ≡ DONE → LoadedWhole w url }
    // A status of 4 has the number of the line that is refused on the error stream.
    ensures refused { (w : World F S K E A L I O) (url : List ℕ) (status : ℕ) → Outcome w (remote load url) status → status ≡ BAD_INPUT → (number : ℕ) × Says w (bad_line number) }
    // Nothing is written but the two numbers.
    ensures silent { (w : World F S K E A L I O) (url : List ℕ) (status : ℕ) → Outcome w (remote load url) status → status ≢ DONE → status ≢ WRITE_FAILED → OutputStays w }
{
    all_posted();
}
