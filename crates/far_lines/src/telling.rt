//! What is written of a tally.
ghost use Rattle.std.specs.Prelude.{◌≡◌, IfOk, OnOk, string_bytes};
ghost use Rattle.edge_io.specs.Causes.{HasCause, Rose};
ghost use Rattle.edge_io.specs.Sends.{Sends};
ghost use Rattle.far_migrate.specs.Counts.{counts_of};
ghost use Rattle.far_lines.specs.Migrated.{put_lines as put_lines_of, other_lines as other_lines_of, tally_lines};
ghost use Rattle.far_lines.specs.Ends.{Told, OnUnwritten, IfSilent, settled_end};

use crate::end::MigrateEnd;
use edge_io::{Failed, Sink, send};
use far_migrate::Tally;
use kj_value::{NoMemory, Txt};
use std::alloc::Global;

#[tactic(auto, unfolding(crate::specs::Migrated::put_lines))]
fn put_lines(alloc: Global, listed: u64, written: u64, unchanged: u64) -> Result<String, NoMemory>
    ensures { IfOk result (λ s. string_bytes s ≡ put_lines_of listed written unchanged) }
{
    Ok(format!(in alloc; "listed {listed}\nwritten {written}\nunchanged {unchanged}\n")?)
}

#[tactic(auto, unfolding(crate::specs::Migrated::other_lines))]
fn other_lines(alloc: Global, gone: u64, contested: u64) -> Result<String, NoMemory>
    ensures { IfOk result (λ s. string_bytes s ≡ other_lines_of gone contested) }
{
    Ok(format!(in alloc; "gone {gone}\ncontested {contested}\n")?)
}

// The text of a tally.
fn tally_text(alloc: Global, tally: Tally) -> Result<Txt, NoMemory>
    ensures { IfOk result (λ t. t.bytes ≡ tally_lines (counts_of tally)) }
{
    let mut text = put_lines(alloc, tally.listed, tally.written, tally.unchanged)?;
    let others = other_lines(alloc, tally.gone, tally.contested)?;
    text.push_str(others.as_str())?;
    Ok(Txt::of_string(text))
}

// Writes a text, and hands it on.
fn write_text<K: Sink>(output: &mut K, text: &str) -> Result<(), Failed>
    ensures sent { Sends (K.written output.old) (K.written output.new) text.now result }
    ensures flushed { OnOk result (K.flushed output.new ≡ K.written output.new) }
    ensures cause { HasCause (K.faults output.old) (K.faults output.new) result }
{
    send(output, text.as_bytes())?;
    output.flush()
}

// How a line ends whose tally was written.
fn written_end(contested: u64) -> MigrateEnd
    ensures { result ≡ settled_end contested }
{
    if contested == 0 {
        MigrateEnd::Done
    } else {
        MigrateEnd::Contested
    }
}

/// Writes a tally, and hands it on.
pub(crate) fn write_tally<K: Sink>(alloc: Global, tally: Tally, output: &mut K) -> MigrateEnd
    ensures told { Told (counts_of tally) (K.written output.old) (K.written output.new) (K.flushed output.new) result }
    ensures cause { OnUnwritten (Rose (K.faults output.old) (K.faults output.new)) result }
    ensures silent { IfSilent (output.new ≡ output.old) result }
{
    match tally_text(alloc, tally) {
        Ok(text) => match write_text(output, text.as_str()) {
            Ok(()) => written_end(tally.contested),
            Err(_) => MigrateEnd::WriteFault,
        },
        Err(NoMemory) => MigrateEnd::NoMemory,
    }
}
