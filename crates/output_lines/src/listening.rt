//! Listening at a place, and telling at which.
ghost use Rattle.std.specs.Prelude.{◌≡◌, ◌≤◌, IfErr, OnOk};
ghost use Rattle.edge_io.specs.Causes.{HasCause, Rose};
ghost use Rattle.edge_io.specs.Sends.{Sends};
ghost use Rattle.output_lines.specs.Listening.{listening_line, Told, ToldSome, Announced, NamesPlace, OnUnheard, OnUntold, Silent};

use crate::writing::write_line;
use edge_io::{Ears, Failed, Sink, send};
use std::alloc::Global;
use tcp_ears::Place;

/// Why connections aren't answered any further, or none was.
pub enum Unserved {
    /// Nobody can listen at the place, or no further connection could be had.
    NotListening,
    /// It couldn't be told at which place connections come.
    WriteFailed,
    NoMemory,
}

// Tells at which place connections come.
fn tell_place<K: Sink>(output: &mut K, place: &str) -> Result<(), Failed>
    ensures sent { Sends (K.written output.old) (K.written output.new) (listening_line place.now) result }
    ensures flushed { OnOk result (K.flushed output.new ≡ K.written output.new) }
    ensures cause { HasCause (K.faults output.old) (K.faults output.new) result }
{
    send(output, b"listening on ")?;
    write_line(output, place)
}

/// Listens at a place, and writes the line `listening on PLACE` with the place that the ears tell of it. `NotListening` comes only where
/// their count of faults rose, and nothing was written then; `WriteFailed` only where that of the output rose, and a front was written.
pub fn listen_at<K: Sink, A: Ears + Place>(
    alloc: Global,
    place: &str,
    output: &mut K,
    ears: &mut A,
) -> Result<(), Unserved>
    ensures place { NamesPlace (A.is_told place.now) (K.written output.old) (K.written output.new) }
    ensures told { OnOk result (Announced (K.written output.old) (K.written output.new) (K.flushed output.new)) }
    ensures silent { IfErr result (Silent (K.written output.new ≡ K.written output.old) (ToldSome (K.written output.old) (K.written output.new)) (Told (K.written output.old) (K.written output.new))) }
    ensures unheard_untold { IfErr result (OnUnheard (K.written output.new ≡ K.written output.old)) }
    ensures unheard { IfErr result (OnUnheard (Rose (A.faults ears.old) (A.faults ears.new))) }
    ensures later { A.faults ears.old ≤ A.faults ears.new }
    ensures untold { IfErr result (OnUntold (Rose (K.faults output.old) (K.faults output.new))) }
    ensures origins { A.origins ears.new ≡ A.origins ears.old }
    ensures returned { A.returned ears.new ≡ A.returned ears.old }
{
    match ears.listen(place) {
        Ok(()) => {}
        Err(_) => return Err(Unserved::NotListening),
    }
    match ears.place(alloc) {
        Ok(taken) => match tell_place(output, taken.as_str()) {
            Ok(()) => Ok(()),
            Err(_) => Err(Unserved::WriteFailed),
        },
        Err(_) => Err(Unserved::NoMemory),
    }
}
