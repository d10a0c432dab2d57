//! Writing whole pieces to a sink that may take a part of one.
ghost use Rattle.std.specs.Prelude.{◌≡◌};
ghost use Rattle.edge_io.specs.Causes.{HasCause};
ghost use Rattle.edge_io.specs.Sends.{Sends};

use crate::{Failed, Sink};

/// Writes the whole piece.
pub fn send<K: Sink>(out: &mut K, piece: &[u8]) -> Result<(), Failed>
    ensures sent { Sends (K.written out.old) (K.written out.new) piece.now result }
    ensures cause { HasCause (K.faults out.old) (K.faults out.new) result }
    ensures number { K.number out.new ≡ K.number out.old }
{
    let mut sent = 0;
    while sent < piece.len() {
        let count = out.write(&piece[sent..])?;
        sent += count;
    }
    Ok(())
}
