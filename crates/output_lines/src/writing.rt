//! A line that is written, and handed on.
ghost use Rattle.std.specs.Prelude.{◌≡◌, OnOk};
ghost use Rattle.edge_io.specs.Causes.{HasCause};
ghost use Rattle.edge_io.specs.Sends.{Sends};
ghost use Rattle.output_lines.specs.Lines.{ended_line};

use edge_io::{Failed, Sink, send};

// Writes a line with its end.
fn send_line<K: Sink>(output: &mut K, text: &[u8]) -> Result<(), Failed>
    ensures sent { Sends (K.written output.old) (K.written output.new) (ended_line text.now) result }
    ensures cause { HasCause (K.faults output.old) (K.faults output.new) result }
{
    send(output, text)?;
    send(output, b"\n")
}

/// Writes a text with the end of a line, and hands it on. Where it fails a front of that was written; the sink's count of faults rose.
pub fn write_line<K: Sink>(output: &mut K, text: &str) -> Result<(), Failed>
    ensures sent { Sends (K.written output.old) (K.written output.new) (ended_line text.now) result }
    ensures flushed { OnOk result (K.flushed output.new ≡ K.written output.new) }
    ensures cause { HasCause (K.faults output.old) (K.faults output.new) result }
{
    send_line(output, text.as_bytes())?;
    output.flush()
}
