//! A line of `drill`.
ghost use Rattle.std.specs.Prelude.{◌≡◌, IfOk, IfErr, OnOk};
ghost use Rattle.edge_io.specs.Causes.{Rose};
ghost use Rattle.kubeconv_cmd.specs.Sources.{DrillsExample};
ghost use Rattle.kubeconv_cmd.specs.Tasks.{Wrote, Broke};
ghost use Rattle.kubeconv_cmd.specs.inner.Ends.{OnHalt, Unwritten};

use crate::halt::Halt;
use crate::loading::load_example;
use drill_steps::drill;
use edge_io::Sink;
use kj_value::{NoMemory, Txt};
use output_lines::write_line;
use std::alloc::Global;
use std::sync::Wait;

// What is told of so many steps of a drill of the example.
fn drill_text<R: Wait>(rt: &R, alloc: Global, start: u64, count: u64) -> Result<Txt, NoMemory>
    ensures { IfOk result (λ t. DrillsExample start count t.bytes) }
{
    let versions = load_example(alloc)?;
    drill(rt, alloc, versions, start, count)
}

/// Takes so many steps of a drill of the example, which are drawn from the state of the first number on, and writes what is told of it.
pub(crate) fn do_drill<R: Wait, K: Sink>(
    rt: &R,
    alloc: Global,
    start: u64,
    count: u64,
    output: &mut K,
) -> Result<(), Halt>
    ensures wrote { OnOk result (Wrote (DrillsExample start count) (K.written output.old) (K.written output.new)) }
    ensures failed { IfErr result (OnHalt (record {
      reads = ⊥;
      writes = Broke (DrillsExample start count) (K.written output.old) (K.written output.new);
      input = λ _. ⊥;
    })) }
    ensures cause { IfErr result (OnHalt (record { reads = ⊥; writes = Rose (K.faults output.old) (K.faults output.new); input = λ _. ⊥ })) }
    ensures silent { IfErr result (Unwritten (output.new ≡ output.old)) }
    ensures flushed { OnOk result (K.flushed output.new ≡ K.written output.new) }
{
    match drill_text(rt, alloc, start, count) {
        Ok(text) => match write_line(output, text.as_str()) {
            Ok(()) => Ok(()),
            Err(_) => Err(Halt::WriteFailed),
        },
        Err(_) => Err(Halt::NoMemory),
    }
}
