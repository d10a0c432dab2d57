//! The bytes of a request.
ghost use Rattle.std.specs.Prelude.{◌≡◌, Some, None, [], IfOk};
ghost use Rattle.http_wire.specs.Requesting.{asks_for};

use edge_io::{Failed, Sink};
use http_wire::write_request;
use kj_value::NoMemory;
use std::alloc::Global;

// A sink that grows. It fails where it finds no memory.
#[derive(Drop)]
struct Draft {
    bytes: Vec<u8>,
    faults: u64,
}

impl Sink for Draft {
    ghost written = { λ d. Some d.bytes.items };

    ghost flushed = { λ d. Some d.bytes.items };

    ghost faults = { λ d. d.faults };

    ghost number = { λ d. None };

    fn write(&mut self, piece: &[u8]) -> Result<usize, Failed> {
        match self.bytes.extend_from_slice(piece) {
            Ok(()) => Ok(piece.len()),
            Err(_) => {
                self.faults = self.faults.saturating_add(1);
                Err(Failed)
            }
        }
    }

    fn flush(&mut self) -> Result<(), Failed> {
        Ok(())
    }
}

/// A request of this method, target and body.
pub(crate) fn drafted(
    alloc: Global,
    method: &str,
    target: &str,
    body: &str,
) -> Result<Vec<u8>, NoMemory>
    ensures { IfOk result (λ v. v.items ≡ asks_for method.now target.now body.now) }
{
    let mut draft = Draft {
        bytes: Vec::new(alloc),
        faults: 0,
    };
    match write_request(&mut draft, method, target, body.as_bytes()) {
        Ok(()) => {
            let Draft { bytes, faults: _ } = draft;
            Ok(bytes)
        }
        Err(_) => Err(NoMemory),
    }
}
