//! The request of a review of one object.
ghost use Rattle.std.specs.Prelude.{◌≡◌, codes, IfOk};
ghost use Rattle.http_wire.specs.Requesting.{asks_for};
ghost use Rattle.link_converter.specs.Asking.{uid_of};

use edge_io::MemSink;
use http_wire::write_request;
use itoa::Buffer;
use kj_value::{NoMemory, Txt};
use std::alloc::Global;

// Beside its target and its body a request has no more bytes.
const MOST_HEAD_BYTES: usize = 256;

/// The uid of the review of that number.
pub(crate) fn uid(alloc: Global, number: u64) -> Result<Txt, NoMemory>
    ensures { IfOk result (λ t. t.bytes ≡ uid_of number) }
{
    let mut digits = Buffer::new();
    let mut text = String::new(alloc);
    text.push_str("r")?;
    text.push_str(digits.format(number))?;
    Ok(Txt::of_string(text))
}

/// The bytes of the POST of that body. There is room for them, so that the sink takes all of them.
pub(crate) fn post(alloc: Global, target: &str, body: &str) -> Result<Vec<u8>, NoMemory>
    ensures { IfOk result (λ v. v.items ≡ asks_for (codes "POST") target.now body.now) }
{
    let room = target
        .len()
        .saturating_add(body.len())
        .saturating_add(MOST_HEAD_BYTES);
    let mut out = MemSink::new(alloc, room, Vec::new(alloc))?;
    match write_request(&mut out, "POST", target, body.as_bytes()) {
        Ok(()) => Ok(Vec::from_slice(alloc, out.bytes())?),
        Err(_) => Err(NoMemory),
    }
}
