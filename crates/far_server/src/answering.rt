//! One request on a connection of its own.
ghost use Rattle.std.specs.Prelude.{◌≡◌, ℕ, [], Some, IfErr, IfOk};
ghost use Rattle.api_calls.specs.Item.{items};
ghost use Rattle.shared_api.specs.Passes.{IsOf};
ghost use Rattle.wire_client.specs.Far.{Served};
ghost use Rattle.far_laws.specs.Answering.{GoesOn};
ghost use Rattle.far_laws.specs.Speaking.{IsShort};
ghost use Rattle.far_server.specs.Serving.{speaker_of};

use api_calls::Versions;
use edge_io::{FixedClock, MemSink, SureSource};
use far_laws::fronts::{goes_on, last_speaks};
use http_front::{OneEnd, serve_one};
use http_wire::Inbox;
use kj_value::NoMemory;
use shared_api::{Pass, SharedApi};
use std::alloc::Global;
use std::sync::Wait;

/// The most bytes of an answer.
const MOST_ANSWER: usize = 2_097_152;

/// More bytes than any request has.
const MANY: usize = 1_000_000_000_000_000_000;

// A connection of one request, and what it is answered in.
#[derive(Drop)]
struct Line {
    inbox: Inbox,
    input: SureSource,
    output: MemSink,
}

// The same bytes, where there are fewer than 10^18.
fn copied(alloc: Global, bytes: &[u8]) -> Result<Vec<u8>, NoMemory>
    ensures same { IfOk result (λ v. v.items ≡ bytes.now) }
    ensures short { IfOk result (λ v. IsShort v.items) }
{
    if bytes.len() >= MANY {
        return Err(NoMemory);
    }
    let mut copy = Vec::with_capacity(alloc, bytes.len())?;
    match copy.extend_from_slice(bytes) {
        Ok(()) => Ok(copy),
        Err(_) => Err(NoMemory),
    }
}

fn line_of(alloc: Global, request: &[u8]) -> Result<Line, NoMemory>
    ensures inbox { IfOk result (λ l. l.inbox.bytes ≡ []) }
    ensures input { IfOk result (λ l. l.input ≡ request.now) }
    ensures output { IfOk result (λ l. l.output.bytes ≡ []) }
    ensures short { IfOk result (λ _. IsShort request.now) }
{
    let inbox = Inbox::open(alloc)?;
    let input = SureSource::new(copied(alloc, request)?);
    let output = MemSink::new(alloc, MOST_ANSWER, Vec::new(alloc))?;
    Ok(Line {
        inbox,
        input,
        output,
    })
}

// Serves the one request of a line.
fn serve_line<V: Versions + Drop, R: Wait>(
    rt: &R,
    alloc: Global,
    api: &SharedApi<V>,
    pass: &mut Pass<V>,
    clock: &FixedClock,
    line: Line,
) -> Result<Vec<u8>, NoMemory>
    requires of { IsOf V.meaning api.now pass.old }
    requires inbox { line.inbox.bytes ≡ [] }
    requires output { line.output.bytes ≡ [] }
    requires short { IsShort line.input }
    ensures of { IsOf V.meaning api.now pass.new }
    ensures number { pass.new.view.number ≡ pass.old.view.number }
    ensures answered { (n : ℕ) → pass.old.view.number ≡ Some n
        → IfOk result (λ v. Served (speaker_of V.meaning api.now.base) (items pass.old.view.seen) line.input v.items (items pass.new.view.seen)) }
    ensures goes_on { (n : ℕ) → pass.old.view.number ≡ Some n → GoesOn (items pass.old.view.seen) (items pass.new.view.seen) }
{
    let mut line = line;
    last_speaks::<V>();
    goes_on::<V>();
    match serve_one(
        rt,
        alloc,
        api,
        pass,
        &mut line.inbox,
        &mut line.input,
        &mut line.output,
        clock,
    ) {
        OneEnd::Last => copied(alloc, line.output.bytes()),
        _ => Err(NoMemory),
    }
}

/// The bytes of the one answer to a request that asks for closing, where there is one.
pub(crate) fn answer_on<V: Versions + Drop, R: Wait>(
    rt: &R,
    alloc: Global,
    api: &SharedApi<V>,
    pass: &mut Pass<V>,
    clock: &FixedClock,
    request: &[u8],
) -> Result<Vec<u8>, NoMemory>
    requires of { IsOf V.meaning api.now pass.old }
    ensures of { IsOf V.meaning api.now pass.new }
    ensures number { pass.new.view.number ≡ pass.old.view.number }
    ensures answered { (n : ℕ) → pass.old.view.number ≡ Some n
        → IfOk result (λ v. Served (speaker_of V.meaning api.now.base) (items pass.old.view.seen) request.now v.items (items pass.new.view.seen)) }
    ensures goes_on { (n : ℕ) → pass.old.view.number ≡ Some n → GoesOn (items pass.old.view.seen) (items pass.new.view.seen) }
{
    match line_of(alloc, request) {
        Ok(line) => serve_line(rt, alloc, api, pass, clock, line),
        Err(NoMemory) => Err(NoMemory),
    }
}
