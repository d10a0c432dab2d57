//! Connections for which no pass of their own can be made: the thread that accepts them serves each, and takes the worker's turns
//! behind it.
ghost use Rattle.std.specs.Prelude.{IfOk};
ghost use Rattle.edge_io.specs.MemoryEars.{IsUnread, IsUnwritten};
ghost use Rattle.shared_api.specs.Passes.{IsOf};

use api_calls::{NoTool, Tools, Versions};
use edge_io::{Clock, Ears, FixedClock, MemConnection, MemEars, MemSink, MemSource};
use kj_value::{NoMemory, Stamp};
use kube_meta::Limits;
use serve_many::{ServeEnd, Served, serve_all};
use shared_api::{Pass, SharedApi};
use std::alloc::Global;
use std::sync::Wait;
use std::thread::Threads;
use std::time;
use versions_fixture::TwoNames;

const ROOM: Limits = Limits {
    objects: 64,
    chunks: 64,
    window_records: 64,
    window_chunks: 64,
    migrations: 4,
};

const STAMP: Stamp = Stamp {
    text: *b"2024-01-02T03:04:05Z",
};

// A create, a storage version, and the start of a migration.
const MIGRATES: &[u8] =
    b"POST /apis/example.com/v1beta1/namespaces/default/crontabs HTTP/1.1\r\nContent-Length: 99\r\n\r\n{\"apiVersion\":\"example.com/v1beta1\",\"kind\":\"CronTab\",\"metadata\":{\"name\":\"a\"},\"address\":\"localhost\"}PUT /apis/apiextensions.k8s.io/v1/customresourcedefinitions/crontabs.example.com HTTP/1.1\r\nContent-Length: 25\r\n\r\n{\"spec\":{\"storage\":\"v1\"}}POST /apis/storagemigration.k8s.io/v1alpha1/storageversionmigrations HTTP/1.1\r\nContent-Length: 172\r\n\r\n{\"apiVersion\":\"storagemigration.k8s.io/v1alpha1\",\"kind\":\"StorageVersionMigration\",\"metadata\":{\"name\":\"m\"},\"spec\":{\"resource\":{\"group\":\"example.com\",\"resource\":\"crontabs\"}}}";

const GETS: &[u8] = b"GET /apis/example.com/v1/namespaces/default/crontabs/a HTTP/1.1\r\n\r\n";

// The object at the number 5, which the migration gave it.
const SHOWN: &[u8] =
    b"HTTP/1.1 200 OK\r\nContent-Type: application/json\r\nContent-Length: 238\r\n\r\n{\"apiVersion\":\"example.com/v1\",\"host\":\"localhost\",\"kind\":\"CronTab\",\"metadata\":{\"creationTimestamp\":\"2024-01-02T03:04:05Z\",\"generation\":1,\"name\":\"a\",\"namespace\":\"default\",\"resourceVersion\":\"5\",\"uid\":\"00000000-0000-8000-8000-000000000002\"}}";

// Tools of which none can be made.
#[derive(Drop)]
struct NoneLeft;

impl Tools<NoTool> for NoneLeft {
    fn make(&mut self, _alloc: Global) -> Result<NoTool, NoMemory> {
        Err(NoMemory)
    }
}

fn source(alloc: Global, asked: &[u8]) -> Result<MemSource, NoMemory>
    ensures { IfOk result IsUnread }
{
    let bytes = asked.to_vec(alloc)?;
    Ok(MemSource::new(bytes, 1_000, Vec::new(alloc)))
}

fn sink(alloc: Global) -> Result<MemSink, NoMemory>
    ensures { IfOk result IsUnwritten }
{
    MemSink::new(alloc, 10_000, Vec::new(alloc))
}

// A connection that asks this.
fn connection(alloc: Global, asked: &[u8]) -> Result<MemConnection, NoMemory> {
    let source = source(alloc, asked)?;
    let sink = sink(alloc)?;
    MemConnection::new(alloc, source, sink)
}

// A connection that starts a migration, and one behind it that asks for the object.
fn two(alloc: Global) -> Result<MemEars, NoMemory> {
    let first = connection(alloc, MIGRATES)?;
    let second = connection(alloc, GETS)?;
    let connections = vec![in alloc; first, second]?;
    MemEars::new(alloc, connections, Vec::new(alloc))
}

// How serving two connections ends, with a worker, and how often the bell was rung. Nothing is said of it, so that the clauses of that
// end here.
fn end_of<
    'x,
    V: Versions + Drop + Send + Sync,
    A: Ears + Send,
    M: Tools<V::Tool>,
    C: Clock + Sync,
    R: Threads + Wait + time::Clock + Sync,
>(
    rt: &'x R,
    alloc: Global,
    api: &'x SharedApi<V>,
    pass: &mut Pass<V>,
    tools: &mut M,
    ears: &mut A,
    clock: &'x C,
) -> (Served, u64)
where
    V::Tool: Send,
    requires { IsOf V.meaning api.now pass.old }
{
    let served = serve_all(rt, alloc, api, pass, tools, ears, clock, 1, Some(2));
    (served, api.bell().rung())
}

// The same, over the small definition.
fn ended<A: Ears + Send, R: Threads + Wait + time::Clock + Sync>(
    rt: &R,
    alloc: Global,
    ears: &mut A,
) -> Result<(Served, u64), NoMemory> {
    let (api, mut pass) = SharedApi::open(alloc, TwoNames::new(alloc)?, NoTool, ROOM, 0)?;
    let clock = FixedClock::new(STAMP);
    let end = end_of(rt, alloc, &api, &mut pass, &mut NoneLeft, ears, &clock);
    drop(pass);
    drop(api);
    Ok(end)
}

pub(crate) fn no_pass_but_the_first<R: Threads + Wait + time::Clock + Sync>(
    rt: &R,
    alloc: Global,
) -> Option<bool> {
    let Ok(mut ears) = two(alloc) else {
        return None;
    };
    let Ok((served, rung)) = ended(rt, alloc, &mut ears) else {
        return None;
    };
    let done = served.end == ServeEnd::Done && served.idle == 1;
    let shown = ears.last_written() == Some(SHOWN);
    // Flags were set, a migration was started, and the workers were dismissed.
    Some(done && shown && rung == 3)
}
