//! A connection as a job.
ghost use Rattle.shared_api.specs.Passes.{IsOf};
ghost use Rattle.serve_many.specs.Answered.{sides};
ghost use Rattle.serve_many.specs.Jobs.{Finishes, IsUntouched};

use api_calls::Versions;
use edge_io::{Clock, Ears};
use http_front::serve_link;
use shared_api::{Pass, SharedApi};
use std::alloc::Global;
use std::marker::PhantomData;
use std::sync::Wait;
use thread_jobs::Runner;

/// A connection, and the pass that is to serve it. Its parameters have no bounds, so that it may be sent.
#[derive(Drop)]
pub struct Job<'s, A, C, P, S, K> {
    pub pass: P,
    pub input: S,
    pub output: K,
    pub clock: &'s C,
    pub alloc: Global,
    pub of: PhantomData<A>,
}

/// A closed connection, and the pass that served it.
#[derive(Drop)]
pub struct Outcome<P, D> {
    pub pass: P,
    pub ended: D,
}

pub type LinkJob<'s, V, A, C> = Job<'s, A, C, Pass<V>, <A as Ears>::In, <A as Ears>::Out>;

pub type LinkOutcome<V, A> = Outcome<Pass<V>, <A as Ears>::Ended>;

impl<'s, V: Versions + Drop, A: Ears, C: Clock> Runner<LinkJob<'s, V, A, C>, LinkOutcome<V, A>>
    for SharedApi<V> {
    ghost use Rattle.shared_api.specs.Passes.{IsOf};
    ghost use Rattle.serve_many.specs.Answered.{sides};
    ghost use Rattle.serve_many.specs.Jobs.{Finishes, IsUntouched};

    ghost ready = { λ api job. IsOf V.meaning api job.pass
        × IsUntouched (A.In.origin job.input) (A.In.left job.input) (A.In.faults job.input) (A.Out.number job.output) (A.Out.written job.output) (A.Out.flushed job.output) (A.Out.faults job.output) };

    ghost done = { λ job r. Finishes V.Tool.faults (sides A.In.left A.In.most A.Out.written A.Out.flushed) V.meaning (C.told job.clock.now) job.pass (A.In.origin job.input) r.pass (A.ending r.ended) };

    fn run<R: Wait>(&self, rt: &R, job: LinkJob<'s, V, A, C>) -> LinkOutcome<V, A>
        requires ready { IsOf V.meaning self.now job.pass
            × IsUntouched (A.In.origin job.input) (A.In.left job.input) (A.In.faults job.input) (A.Out.number job.output) (A.Out.written job.output) (A.Out.flushed job.output) (A.Out.faults job.output) }
        ensures done { Finishes V.Tool.faults (sides A.In.left A.In.most A.Out.written A.Out.flushed) V.meaning (C.told job.entry.clock.now) job.entry.pass (A.In.origin job.entry.input) result.pass (A.ending result.ended) }
    {
        let Job {
            mut pass,
            mut input,
            mut output,
            clock,
            alloc,
            of: _,
        } = job;
        let _ = serve_link(rt, alloc, self, &mut pass, &mut input, &mut output, clock);
        Outcome {
            pass,
            ended: A::shut(input, output),
        }
    }
}
