//! A job that a thread does.
ghost use Rattle.std.specs.Prelude.{◌≡◌, IfSome};

use crate::flags::{Flag, Raised, Told};
use std::marker::PhantomData;
use std::snapshot::Snapshot;
use std::sync::Wait;
use std::thread::{Promise, PromisedHandle, Threads};

/// What does jobs, in any thread.
pub trait Runner<J, D> {
    /// The job may be done.
    ghost ready: { Self → J → Type 0 };

    /// What comes of the job.
    ghost done: { J → D → Type 0 };

    /// Does the job. It may wait.
    fn run<R: Wait>(&self, rt: &R, job: J) -> D
        requires ready { ready self.now job }
        ensures done { done job result };
}

/// What a thread hands back: what came of its job, and that it raised the job's flag.
#[derive(Drop)]
pub struct Done<D> {
    pub result: D,
    pub over: Told,
}

/// The promise that a job is done, and its flag raised then.
#[derive(Drop)]
pub struct JobDone<W, J, D> {
    pub job: Snapshot<J>,
    pub over: Snapshot<Flag>,
    pub by: PhantomData<(W, D)>,
}

impl<J, D, W: Runner<J, D>> Promise<Done<D>> for JobDone<W, J, D> {
    ghost kept_by = { λ p r. W.done p.job.value r.result × (r.over ≡ p.over.value) };
}

/// A job that a thread does, and whether it is over.
#[derive(Drop)]
pub struct Running<W: Runner<J, D>, J, D> {
    pub handle: PromisedHandle<Done<D>, JobDone<W, J, D>>,
    pub over: Flag,
}

impl<J, D, W: Runner<J, D>> Running<W, J, D> {
    /// Shows that the job was done, if it is over: its own flag is up. Its thread ends then, so that joining it doesn't wait for the
    /// job.
    pub fn is_over(&self) -> Option<Raised<'_>>
        ensures { IfSome result (λ r. r ≡ self.now.over) }
    {
        self.over.raised()
    }

    /// Waits for the job's end, and answers what came of it.
    pub fn join<R: Threads>(self, rt: &R) -> D
        ensures { W.done self.handle.promise.job.value result }
    {
        let Running { handle, over: _ } = self;
        let Done { result, over: _ } = handle.join(rt);
        result
    }
}
