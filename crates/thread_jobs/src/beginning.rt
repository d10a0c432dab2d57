//! The beginning of a job.
ghost use Rattle.std.specs.Prelude.{◌≡◌, IfErr, IfOk};

use crate::flags::{Flag, Told, raise, two_flags};
use crate::running::{Done, JobDone, Runner, Running};
use std::alloc::Global;
use std::marker::PhantomData;
use std::snapshot::Snapshot;
use std::sync::Wait;
use std::thread::{Scope, Threads};

/// Does the job in a thread of the scope, whose handle promises what comes of this job. Where no thread or no memory can
/// be had, it raises the flag that shuts the job's gate, if there is one, does the job here, and answers what came of it as the `Err`.
pub fn begin<
    's,
    E,
    J: Drop + Send + 's,
    D: Drop + Send + 's,
    W: Runner<J, D> + Sync + 's,
    R: Threads + Wait + Sync + 's,
>(
    rt: &'s R,
    alloc: Global,
    scope: &'s Scope<'s, E>,
    runner: &'s W,
    job: J,
    shut: Option<&Flag>,
) -> Result<Running<W, J, D>, D>
    requires ready { W.ready runner.now job }
    ensures begun { IfOk result (λ h. h.handle.promise.job.value ≡ job) }
    ensures tied { IfOk result (λ h. h.handle.promise.over.value ≡ h.over) }
    ensures done { IfErr result (λ r. W.done job r) }
{
    let Ok((over, theirs)) = two_flags(alloc) else {
        let _up = raise(rt, shut);
        return Err(runner.run(rt, job));
    };
    let promise = JobDone {
        job: Snapshot::of(&job),
        over: Snapshot::of(&over),
        by: PhantomData,
    };
    let work = move || -> Done<D>
        requires { W.ready runner.now job }
        ensures done { W.done job result.result }
        ensures over { result.over ≡ theirs }
    {
        let result = runner.run(rt, job);
        let over = Told::of(&theirs, theirs.put_up(rt));
        Done { result, over }
    };
    match scope.spawn_with(promise, work) {
        Ok(handle) => Ok(Running { handle, over }),
        Err(refused) => {
            let _up = raise(rt, shut);
            Err((refused.value)().result)
        }
    }
}
