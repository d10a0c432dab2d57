//! A list of calls of a core over a small definition, whose storage version is at place 1. It knows of `Versions` alone.
use api_calls::Versions;
use api_core::{Core, TurnEnd};
use core_laws::{Answer, Call, run};
use kj_value::NoMemory;
use kube_meta::Limits;
use std::alloc::Global;
use std::sync::Arc;
use versions_fixture::TwoNames;

// The answers to two calls, a worker's turn with a claim that there isn't and the return of none, where nothing happened before.
fn answers<V: Versions + Drop>(alloc: Global, versions: V) -> Result<Vec<Answer>, NoMemory> {
    let versions = Arc::new(alloc, versions)?;
    let limits = Limits {
        objects: 2,
        chunks: 2,
        window_records: 2,
        window_chunks: 2,
        migrations: 1,
    };
    let mut core = Core::open(alloc, versions, limits, 7)?;
    let calls = vec![in alloc;
        Call::Work { claim: Some(3) },
        Call::GiveBack { claim: None },
    ]?;
    run(alloc, &mut core, calls)
}

/// That these answers come in the order of the calls: nothing is to be done, no claim is held behind it, and none was given back.
pub fn in_order(alloc: Global) -> Option<String> {
    let came = answers(alloc, TwoNames::new(alloc).ok()?).ok()?;
    match came.as_slice() {
        [
            Answer::Work {
                end: TurnEnd::Idle,
                claim: None,
            },
            Answer::GiveBack(false),
        ] => String::from_str(alloc, "Idle, None\nfalse\n").ok(),
        _ => None,
    }
}
