//! Two orders in two threads, of which the first may wait inside the definition until the second has its answer.
ghost use Rattle.shared_api.specs.Passes.{IsOf};

use crate::calls::{called, pass_from};
use crate::texts::cut;
use crate::tool::{Chosen, Post};
use api_calls::Versions;
use migrate_core::Worker;
use shared_api::{Pass, SharedApi};
use std::alloc::Global;
use std::sync::{Arc, Wait};
use std::thread::{Threads, join};

// The answer to an order, on a pass of the caller's own.
fn ordered<V: Versions + Drop, R: Wait>(
    rt: &R,
    alloc: Global,
    api: &SharedApi<V>,
    mut pass: Pass<V>,
    order: &str,
) -> Option<String>
    requires { IsOf V.meaning api.now pass }
{
    let mut w = Worker { claim: None };
    let told = called(rt, alloc, api, &mut pass, &mut w, order, "");
    drop(pass);
    told
}

// The answer to an order that is given once a call waits at the post, which then goes on.
fn meanwhile<V: Versions + Drop, R: Wait>(
    rt: &R,
    alloc: Global,
    api: &SharedApi<V>,
    pass: Pass<V>,
    post: &Post,
    order: &str,
) -> Option<String>
    requires { IsOf V.meaning api.now pass }
{
    post.see();
    let answer = ordered(rt, alloc, api, pass, order);
    post.tell();
    answer
}

// The answers to two orders, of which the first waits for the second.
fn both<V: Versions<Tool = Chosen> + Drop + Send + Sync, R: Threads + Wait + Sync>(
    rt: &R,
    alloc: Global,
    api: &SharedApi<V>,
    one: Pass<V>,
    two: Pass<V>,
    post: &Post,
    first: &str,
    second: &str,
) -> (Option<String>, Option<String>)
    requires one { IsOf V.meaning api.now one }
    requires two { IsOf V.meaning api.now two }
{
    join(
        rt,
        || ordered(rt, alloc, api, one, first),
        || meanwhile(rt, alloc, api, two, post, second),
    )
}

fn shown(answer: &Option<String>) -> &str {
    match answer {
        Some(text) => text.as_str(),
        None => "no answer",
    }
}

// Two answers, and whether someone waited in vain.
fn told(
    alloc: Global,
    waits: &Option<String>,
    meanwhile: &Option<String>,
    post: &Post,
) -> Option<String> {
    let one = shown(waits);
    let two = shown(meanwhile);
    let spent = if post.is_spent() {
        "spent"
    } else {
        "not spent"
    };
    format!(in alloc; "{one} | {two} | {spent}").ok()
}

// What two orders answer, of which the first is given on a pass of its own.
fn with_pass<V: Versions<Tool = Chosen> + Drop + Send + Sync, R: Threads + Wait + Sync>(
    rt: &R,
    alloc: Global,
    api: &SharedApi<V>,
    pass: &mut Pass<V>,
    one: Pass<V>,
    post: &Post,
    orders: &str,
) -> Option<String>
    requires pass { IsOf V.meaning api.now pass.old }
    requires one { IsOf V.meaning api.now one }
    ensures pass { IsOf V.meaning api.now pass.new }
{
    let Some(two) = pass_from(rt, api, pass, Chosen::at(0)) else {
        drop(one);
        return None;
    };
    let (first, second) = orders.split_once(" | ").unwrap_or((orders, ""));
    let (waits, meanwhile) = both(rt, alloc, api, one, two, post, first, second);
    told(alloc, &waits, &meanwhile, post)
}

// The same, where the first caller has this tool.
fn with_tool<V: Versions<Tool = Chosen> + Drop + Send + Sync, R: Threads + Wait + Sync>(
    rt: &R,
    alloc: Global,
    api: &SharedApi<V>,
    pass: &mut Pass<V>,
    tool: Chosen,
    post: &Post,
    orders: &str,
) -> Option<String>
    requires { IsOf V.meaning api.now pass.old }
    ensures { IsOf V.meaning api.now pass.new }
{
    match pass_from(rt, api, pass, tool) {
        Some(one) => with_pass(rt, alloc, api, pass, one, post, orders),
        None => None,
    }
}

/// What two orders answer, of which the first may wait: `CALL ORDER | ORDER`.
pub(crate) fn beside<V: Versions<Tool = Chosen> + Drop + Send + Sync, R: Threads + Wait + Sync>(
    rt: &R,
    alloc: Global,
    api: &SharedApi<V>,
    pass: &mut Pass<V>,
    line: &str,
) -> Option<String>
    requires { IsOf V.meaning api.now pass.old }
    ensures { IsOf V.meaning api.now pass.new }
{
    let (place, orders) = cut(line);
    match Arc::new(alloc, Post::new()) {
        Ok(post) => match Chosen::waiting(place, &post) {
            Some(tool) => with_tool(rt, alloc, api, pass, tool, &*post, orders),
            None => None,
        },
        Err(_) => None,
    }
}
