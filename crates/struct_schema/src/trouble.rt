//! Why a value is refused, and how the path to a fault is written.
ghost use Rattle.std.specs.Prelude.{◌≡◌, ◌++◌, [], ◌∷◌, IfOk, Option, Some, false, true, codes, decimal, string_bytes};
ghost use Rattle.struct_schema.specs.Path.{named, at, point};
ghost use Rattle.struct_schema.specs.Fault.{Fault, under, here};
ghost use Rattle.struct_schema.specs.Told.{StopsCheck};

use crate::path::{item_step, step_before};
use kj_value::{NoMemory, Rule, Txt};
use std::alloc::Global;

/// Why a value is refused.
#[derive(Drop)]
pub enum CheckFault {
    /// The first rule that isn't kept, and where: names joined by points, items as `[3]`, the root as
    /// the empty text.
    Broken { path: Txt, rule: Rule },
    /// The value breaks a rule, and there was no memory to say which.
    NoMemory,
}

// A broken rule, and whether its path starts with a name.
#[derive(Drop)]
pub(crate) struct Broken {
    pub(crate) path: Txt,
    pub(crate) named: bool,
    pub(crate) rule: Rule,
}

// Why a walk ends.
#[derive(Drop)]
pub(crate) enum Stop {
    Found(Broken),
    Starved,
}

// A rule that is broken at the value itself. It takes no memory.
pub(crate) fn broken_here(alloc: Global, rule: Rule) -> Stop
    ensures { StopsCheck (Some (here rule)) result }
{
    Stop::Found(Broken {
        path: Txt::of_string(String::new(alloc)),
        named: false,
        rule,
    })
}

// The broken rule, one step further in.
fn stepped(alloc: Global, step: &str, named: bool, inner: Broken) -> Result<Broken, NoMemory>
    ensures path { IfOk result (λ b. b.path.bytes
        ≡ step.now ++ point inner.named ++ inner.path.bytes) }
    ensures named { IfOk result (λ b. b.named ≡ named) }
    ensures rule { IfOk result (λ b. b.rule ≡ inner.rule) }
{
    let path = step_before(alloc, step, inner.named, inner.path.as_str())?;
    Ok(Broken {
        path,
        named,
        rule: inner.rule,
    })
}

// The end of a walk inside the value at a name, as that of the walk around it.
pub(crate) fn under_name(alloc: Global, name: &str, stop: Stop) -> Stop
    ensures { (o : Option Fault) → StopsCheck o stop → StopsCheck (under (named name.now) o) result }
{
    match stop {
        Stop::Starved => Stop::Starved,
        Stop::Found(inner) => match stepped(alloc, name, true, inner) {
            Ok(outer) => Stop::Found(outer),
            Err(_) => Stop::Starved,
        },
    }
}

fn at_place(alloc: Global, i: usize, inner: Broken) -> Result<Broken, NoMemory>
    ensures path { IfOk result (λ b. b.path.bytes
        ≡ codes "[" ++ decimal i ++ codes "]" ++ point inner.named ++ inner.path.bytes) }
    ensures named { IfOk result (λ b. b.named ≡ false) }
    ensures rule { IfOk result (λ b. b.rule ≡ inner.rule) }
{
    let step = item_step(alloc, i)?;
    stepped(alloc, step.as_str(), false, inner)
}

// The end of a walk inside an item, as that of the walk around it.
pub(crate) fn under_item(alloc: Global, i: usize, stop: Stop) -> Stop
    ensures { (o : Option Fault) → StopsCheck o stop → StopsCheck (under (at i) o) result }
{
    match stop {
        Stop::Starved => Stop::Starved,
        Stop::Found(inner) => match at_place(alloc, i, inner) {
            Ok(outer) => Stop::Found(outer),
            Err(_) => Stop::Starved,
        },
    }
}
