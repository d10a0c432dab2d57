//! The path of what is refused, built on the way out.
ghost use Rattle.std.specs.Prelude.{◌≡◌, ◌++◌, IfOk};
ghost use Rattle.struct_schema.specs.Path.{point};
ghost use Rattle.struct_schema.specs.PathText.{here, in_name, in_item};
ghost use Rattle.rule_reading.specs.Told.{path_of};

use kj_value::{NoMemory, Txt};
use std::alloc::Global;
use struct_schema::{item_step, step_before};

// The path of what is refused, and whether it begins with a name.
#[derive(Drop)]
pub(crate) struct Spot {
    pub(crate) path: Txt,
    pub(crate) named: bool,
}

// What a value spells, or what is refused in it.
pub(crate) type Tried<T> = Result<Result<T, Spot>, NoMemory>;

// The value itself.
pub(crate) fn here(alloc: Global) -> Spot
    ensures { path_of result ≡ here }
{
    Spot {
        path: Txt::of_string(String::new(alloc)),
        named: false,
    }
}

fn stepped(alloc: Global, step: &str, named: bool, inner: Spot) -> Result<Spot, NoMemory>
    ensures path { IfOk result (λ s. s.path.bytes
        ≡ step.now ++ point inner.named ++ inner.path.bytes) }
    ensures named { IfOk result (λ s. s.named ≡ named) }
{
    let path = step_before(alloc, step, inner.named, inner.path.as_str())?;
    Ok(Spot { path, named })
}

// One name further out.
pub(crate) fn in_name(alloc: Global, name: &str, inner: Spot) -> Result<Spot, NoMemory>
    ensures { IfOk result (λ s. path_of s ≡ in_name name.now (path_of inner)) }
{
    stepped(alloc, name, true, inner)
}

// One list further out.
pub(crate) fn in_item(alloc: Global, i: usize, inner: Spot) -> Result<Spot, NoMemory>
    ensures { IfOk result (λ s. path_of s ≡ in_item i (path_of inner)) }
{
    let step = item_step(alloc, i)?;
    stepped(alloc, step.as_str(), false, inner)
}
