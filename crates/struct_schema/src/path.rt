//! The text of a path, which grows on the way out of what it leads to.
ghost use Rattle.std.specs.Prelude.{◌≡◌, ◌++◌, IfOk, codes, decimal};
ghost use Rattle.struct_schema.specs.Path.{point};

use kj_value::{NoMemory, Txt};
use std::alloc::Global;

// What stands before the rest of a path.
fn point(named: bool) -> &'static str
    ensures { result.now ≡ point named }
{
    if named { "." } else { "" }
}

/// The path with a step before it. `named` says whether the path begins with a name, before which stands a point.
pub fn step_before(alloc: Global, step: &str, named: bool, path: &str) -> Result<Txt, NoMemory>
    ensures { IfOk result (λ t. t.bytes ≡ step.now ++ point named ++ path.now) }
{
    let mut text = String::from_str(alloc, step)?;
    text.push_str(point(named))?;
    text.push_str(path)?;
    Ok(Txt::of_string(text))
}

/// The step to an item, its place in brackets, as `[3]`.
pub fn item_step(alloc: Global, i: usize) -> Result<Txt, NoMemory>
    ensures { IfOk result (λ t. t.bytes ≡ codes "[" ++ decimal i ++ codes "]") }
{
    Ok(Txt::of_string(format!(in alloc; "[{i}]")?))
}
