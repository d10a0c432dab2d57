//! Why a schema document is refused, and how the path to a keyword is written.
ghost use Rattle.std.specs.Prelude.{◌≡◌, ◌++◌, [], ◌∷◌, IfOk, Option, Some, false, true, codes};
ghost use Rattle.struct_schema.specs.Path.{named, point};
ghost use Rattle.schema_reading.specs.Visit.{Refusal, under, refused_at};
ghost use Rattle.schema_reading.specs.Told.{StopsSchemaReading};

use kj_value::{NoMemory, Txt};
use std::alloc::Global;
use struct_schema::step_before;

/// Why a schema document is refused.
#[derive(Drop)]
pub enum SchemaFault {
    /// The first keyword that isn't allowed, and the path of its node in the document: names joined by
    /// points, as `properties.l.items`, the root as the empty text. `Limit` stands for a keyword where a
    /// node is nested too deep or is one too many.
    Refused { path: Txt, keyword: Txt },
    NoMemory,
}

// A refused keyword, and whether the path of its node has a name.
#[derive(Drop)]
pub(crate) struct Spot {
    pub(crate) path: Txt,
    pub(crate) named: bool,
    pub(crate) keyword: Txt,
}

// Why a walk ends.
#[derive(Drop)]
pub(crate) enum Stop {
    Found(Spot),
    Starved,
}

impl From<NoMemory> for Stop {
    ghost use Rattle.std.specs.Prelude.{◌≡◌};
    ghost use Rattle.schema_reading.specs.declared.trouble.Stop.{Stop};

    ghost from_gives = { λ e s. s ≡ Stop.Starved };

    fn from(_e: NoMemory) -> Stop {
        Stop::Starved
    }
}

fn spot_here(alloc: Global, keyword: &str) -> Result<Spot, NoMemory>
    ensures path { IfOk result (λ s. s.path.bytes ≡ []) }
    ensures named { IfOk result (λ s. s.named ≡ false) }
    ensures keyword { IfOk result (λ s. s.keyword.bytes ≡ keyword.now) }
{
    Ok(Spot {
        path: Txt::of_string(String::new(alloc)),
        named: false,
        keyword: Txt::of(alloc, keyword)?,
    })
}

// A keyword that is refused at the node itself.
pub(crate) fn refused_here(alloc: Global, keyword: &str) -> Stop
    ensures { StopsSchemaReading (Some (refused_at [] keyword.now)) result }
{
    match spot_here(alloc, keyword) {
        Ok(spot) => Stop::Found(spot),
        Err(_) => Stop::Starved,
    }
}

// The refused keyword, one step further in.
fn stepped(alloc: Global, name: &str, inner: Spot) -> Result<Spot, NoMemory>
    ensures path { IfOk result (λ s. s.path.bytes
        ≡ name.now ++ point inner.named ++ inner.path.bytes) }
    ensures named { IfOk result (λ s. s.named ≡ true) }
    ensures keyword { IfOk result (λ s. s.keyword.bytes ≡ inner.keyword.bytes) }
{
    let path = step_before(alloc, name, inner.named, inner.path.as_str())?;
    Ok(Spot {
        path,
        named: true,
        keyword: inner.keyword,
    })
}

// The end of a walk under a name, as that of the walk around it.
pub(crate) fn under_name(alloc: Global, name: &str, stop: Stop) -> Stop
    ensures { (o : Option Refusal) → StopsSchemaReading o stop → StopsSchemaReading (under (named name.now) o) result }
{
    match stop {
        Stop::Starved => Stop::Starved,
        Stop::Found(inner) => match stepped(alloc, name, inner) {
            Ok(outer) => Stop::Found(outer),
            Err(_) => Stop::Starved,
        },
    }
}
