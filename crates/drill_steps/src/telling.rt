//! The lines that tell of a drill.
ghost use Rattle.std.specs.Prelude.{◌≡◌, IfOk, string_bytes};
ghost use Rattle.drill_steps.specs.Drilling.{list_told, others_told, summary, writes_told};

use crate::counts::Counts;
use kj_value::{NoMemory, Txt};
use std::alloc::Global;

#[tactic(auto, unfolding(crate::specs::Drilling::writes_told))]
fn writes_told(alloc: Global, created: u64, replaced: u64, deleted: u64) -> Result<String, NoMemory>
    ensures { IfOk result (λ s. string_bytes s ≡ writes_told created replaced deleted) }
{
    Ok(format!(in alloc; "created {created}\nreplaced {replaced}\ndeleted {deleted}")?)
}

#[tactic(auto, unfolding(crate::specs::Drilling::others_told))]
fn others_told(
    alloc: Global,
    missed: u64,
    refused: u64,
    touched: u64,
    migrated: u64,
) -> Result<String, NoMemory>
    ensures { IfOk result (λ s. string_bytes s ≡ others_told missed refused touched migrated) }
{
    Ok(format!(in alloc;
        "\nmissed {missed}\nrefused {refused}\ntouched {touched}\nmigrated {migrated}"
    )?)
}

#[tactic(auto, unfolding(crate::specs::Drilling::list_told))]
fn list_told(alloc: Global, objects: usize, revision: &str) -> Result<String, NoMemory>
    ensures { IfOk result (λ s. string_bytes s ≡ list_told objects revision.now) }
{
    Ok(format!(in alloc; "\nobjects {objects}\nrevision {revision}")?)
}

/// The lines of what came of a drill.
pub(crate) fn summary(
    alloc: Global,
    counts: &Counts,
    objects: usize,
    revision: &str,
) -> Result<Txt, NoMemory>
    ensures { IfOk result (λ t. t.bytes ≡ summary counts.now objects revision.now) }
{
    let mut text = writes_told(alloc, counts.created, counts.replaced, counts.deleted)?;
    let others = others_told(
        alloc,
        counts.missed,
        counts.refused,
        counts.touched,
        counts.migrated,
    )?;
    text.push_str(others.as_str())?;
    let list = list_told(alloc, objects, revision)?;
    text.push_str(list.as_str())?;
    Ok(Txt::of_string(text))
}
