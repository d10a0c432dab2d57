//! A start of a storage migration.
ghost use Rattle.std.specs.Prelude.{◌≡◌, ◌<◌, [], ℕ, List, false, Err, IfErr, IfOk, None, Option, length, string_bytes};
ghost use Rattle.kube_meta.specs.declared.limits.Condition.TheVariants.{Running};
ghost use Rattle.api_calls.specs.Bodies.{Starts};
ghost use Rattle.api_calls.specs.Calls.{start};
ghost use Rattle.api_calls.specs.Item.{Item};
ghost use Rattle.api_calls.specs.Refusal.{refusal_of};
ghost use Rattle.api_calls.specs.Replies.{start_answer};
ghost use Rattle.api_core.specs.Ends.{start_end};
ghost use Rattle.call_texts.specs.Told.{Came, decided};
ghost use Rattle.setting_texts.specs.inner.SettingTexts.{untargeted_text};
ghost use Rattle.setting_texts.specs.Starting.{HasTarget, HasTexts, IsUnstarted, is_started, running_text};

use crate::migrations::{add_target, add_untargeted, resource_text};
use crate::start_body::started_name;
use api_calls::{Refusal, Reply, Versions};
use call_texts::{Context, Refused, add, not_started};
use kj_value::{NoMemory, Txt};
use kube_meta::Condition;
use migrate_core::StartEnd;

// The text of a running migration of a name, up to its target.
fn untargeted<V: Versions>(lent: &Context<'_, V>, name: &str) -> Result<String, NoMemory>
    ensures { IfOk result (λ t. string_bytes t ≡ untargeted_text (V.meaning lent.now.versions.now) name.now Running) }
{
    let resource = resource_text(lent)?;
    let mut text = String::new(lent.alloc);
    add_untargeted(lent, resource.as_str(), name, Condition::Running, &mut text)?;
    Ok(text)
}

// The text of a running migration of a name to a version, given what stands before its target.
fn running_text<V: Versions>(
    lent: &Context<'_, V>,
    front: &str,
    target: u8,
) -> Result<Txt, NoMemory>
    requires { target < (V.meaning lent.now.versions.now).count }
    ensures { IfOk result (λ t. (name : List ℕ) → front.now ≡ untargeted_text (V.meaning lent.now.versions.now) name Running
        → t.bytes ≡ running_text (V.meaning lent.now.versions.now) name target) }
{
    let mut text = String::new(lent.alloc);
    add(&mut text, front)?;
    add_target(lent, target, &mut text)?;
    Ok(Txt::of_string(text))
}

// The text of a running migration of a name to each version: which of them is the target shows in the turn, and
// behind it no memory may be wanted.
fn running_texts<V: Versions>(lent: &Context<'_, V>, name: &str) -> Result<Vec<Txt>, NoMemory>
    ensures texts { IfOk result (λ ts. HasTexts (V.meaning lent.now.versions.now) name.now 0 ts.items) }
    ensures count { IfOk result (λ ts. length ts.items ≡ (V.meaning lent.now.versions.now).count) }
{
    let front = untargeted(lent, name)?;
    let mut texts = Vec::new(lent.alloc);
    for v in 0..lent.versions.count() {
        let text = running_text(lent, front.as_str(), v)?;
        texts.push(text)?;
    }
    Ok(texts)
}

/// The name of the migration that a body starts, twice, and its text to each version.
pub fn start_in<V: Versions>(
    lent: &Context<'_, V>,
    bytes: &[u8],
) -> Result<(Txt, Txt, Vec<Txt>), Refused>
    ensures starts { IfOk result (λ r. Starts (V.meaning lent.now.versions.now) bytes.now r.0.bytes) }
    ensures copy { IfOk result (λ r. r.1.bytes ≡ r.0.bytes) }
    ensures texts { IfOk result (λ r. HasTexts (V.meaning lent.now.versions.now) r.0.bytes 0 r.2.items) }
    ensures count { IfOk result (λ r. length r.2.items ≡ (V.meaning lent.now.versions.now).count) }
    ensures refused { IfErr result (λ e. Came ⊥ (IsUnstarted (V.meaning lent.now.versions.now) bytes.now) (Err (refusal_of e.refusal)) None) }
{
    let name = match started_name(lent, bytes) {
        Ok(name) => name,
        Err(fault) => return Err(not_started(lent.alloc, fault)),
    };
    let texts = running_texts(lent, name.as_str())?;
    let copy = Txt::of(lent.alloc, name.as_str())?;
    Ok((name, copy, texts))
}

/// The answer to a start that ended so. Where it entered an item it takes no memory.
pub fn started<V: Versions>(
    lent: &Context<'_, V>,
    end: StartEnd,
    name: Txt,
    mut texts: Vec<Txt>,
) -> Result<Reply, Refused>
    requires texts { HasTexts (V.meaning lent.now.versions.now) name.bytes 0 texts.items }
    requires count { length texts.items ≡ (V.meaning lent.now.versions.now).count }
    requires target { HasTarget (V.meaning lent.now.versions.now).count (start_end end) }
    ensures came { (i : Option Item) → (is_started (start_end end) ≡ false → i ≡ None)
        → Came ⊥ (λ a j. (a ≡ start_answer (V.meaning lent.now.versions.now) name.bytes (start_end end)) × (j ≡ i)) (decided result) i }
{
    match end {
        StartEnd::Done { target } => Ok(Reply {
            code: 201,
            text: texts.swap_remove(target as usize),
        }),
        StartEnd::AlreadyExists => Err(Refused {
            refusal: Refusal::AlreadyExists { name },
        }),
        StartEnd::Running { name: other } => {
            let name = other.name(lent.alloc)?;
            Err(Refused {
                refusal: Refusal::MigrationRunning { name },
            })
        }
        StartEnd::Full(room) => Err(Refused {
            refusal: Refusal::Full { room },
        }),
    }
}
