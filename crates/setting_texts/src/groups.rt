//! The group, with the versions that are served.
ghost use Rattle.std.specs.Prelude.{◌≡◌, ◌<◌, ◌≤◌, ◌∷◌, [], ℕ, List, IfOk, None, OnOk, length, if◌then◌else◌, string_bytes};
ghost use Rattle.kj_value.specs.Text.{text_of};
ghost use Rattle.api_calls.specs.Calls.{group};
ghost use Rattle.api_calls.specs.Documents.{AreOffered, group_document};
ghost use Rattle.api_calls.specs.Legal.{Each};
ghost use Rattle.api_calls.specs.Replies.{GroupReply};
ghost use Rattle.api_calls.specs.State.{State, served};
ghost use Rattle.api_calls.specs.Versions.{AreFlags};
ghost use Rattle.call_texts.specs.Told.{Came, decided};
ghost use Rattle.setting_texts.specs.inner.Offered.{rank_of, ranked_with};
ghost use Rattle.call_texts.specs.PageTexts.{Adds, joined_from};
ghost use Rattle.setting_texts.specs.inner.SettingTexts.{member_text};

use api_calls::{Flags, Reply, Versions, is_served, priority, priority_total};
use call_texts::{Context, Refused, add, comma_before, group_version, quoted};
use kj_value::{NoMemory, Txt};
use std::alloc::Global;

// How many of the versions are to be preferred to one, before the first that isn't.
fn rank_of<V: Versions>(versions: &V, v: u8, ranked: &[u8]) -> usize
    requires known { v < (V.meaning versions.now).count }
    requires ranked { Each (λ w. w < (V.meaning versions.now).count) ranked.now }
    ensures rank { result ≡ rank_of (V.meaning versions.now) v ranked.now }
    ensures within { result ≤ length ranked.now }
{
    let name = versions.name(v).as_str();
    for i in 0..ranked.len() {
        if !priority(name, versions.name(ranked[i]).as_str()).is_gt() {
            return i;
        }
    }
    ranked.len()
}

// Puts a version at its rank, if it is served.
fn add_served<V: Versions>(
    versions: &V,
    flags: &Flags,
    v: u8,
    ranked: &mut Vec<u8>,
) -> Result<(), NoMemory>
    requires known { v < (V.meaning versions.now).count }
    requires ranked { Each (λ w. w < (V.meaning versions.now).count) ranked.old.items }
    ensures { OnOk result (ranked.new.items ≡ (if served flags.now v then ranked_with (V.meaning versions.now) v ranked.old.items else ranked.old.items)) }
{
    if !is_served(flags, v) {
        return Ok(());
    }
    let rank = rank_of(versions, v, ranked.as_slice());
    ranked.insert(rank, v)?;
    Ok(())
}

// The served versions, the one to be preferred first.
fn offered<V: Versions>(alloc: Global, versions: &V, flags: &Flags) -> Result<Vec<u8>, NoMemory>
    ensures { IfOk result (λ vs. AreOffered (V.meaning versions.now) flags.now vs.items) }
{
    // Asked for what its clause says: the priority is a total order.
    priority_total();
    let mut ranked = Vec::new(alloc);
    for v in 0..versions.count() {
        add_served(versions, flags, v, &mut ranked)?;
    }
    Ok(ranked)
}

fn first_of(versions: &[u8]) -> u8
    requires { 0 < length versions.now }
    ensures { (v : ℕ) (vs : List ℕ) → versions.now ≡ v ∷ vs → result ≡ v }
{
    versions[0]
}

// Adds a version as the group tells it.
fn add_member<V: Versions>(lent: &Context<'_, V>, v: u8, text: &mut String) -> Result<(), NoMemory>
    requires { v < (V.meaning lent.now.versions.now).count }
    ensures { OnOk result (Adds (string_bytes text.old) (member_text (V.meaning lent.now.versions.now) v) (string_bytes text.new)) }
{
    let version = group_version(lent.alloc, lent.versions, v)?;
    let name = quoted(lent.alloc, lent.versions.name(v).as_str())?;
    add(text, "{\"groupVersion\":")?;
    add(text, version.as_str())?;
    add(text, ",\"version\":")?;
    add(text, name.as_str())?;
    add(text, "}")?;
    Ok(())
}

// Adds versions, with commas between.
fn add_members<V: Versions>(
    lent: &Context<'_, V>,
    versions: &[u8],
    text: &mut String,
) -> Result<(), NoMemory>
    requires { Each (λ v. v < (V.meaning lent.now.versions.now).count) versions.now }
    ensures { OnOk result (Adds (string_bytes text.old) (joined_from (member_text (V.meaning lent.now.versions.now)) 0 versions.now) (string_bytes text.new)) }
{
    for i in 0..versions.len() {
        add(text, comma_before(i))?;
        add_member(lent, versions[i], text)?;
    }
    Ok(())
}

// The text of the group with these versions, of which the first is to be preferred.
fn group_text<V: Versions>(lent: &Context<'_, V>, versions: &[u8]) -> Result<Txt, NoMemory>
    requires known { Each (λ v. v < (V.meaning lent.now.versions.now).count) versions.now }
    requires some { 0 < length versions.now }
    ensures { IfOk result (λ t. (v : ℕ) (vs : List ℕ) → versions.now ≡ v ∷ vs
        → t.bytes ≡ text_of (group_document (V.meaning lent.now.versions.now) v vs)) }
{
    let group = quoted(lent.alloc, lent.versions.group().as_str())?;
    let mut text = String::new(lent.alloc);
    add(
        &mut text,
        "{\"apiVersion\":\"v1\",\"kind\":\"APIGroup\",\"name\":",
    )?;
    add(&mut text, group.as_str())?;
    add(&mut text, ",\"preferredVersion\":")?;
    add_member(lent, first_of(versions), &mut text)?;
    add(&mut text, ",\"versions\":[")?;
    add_members(lent, versions, &mut text)?;
    add(&mut text, "]}")?;
    Ok(Txt::of_string(text))
}

/// The reply that shows the group with the versions that are served.
pub fn group<V: Versions>(lent: &Context<'_, V>, flags: &Flags) -> Result<Reply, Refused>
    requires { AreFlags (V.meaning lent.now.versions.now).count flags.now }
    ensures { (s : State) → flags.now ≡ s.flags → Came ⊥ (GroupReply (V.meaning lent.now.versions.now) s) (decided result) None }
{
    let offered = offered(lent.alloc, lent.versions, flags)?;
    let text = group_text(lent, offered.as_slice())?;
    Ok(Reply { code: 200, text })
}
