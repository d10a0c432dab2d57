//! Storage migrations, as they are shown.
ghost use Rattle.std.specs.Prelude.{◌≡◌, ◌<◌, [], IfOk, None, OnOk, string_bytes};
ghost use Rattle.kj_value.specs.Text.{text_of};
ghost use Rattle.api_calls.specs.Calls.{migration, migrations};
ghost use Rattle.api_calls.specs.Documents.{by_name, condition_word, migration_document, migration_list};
ghost use Rattle.api_calls.specs.Replies.{MigrationReply, MigrationsReply};
ghost use Rattle.api_calls.specs.State.{State};
ghost use Rattle.call_texts.specs.Told.{Came, decided};
ghost use Rattle.setting_texts.specs.Migrating.{HaveTargets};
ghost use Rattle.call_texts.specs.PageTexts.{Adds, joined_from};
ghost use Rattle.setting_texts.specs.inner.SettingTexts.{migration_text, resource_text, target_text, untargeted_text};

use api_calls::{Refusal, Reply, Versions};
use call_texts::{Context, Refused, add, comma_before, quoted};
use kj_value::{NoMemory, Txt};
use kube_meta::Condition;
use migrate_core::{MigrationItem, MigrationItems, named};

#[tactic(auto, unfolding(api_calls::specs::Documents::condition_word))]
fn condition_word(condition: Condition) -> &'static str
    ensures { result.now ≡ condition_word condition }
{
    match condition {
        Condition::Running => "Running",
        Condition::Succeeded => "Succeeded",
        Condition::Failed => "Failed",
    }
}

// Puts migrations in the order of their names.
fn sort(items: &mut Vec<MigrationItem>) -> Result<(), NoMemory>
    ensures { OnOk result (items.new.items ≡ by_name items.old.items) }
{
    items.sort_by(|a, b| a.name().cmp(b.name()))?;
    Ok(())
}

// What stands between the name and the condition of each migration.
pub(crate) fn resource_text<V: Versions>(lent: &Context<'_, V>) -> Result<Txt, NoMemory>
    ensures { IfOk result (λ t. t.bytes ≡ resource_text (V.meaning lent.now.versions.now)) }
{
    let group = quoted(lent.alloc, lent.versions.group().as_str())?;
    let plural = quoted(lent.alloc, lent.versions.plural().as_str())?;
    let mut text = String::new(lent.alloc);
    add(&mut text, "},\"spec\":{\"resource\":{\"group\":")?;
    add(&mut text, group.as_str())?;
    add(&mut text, ",\"resource\":")?;
    add(&mut text, plural.as_str())?;
    add(
        &mut text,
        "}},\"status\":{\"conditions\":[{\"status\":\"True\",\"type\":\"",
    )?;
    Ok(Txt::of_string(text))
}

// Adds the document of a migration up to its target, given what stands between its name and its condition.
pub(crate) fn add_untargeted<V: Versions>(
    lent: &Context<'_, V>,
    resource: &str,
    name: &str,
    condition: Condition,
    text: &mut String,
) -> Result<(), NoMemory>
    requires resource { resource.now ≡ resource_text (V.meaning lent.now.versions.now) }
    ensures { OnOk result (Adds (string_bytes text.old) (untargeted_text (V.meaning lent.now.versions.now) name.now condition) (string_bytes text.new)) }
{
    let name = quoted(lent.alloc, name)?;
    add(
        text,
        "{\"apiVersion\":\"storagemigration.k8s.io/v1alpha1\",\"kind\":\"StorageVersionMigration\",\"metadata\":{\"name\":",
    )?;
    add(text, name.as_str())?;
    add(text, resource)?;
    add(text, condition_word(condition))?;
    add(text, "\"}],\"storageVersion\":")?;
    Ok(())
}

// Adds the target of a migration, and the end of its document.
pub(crate) fn add_target<V: Versions>(
    lent: &Context<'_, V>,
    target: u8,
    text: &mut String,
) -> Result<(), NoMemory>
    requires { target < (V.meaning lent.now.versions.now).count }
    ensures { OnOk result (Adds (string_bytes text.old) (target_text (V.meaning lent.now.versions.now) target) (string_bytes text.new)) }
{
    let storage = quoted(lent.alloc, lent.versions.name(target).as_str())?;
    add(text, storage.as_str())?;
    add(text, "}}")?;
    Ok(())
}

// Adds the document of a migration, given what stands between its name and its condition.
fn add_migration<V: Versions>(
    lent: &Context<'_, V>,
    resource: &str,
    migration: &MigrationItem,
    text: &mut String,
) -> Result<(), NoMemory>
    requires resource { resource.now ≡ resource_text (V.meaning lent.now.versions.now) }
    requires known { migration.now.target < (V.meaning lent.now.versions.now).count }
    ensures { OnOk result (Adds (string_bytes text.old) (migration_text (V.meaning lent.now.versions.now) migration.now) (string_bytes text.new)) }
{
    add_untargeted(
        lent,
        resource,
        migration.name(),
        migration.condition(),
        text,
    )?;
    add_target(lent, migration.target(), text)?;
    Ok(())
}

// The text of a migration.
fn migration_text<V: Versions>(
    lent: &Context<'_, V>,
    migration: &MigrationItem,
) -> Result<Txt, NoMemory>
    requires { migration.now.target < (V.meaning lent.now.versions.now).count }
    ensures { IfOk result (λ t. t.bytes ≡ text_of (migration_document (V.meaning lent.now.versions.now) migration.now)) }
{
    let resource = resource_text(lent)?;
    let mut text = String::new(lent.alloc);
    add_migration(lent, resource.as_str(), migration, &mut text)?;
    Ok(Txt::of_string(text))
}

// Adds the documents of migrations, with commas between.
fn add_migrations<V: Versions>(
    lent: &Context<'_, V>,
    items: &[MigrationItem],
    text: &mut String,
) -> Result<(), NoMemory>
    requires { HaveTargets (V.meaning lent.now.versions.now) items.now }
    ensures { OnOk result (Adds (string_bytes text.old) (joined_from (migration_text (V.meaning lent.now.versions.now)) 0 items.now) (string_bytes text.new)) }
{
    let resource = resource_text(lent)?;
    for i in 0..items.len() {
        add(text, comma_before(i))?;
        add_migration(lent, resource.as_str(), &items[i], text)?;
    }
    Ok(())
}

// The text of a list of migrations.
fn migrations_text<V: Versions>(
    lent: &Context<'_, V>,
    items: MigrationItems,
) -> Result<Txt, NoMemory>
    requires { HaveTargets (V.meaning lent.now.versions.now) items }
    ensures { IfOk result (λ t. t.bytes ≡ text_of (migration_list (V.meaning lent.now.versions.now) items)) }
{
    let mut items = items.into_vec();
    sort(&mut items)?;
    let mut text = String::new(lent.alloc);
    add(
        &mut text,
        "{\"apiVersion\":\"storagemigration.k8s.io/v1alpha1\",\"items\":[",
    )?;
    add_migrations(lent, items.as_slice(), &mut text)?;
    add(
        &mut text,
        "],\"kind\":\"StorageVersionMigrationList\",\"metadata\":{}}",
    )?;
    Ok(Txt::of_string(text))
}

/// The reply that shows the migration of a name.
pub fn one_migration<V: Versions>(
    lent: &Context<'_, V>,
    name: &str,
    looked: Result<MigrationItems, NoMemory>,
) -> Result<Reply, Refused>
    requires { IfOk looked (λ qs. HaveTargets (V.meaning lent.now.versions.now) qs) }
    ensures { (s : State) → IfOk looked (λ qs. qs ≡ s.migrations)
        → Came ⊥ (MigrationReply (V.meaning lent.now.versions.now) s name.now) (decided result) None }
{
    let items = looked?;
    let Some(item) = named(items.as_slice(), name) else {
        let name = Txt::of(lent.alloc, name)?;
        return Err(Refused {
            refusal: Refusal::NotFound { name },
        });
    };
    let text = migration_text(lent, item)?;
    Ok(Reply { code: 200, text })
}

/// The reply that shows all migrations.
pub fn all_migrations<V: Versions>(
    lent: &Context<'_, V>,
    looked: Result<MigrationItems, NoMemory>,
) -> Result<Reply, Refused>
    requires { IfOk looked (λ qs. HaveTargets (V.meaning lent.now.versions.now) qs) }
    ensures { (s : State) → IfOk looked (λ qs. qs ≡ s.migrations)
        → Came ⊥ (MigrationsReply (V.meaning lent.now.versions.now) s) (decided result) None }
{
    let items = looked?;
    let text = migrations_text(lent, items)?;
    Ok(Reply { code: 200, text })
}
