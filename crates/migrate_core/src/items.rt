//! Migrations by name and by condition.
ghost use Rattle.std.specs.Prelude.{◌≡◌, is_some};
ghost use Rattle.std.specs.Option.{option_copied};
ghost use Rattle.kube_meta.specs.Plan.{ended, named as migration_named, running as migration_running};

use crate::item::MigrationItem;
use kube_meta::Condition;

/// The migration that runs.
pub(crate) fn running(items: &[MigrationItem]) -> Option<&MigrationItem>
    ensures { option_copied result ≡ migration_running items.now }
{
    for item in items {
        if item.runs() {
            return Some(item);
        }
    }
    None
}

/// The migration of a name. It takes no memory.
pub fn named<'a>(items: &'a [MigrationItem], name: &str) -> Option<&'a MigrationItem>
    ensures { option_copied result ≡ migration_named name.now items.now }
{
    for item in items {
        if item.name() == name {
            return Some(item);
        }
    }
    None
}

/// Ends the migration that runs, and answers whether one did.
pub(crate) fn end(items: &mut [MigrationItem], condition: Condition) -> bool
    ensures items { items.new ≡ ended condition items.old }
    ensures was { result ≡ is_some (migration_running items.old) }
{
    let mut was = false;
    for item in items.iter_mut() {
        if item.runs() {
            item.set_condition(condition);
            was = true;
        }
    }
    was
}
