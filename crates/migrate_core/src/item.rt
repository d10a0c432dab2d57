//! A migration, and lists of migrations.
ghost use Rattle.std.specs.Prelude.{◌≡◌, ◌≤◌, length, IfOk};
ghost use Rattle.kube_meta.specs.Plan.{runs};

use kj_value::{NoMemory, Txt};
use kube_meta::{Condition, NAME_BYTES};
use std::alloc::Global;
use std::marker::Model;

/// A storage migration: its name, the version that objects are moved to, and how it stands.
pub struct MigrationItem {
    name: Txt,
    target: u8,
    condition: Condition,
}

impl Drop for MigrationItem {
    fn drop(self) {
        let MigrationItem {
            name: _,
            target: _,
            condition: _,
        } = self;
    }
}

impl Model for MigrationItem {
    ghost use Rattle.std.specs.Prelude.{◌≤◌, length};
    ghost use Rattle.kube_meta.specs.declared.key.TheConstants.{NAME_BYTES};
    ghost use Rattle.kube_meta.specs.Plan.{Migration};

    ghost Value = { Migration };

    ghost view = { λ m. record { name = m.name.bytes; target = m.target; condition = m.condition } };

    ghost invariant = { λ m. length m.name.bytes ≤ NAME_BYTES };
}

impl MigrationItem {
    pub(crate) fn of(name: Txt, target: u8, condition: Condition) -> MigrationItem
        requires { length name.bytes ≤ NAME_BYTES }
        ensures { result ≡ record { name = name.bytes; target = target; condition = condition } }
    {
        MigrationItem {
            name,
            target,
            condition,
        }
    }

    /// The name, lent.
    pub fn name(&self) -> &str
        ensures value { result.now ≡ self.now.name }
        ensures fits { length self.now.name ≤ NAME_BYTES }
    {
        self.name.as_str()
    }

    /// The version that objects are moved to, by its place.
    pub fn target(&self) -> u8
        ensures { result ≡ self.now.target }
    {
        self.target
    }

    /// How it stands.
    pub fn condition(&self) -> Condition
        ensures { result ≡ self.now.condition }
    {
        self.condition
    }

    /// Whether it runs.
    pub(crate) fn runs(&self) -> bool
        ensures { result ≡ runs self.now.condition }
    {
        matches!(self.condition, Condition::Running)
    }

    /// How it stands from now on.
    pub(crate) fn set_condition(&mut self, condition: Condition)
        ensures { self.new ≡ record self.old { condition = condition } }
    {
        self.condition = condition;
    }

    /// A copy.
    fn copy(&self, alloc: Global) -> Result<MigrationItem, NoMemory>
        ensures { IfOk result (λ m. m ≡ self.now) }
    {
        let name = Txt::of(alloc, self.name())?;
        Ok(MigrationItem::of(name, self.target, self.condition))
    }
}

/// Migrations in the order of their starts.
pub struct MigrationItems {
    items: Vec<MigrationItem>,
}

impl Drop for MigrationItems {
    fn drop(self) {
        let MigrationItems { items: _ } = self;
    }
}

impl Model for MigrationItems {
    ghost use Rattle.std.specs.Prelude.{List};
    ghost use Rattle.kube_meta.specs.Plan.{Migration};

    ghost Value = { List Migration };

    ghost view = { λ a. a.items.items };
}

impl MigrationItems {
    pub(crate) fn of(alloc: Global, items: &[MigrationItem]) -> Result<MigrationItems, NoMemory>
        ensures { IfOk result (λ a. a ≡ items.now) }
    {
        let mut copies = Vec::with_capacity(alloc, items.len())?;
        for item in items {
            copies.push(item.copy(alloc)?)?;
        }
        Ok(MigrationItems { items: copies })
    }

    /// How many there are.
    pub fn len(&self) -> usize
        ensures { result ≡ length self.now }
    {
        self.items.len()
    }

    /// The migrations, lent.
    pub fn as_slice(&self) -> &[MigrationItem]
        ensures { result.now ≡ self.now }
    {
        self.items.as_slice()
    }

    /// The migrations, to be moved out of the list.
    pub fn into_vec(self) -> Vec<MigrationItem>
        ensures { result.items ≡ self }
    {
        let MigrationItems { items } = self;
        items
    }
}
