//! The rule of the table.
use crate::standing::Standing;
use crate::view::View;
use atomic_table::TableRule;
use std::snapshot::Snapshot;

pub struct Law;

impl<T: Standing> TableRule<Option<T>, View<T::Base>, Snapshot<T>> for Law {
    ghost use Rattle.turn_cell.specs.Rule.{Kept};
    ghost use Rattle.turn_cell.specs.Views.{opening_view};

    ghost holds = { λ _. Kept T.stands T.base };

    ghost first = { λ key. opening_view (T.base key.value) };
}
