//! What each step on the table tells.
use crate::standing::{Names, Standing};
use crate::view::View;
use atomic_table::{Join, Play, Split};
use std::marker::PhantomData;

pub(crate) struct Draw;

impl<T, B> Play<Option<T>, View<B>> for Draw {
    ghost use Rattle.turn_cell.specs.Steps.{drew};

    ghost then = { drew };
}

pub(crate) struct See;

impl<T: Standing> Play<Option<T>, View<T::Base>> for See {
    ghost use Rattle.turn_cell.specs.Steps.{saw};

    ghost then = { saw T.stands T.base };
}

pub(crate) struct Append<E> {
    of: PhantomData<E>,
}

impl<T, B, E: Names> Play<Option<T>, View<B>> for Append<E> {
    ghost use Rattle.turn_cell.specs.Steps.{appended};

    ghost then = { appended E.item };
}

pub(crate) struct PassOn;

impl<T, B> Play<Option<T>, View<B>> for PassOn {
    ghost use Rattle.turn_cell.specs.Steps.{passed_on};

    ghost then = { passed_on };
}

pub(crate) struct Ring;

impl<T, B> Play<Option<T>, View<B>> for Ring {
    ghost use Rattle.turn_cell.specs.Steps.{rang};

    ghost then = { rang };
}

pub(crate) struct GetNumber;

impl<T, B> Play<Option<T>, View<B>> for GetNumber {
    ghost use Rattle.turn_cell.specs.Steps.{got_number};

    ghost then = { got_number };
}

pub(crate) struct Look;

impl<T, B> Play<Option<T>, View<B>> for Look {
    ghost use Rattle.turn_cell.specs.Steps.{looked};

    ghost then = { looked };
}

pub(crate) struct Halve;

impl<B> Split<View<B>> for Halve {
    ghost use Rattle.turn_cell.specs.Views.{halved, newcomer};

    ghost left = { halved };

    ghost right = { newcomer };
}

pub(crate) struct Unite;

impl<B> Join<View<B>> for Unite {
    ghost use Rattle.turn_cell.specs.Views.{meeting, spent_view};

    ghost both = { meeting };

    ghost spent = { spent_view };
}
