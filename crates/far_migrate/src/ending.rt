//! What the end of a call comes to.
ghost use Rattle.far_migrate.specs.inner.Ends.{PutEnds, GetEnds, ListEnds};

use crate::tally::FarFault;
use wire_client::WireEnd;

/// 409 (RFC 9110, section 15.5.10): the object has changed.
pub(crate) const CONFLICT: u16 = 409;

/// 410 (RFC 9110, section 15.5.11): the token of a list is too old.
pub(crate) const EXPIRED: u16 = 410;

/// 404 (RFC 9110, section 15.5.5).
const NOT_FOUND: u16 = 404;

/// Another form, order or length.
pub(crate) const OTHER: FarFault = FarFault::Answer { code: 0 };

/// What became of a put that gave no object.
#[derive(Clone, Copy, Drop)]
pub(crate) enum Refused {
    Gone,
    Conflict,
    Fault(FarFault),
}

/// What the end of a put comes to.
pub(crate) fn put_end(end: WireEnd) -> Refused
    ensures { PutEnds end result }
{
    match end {
        WireEnd::Gone => Refused::Gone,
        WireEnd::LinkFault => Refused::Fault(FarFault::LinkFault),
        WireEnd::TooLong => Refused::Fault(OTHER),
        WireEnd::Code { code } => {
            if code == CONFLICT {
                return Refused::Conflict;
            }
            Refused::Fault(FarFault::Answer { code })
        }
        WireEnd::Shape { path: _ } => Refused::Fault(OTHER),
        WireEnd::NoMemory => Refused::Fault(FarFault::NoMemory),
    }
}

/// What became of a get that gave no object.
#[derive(Clone, Copy, Drop)]
pub(crate) enum Ungot {
    Gone,
    Fault(FarFault),
}

/// What the end of a get comes to.
pub(crate) fn get_end(end: WireEnd) -> Ungot
    ensures { GetEnds end result }
{
    match end {
        WireEnd::Gone => Ungot::Gone,
        WireEnd::LinkFault => Ungot::Fault(FarFault::LinkFault),
        WireEnd::TooLong => Ungot::Fault(OTHER),
        WireEnd::Code { code } => Ungot::Fault(FarFault::Answer { code }),
        WireEnd::Shape { path: _ } => Ungot::Fault(OTHER),
        WireEnd::NoMemory => Ungot::Fault(FarFault::NoMemory),
    }
}

/// What became of a list that gave no page.
#[derive(Clone, Copy, Drop)]
pub(crate) enum Unlisted {
    TooLong,
    Expired,
    Fault(FarFault),
}

/// What the end of a list comes to.
pub(crate) fn list_end(end: WireEnd) -> Unlisted
    ensures { ListEnds end result }
{
    match end {
        WireEnd::TooLong => Unlisted::TooLong,
        WireEnd::LinkFault => Unlisted::Fault(FarFault::LinkFault),
        WireEnd::Gone => Unlisted::Fault(FarFault::Answer { code: NOT_FOUND }),
        WireEnd::Code { code } => {
            if code == EXPIRED {
                return Unlisted::Expired;
            }
            Unlisted::Fault(FarFault::Answer { code })
        }
        WireEnd::Shape { path: _ } => Unlisted::Fault(OTHER),
        WireEnd::NoMemory => Unlisted::Fault(FarFault::NoMemory),
    }
}
