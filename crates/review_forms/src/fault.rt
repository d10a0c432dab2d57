//! Why a review, a response or an exchange has no result.
use edge_io::LinkFault;
use kj_value::{NoMemory, Txt};

/// Why a review has no answer.
#[derive(Drop)]
pub enum ReviewFault {
    /// It isn't read at 67 levels, or something else stands at the path; the path is empty for the whole.
    NotReview { path: Txt },
    /// Memory was wanted and there was none, or what is written would be longer than its limit.
    NoMemory,
}

impl From<NoMemory> for ReviewFault {
    ghost use Rattle.std.specs.Prelude.{◌≡◌};
    ghost use Rattle.review_forms.specs.declared.fault.ReviewFault.TheVariants as fault;

    ghost from_gives = { λ _ e. e ≡ fault.NoMemory };

    fn from(_refused: NoMemory) -> ReviewFault {
        ReviewFault::NoMemory
    }
}

/// Why nothing is taken of a response, the first of these that holds.
#[derive(Drop)]
pub enum ResponseFault {
    /// It isn't read at 67 levels, or something else stands at the path; the path is empty for the whole.
    NotReview { path: Txt },
    /// The response is one to another request.
    WrongUid,
    /// The other side failed, and says why; the message is empty where it is absent or no text.
    RemoteFailed { message: Txt },
    /// There are more or fewer objects than were sent.
    WrongCount { want: u64, got: u64 },
    /// The first object, counted from 0, that isn't of the wanted version.
    WrongVersion { index: u64 },
    /// The first object, counted from 0, whose kind, name, namespace or uid isn't the one that was sent.
    ChangedIdentity { index: u64 },
    /// Memory was wanted and there was none.
    NoMemory,
}

impl From<NoMemory> for ResponseFault {
    ghost use Rattle.std.specs.Prelude.{◌≡◌};
    ghost use Rattle.review_forms.specs.declared.fault.ResponseFault.TheVariants as fault;

    ghost from_gives = { λ _ e. e ≡ fault.NoMemory };

    fn from(_refused: NoMemory) -> ResponseFault {
        ResponseFault::NoMemory
    }
}

/// Why a question has no answer that is taken.
#[derive(Drop)]
pub enum AskFault {
    /// The link failed: its count of faults rose.
    LinkFault,
    /// The response is refused.
    Response(ResponseFault),
    /// Memory was wanted and there was none, before the exchange or behind it.
    NoMemory,
}

impl From<NoMemory> for AskFault {
    ghost use Rattle.std.specs.Prelude.{◌≡◌};
    ghost use Rattle.review_forms.specs.declared.fault.AskFault.TheVariants as fault;

    ghost from_gives = { λ _ e. e ≡ fault.NoMemory };

    fn from(_refused: NoMemory) -> AskFault {
        AskFault::NoMemory
    }
}

impl From<ReviewFault> for ResponseFault {
    ghost use Rattle.std.specs.Prelude.{◌≡◌};
    ghost use Rattle.review_forms.specs.Told.{response_fault_of};

    ghost from_gives = { λ f e. e ≡ response_fault_of f };

    fn from(fault: ReviewFault) -> ResponseFault {
        match fault {
            ReviewFault::NotReview { path } => ResponseFault::NotReview { path },
            ReviewFault::NoMemory => ResponseFault::NoMemory,
        }
    }
}
