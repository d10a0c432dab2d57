//! What a call gives, and why it gives nothing.
use kj_value::{JItems, NoMemory, Txt};

/// A page of a list.
#[derive(Drop)]
pub struct ListPage {
    /// Objects, each of the place's version, with a namespace, a name and a number.
    pub items: JItems,
    /// That of the next page. It is empty where this is the last one.
    pub token: Txt,
    /// The number of the list.
    pub rv: u64,
}

/// Why a call gives nothing.
#[derive(Drop)]
pub enum WireEnd {
    /// The link failed: its count of faults has risen.
    LinkFault,
    /// The answer's body passes the most bytes that a client reads.
    TooLong,
    /// 404, with details: nothing of that name is there.
    Gone,
    /// Any other code than that of the call's success.
    Code { code: u16 },
    /// The bytes are no response, where the path is empty, or a success has another form, from that path on.
    Shape { path: Txt },
    /// Memory was wanted and there was none, before the exchange or once it was answered.
    NoMemory,
}

impl From<NoMemory> for WireEnd {
    ghost use Rattle.std.specs.Prelude.{◌≡◌};
    ghost use Rattle.wire_client.specs.declared.end.WireEnd.TheVariants as wire;

    ghost from_gives = { λ _ e. e ≡ wire.NoMemory };

    fn from(_refused: NoMemory) -> WireEnd {
        WireEnd::NoMemory
    }
}
