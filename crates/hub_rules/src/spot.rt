//! Where rules are refused, and why.
use hub_cells::Side;
use kj_value::Txt;

/// Why rules don't fit two schemas.
#[derive(Clone, Copy, Drop)]
pub enum Why {
    /// A name stands in two rules of a level on one side.
    NameTwice,
    /// A rule names what its schema doesn't have, or a name without a rule has no equal name without a
    /// rule on the other side.
    NameMissing,
    /// The schemas of two names don't go together.
    SchemaDiffers,
    /// A default has none that matches it on the other side.
    UnpairedDefault,
    /// The other side may lack what one side requires.
    RequiredLost,
    /// The other side's schema doesn't allow what goes over.
    RangeLost,
}

// A name of a level that is refused.
#[derive(Clone, Copy, Drop)]
pub(crate) struct Spot<'a> {
    pub(crate) side: Side,
    pub(crate) name: &'a Txt,
    pub(crate) why: Why,
}
