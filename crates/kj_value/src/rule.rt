//! The rules that a document can break, each with its word.
ghost use Rattle.std.specs.Prelude.{◌≡◌};
ghost use Rattle.kj_value.specs.Rule.{rule_word};

/// A rule that a document breaks: a keyword of its schema, or what is asked of the document as a whole.
#[derive(Clone, Copy, PartialEq, Eq, Drop)]
pub enum Rule {
    /// `type` and `nullable`. Its word is `Type`.
    Kind,
    Enum,
    Minimum,
    Maximum,
    Format,
    MinLength,
    MaxLength,
    MinItems,
    MaxItems,
    Required,
    /// A name that is no name of an object.
    Name,
    /// A field that may not be given.
    Forbidden,
    /// A kept entry that isn't well formed.
    Kept,
    /// More bytes than an object may have.
    Size,
    /// A field that may not change.
    Immutable,
    /// Another number of storage versions than one.
    Storage,
    /// No version is served.
    Served,
    /// A name that nothing has.
    Unknown,
    /// Another value than the only one that may stand here.
    Wrong,
    /// An object that a converter can't turn.
    Converted,
}

impl Rule {
    /// The rule's word, as it stands in messages. It takes no memory.
    #[tactic(auto, unfolding(crate::specs::Rule::rule_word))]
    pub fn word(&self) -> &'static str
        ensures { result.now ≡ rule_word self.now }
    {
        match self {
            Rule::Kind => "Type",
            Rule::Enum => "Enum",
            Rule::Minimum => "Minimum",
            Rule::Maximum => "Maximum",
            Rule::Format => "Format",
            Rule::MinLength => "MinLength",
            Rule::MaxLength => "MaxLength",
            Rule::MinItems => "MinItems",
            Rule::MaxItems => "MaxItems",
            Rule::Required => "Required",
            Rule::Name => "Name",
            Rule::Forbidden => "Forbidden",
            Rule::Kept => "Kept",
            Rule::Size => "Size",
            Rule::Immutable => "Immutable",
            Rule::Storage => "Storage",
            Rule::Served => "Served",
            Rule::Unknown => "Unknown",
            Rule::Wrong => "Wrong",
            Rule::Converted => "Converted",
        }
    }
}
