//! The keywords of a schema document.
ghost use Rattle.std.specs.Prelude.{◌≡◌, option_map};
ghost use Rattle.schema_reading.specs.Words.{word, spelled, keyword_named, meta_type, passed_type, limit_word};

use struct_schema::NodeKind;

/// A keyword that a schema may have.
#[derive(Clone, Copy, Drop)]
pub(crate) enum Keyword {
    Additional,
    AnyOf,
    Default,
    Description,
    Enum,
    Example,
    ExternalDocs,
    Format,
    Items,
    MaxItems,
    MaxLength,
    Maximum,
    MinItems,
    MinLength,
    Minimum,
    Nullable,
    Properties,
    Required,
    Title,
    Kind,
    IntOrString,
    Preserve,
}

/// What the names of an object are read as: the keywords of a node of some kind, or those of a name that
/// every object has.
#[derive(Clone, Copy, Drop)]
pub(crate) enum Scope {
    Node(Option<NodeKind>),
    Meta,
}

/// Names by their place among the keywords that are tried by themselves.
#[derive(Clone, Copy, Drop)]
pub(crate) enum Part {
    BeforeAdditional,
    BeforeItems,
    BeforeType,
    AfterType,
    AnyBeforeType,
}

const KEYWORDS: [Keyword; 22] = [
    Keyword::Additional,
    Keyword::AnyOf,
    Keyword::Default,
    Keyword::Description,
    Keyword::Enum,
    Keyword::Example,
    Keyword::ExternalDocs,
    Keyword::Format,
    Keyword::Items,
    Keyword::MaxItems,
    Keyword::MaxLength,
    Keyword::Maximum,
    Keyword::MinItems,
    Keyword::MinLength,
    Keyword::Minimum,
    Keyword::Nullable,
    Keyword::Properties,
    Keyword::Required,
    Keyword::Title,
    Keyword::Kind,
    Keyword::IntOrString,
    Keyword::Preserve,
];

impl Keyword {
    // How the keyword is spelled.
    #[tactic(auto, unfolding(crate::specs::Words::word))]
    pub(crate) fn word(self) -> &'static str
        ensures { result.now ≡ word self }
    {
        match self {
            Keyword::Additional => "additionalProperties",
            Keyword::AnyOf => "anyOf",
            Keyword::Default => "default",
            Keyword::Description => "description",
            Keyword::Enum => "enum",
            Keyword::Example => "example",
            Keyword::ExternalDocs => "externalDocs",
            Keyword::Format => "format",
            Keyword::Items => "items",
            Keyword::MaxItems => "maxItems",
            Keyword::MaxLength => "maxLength",
            Keyword::Maximum => "maximum",
            Keyword::MinItems => "minItems",
            Keyword::MinLength => "minLength",
            Keyword::Minimum => "minimum",
            Keyword::Nullable => "nullable",
            Keyword::Properties => "properties",
            Keyword::Required => "required",
            Keyword::Title => "title",
            Keyword::Kind => "type",
            Keyword::IntOrString => "x-kubernetes-int-or-string",
            Keyword::Preserve => "x-kubernetes-preserve-unknown-fields",
        }
    }
}

// The one among some keywords that is spelled so.
fn spelled(among: &[Keyword], name: &str) -> Option<Keyword>
    ensures { result ≡ spelled among.now name.now }
{
    for keyword in among {
        if name == keyword.word() {
            return Some(*keyword);
        }
    }
    None
}

// The keyword that is spelled so.
#[tactic(auto, unfolding(crate::specs::Words::keyword_named))]
pub(crate) fn keyword_named(name: &str) -> Option<Keyword>
    ensures { result ≡ keyword_named name.now }
{
    spelled(&KEYWORDS, name)
}

// What is refused where a node is too deep, or one too many.
#[tactic(auto, unfolding(crate::specs::Words::limit_word))]
pub(crate) fn limit_word() -> &'static str
    ensures { result.now ≡ limit_word }
{
    "Limit"
}

// The type of a name that every object has.
#[tactic(auto, unfolding(crate::specs::Words::meta_type))]
fn meta_type(name: &str) -> Option<&'static str>
    ensures { option_map (λ t. t.now) result ≡ meta_type name.now }
{
    if name == "apiVersion" {
        return Some("string");
    }
    if name == "kind" {
        return Some("string");
    }
    if name == "metadata" {
        return Some("object");
    }
    None
}

// The type of a name that the root passes over.
pub(crate) fn passed_type(root: bool, name: &str) -> Option<&'static str>
    ensures { option_map (λ t. t.now) result ≡ passed_type root name.now }
{
    if root { meta_type(name) } else { None }
}
