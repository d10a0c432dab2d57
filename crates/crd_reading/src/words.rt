//! The names that a definition has in its objects, and the words of refusals.
ghost use Rattle.std.specs.Prelude.{◌≡◌};
ghost use Rattle.crd_reading.specs.Words.{spelled, shape_word, unknown_word, api_version, document_kind, namespaced};

// A name in an object of a definition.
#[derive(Clone, Copy, Drop)]
pub(crate) enum Word {
    ApiVersion,
    Categories,
    Conversion,
    Deprecated,
    Group,
    Kind,
    ListKind,
    Metadata,
    Name,
    Names,
    OpenApi,
    Plural,
    PreserveUnknownFields,
    PrinterColumns,
    Schema,
    Scope,
    Served,
    ShortNames,
    Singular,
    Spec,
    Status,
    Storage,
    Versions,
}

impl Word {
    // How the name is spelled.
    #[tactic(auto, unfolding(crate::specs::Words::spelled))]
    pub(crate) fn text(self) -> &'static str
        ensures { result.now ≡ spelled self }
    {
        match self {
            Word::ApiVersion => "apiVersion",
            Word::Categories => "categories",
            Word::Conversion => "conversion",
            Word::Deprecated => "deprecated",
            Word::Group => "group",
            Word::Kind => "kind",
            Word::ListKind => "listKind",
            Word::Metadata => "metadata",
            Word::Name => "name",
            Word::Names => "names",
            Word::OpenApi => "openAPIV3Schema",
            Word::Plural => "plural",
            Word::PreserveUnknownFields => "preserveUnknownFields",
            Word::PrinterColumns => "additionalPrinterColumns",
            Word::Schema => "schema",
            Word::Scope => "scope",
            Word::Served => "served",
            Word::ShortNames => "shortNames",
            Word::Singular => "singular",
            Word::Spec => "spec",
            Word::Status => "status",
            Word::Storage => "storage",
            Word::Versions => "versions",
        }
    }
}

// A value that may not stand at its name, or a name that must be there and isn't.
#[tactic(auto, unfolding(crate::specs::Words::shape_word))]
pub(crate) fn shape_word() -> &'static str
    ensures { result.now ≡ shape_word }
{
    "Shape"
}

// A name that may not stand where it stands.
#[tactic(auto, unfolding(crate::specs::Words::unknown_word))]
pub(crate) fn unknown_word() -> &'static str
    ensures { result.now ≡ unknown_word }
{
    "Unknown"
}

#[tactic(auto, unfolding(crate::specs::Words::api_version))]
pub(crate) fn api_version() -> &'static str
    ensures { result.now ≡ api_version }
{
    "apiextensions.k8s.io/v1"
}

#[tactic(auto, unfolding(crate::specs::Words::document_kind))]
pub(crate) fn document_kind() -> &'static str
    ensures { result.now ≡ document_kind }
{
    "CustomResourceDefinition"
}

#[tactic(auto, unfolding(crate::specs::Words::namespaced))]
pub(crate) fn namespaced() -> &'static str
    ensures { result.now ≡ namespaced }
{
    "Namespaced"
}
