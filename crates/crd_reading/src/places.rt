//! The places of a definition, and the table of the names of each object.
ghost use Rattle.std.specs.Prelude.{◌≡◌};
ghost use Rattle.crd_reading.specs.Table.{rows, has_names, has_items, other_place, place_at, place_in};

use crate::words::Word;

/// The fewest versions of a definition: a hub and a spoke.
pub const MIN_VERSIONS: usize = 2;

/// The most versions of a definition.
pub const MAX_VERSIONS: usize = 8;

/// The most bytes of a kind.
pub const KIND_BYTES: usize = 63;

// What stands at a place of a definition.
#[derive(Clone, Copy, Drop)]
pub(crate) enum Place {
    Document,
    MetadataObject,
    SpecObject,
    NamesObject,
    VersionList,
    VersionObject,
    SchemaObject,
    ApiVersionText,
    KindText,
    ScopeText,
    // Any text.
    AnyText,
    // A subdomain name.
    NameText,
    // A label, as a namespace is.
    LabelText,
    KindName,
    Truth,
    // The truth value false.
    Never,
    AnyObject,
    // Any value: it is passed over.
    Any,
    // No value: the name is unknown.
    Nowhere,
}

// A name of an object, whether it must be there, and the place of its value.
#[derive(Clone, Copy, Drop)]
pub(crate) struct Row {
    pub(crate) named: Word,
    pub(crate) required: bool,
    pub(crate) place: Place,
}

const DOCUMENT: [Row; 5] = [
    Row {
        named: Word::ApiVersion,
        required: true,
        place: Place::ApiVersionText,
    },
    Row {
        named: Word::Kind,
        required: true,
        place: Place::KindText,
    },
    Row {
        named: Word::Metadata,
        required: true,
        place: Place::MetadataObject,
    },
    Row {
        named: Word::Spec,
        required: true,
        place: Place::SpecObject,
    },
    Row {
        named: Word::Status,
        required: false,
        place: Place::Any,
    },
];

const METADATA: [Row; 1] = [Row {
    named: Word::Name,
    required: true,
    place: Place::AnyText,
}];

const SPEC: [Row; 6] = [
    Row {
        named: Word::Conversion,
        required: false,
        place: Place::Any,
    },
    Row {
        named: Word::Group,
        required: true,
        place: Place::NameText,
    },
    Row {
        named: Word::Names,
        required: true,
        place: Place::NamesObject,
    },
    Row {
        named: Word::PreserveUnknownFields,
        required: false,
        place: Place::Never,
    },
    Row {
        named: Word::Scope,
        required: true,
        place: Place::ScopeText,
    },
    Row {
        named: Word::Versions,
        required: true,
        place: Place::VersionList,
    },
];

const NAMES: [Row; 6] = [
    Row {
        named: Word::Categories,
        required: false,
        place: Place::Any,
    },
    Row {
        named: Word::Kind,
        required: true,
        place: Place::KindName,
    },
    Row {
        named: Word::ListKind,
        required: false,
        place: Place::KindName,
    },
    Row {
        named: Word::Plural,
        required: true,
        place: Place::LabelText,
    },
    Row {
        named: Word::ShortNames,
        required: false,
        place: Place::Any,
    },
    Row {
        named: Word::Singular,
        required: false,
        place: Place::Any,
    },
];

const VERSION: [Row; 6] = [
    Row {
        named: Word::PrinterColumns,
        required: false,
        place: Place::Any,
    },
    Row {
        named: Word::Deprecated,
        required: false,
        place: Place::Never,
    },
    Row {
        named: Word::Name,
        required: true,
        place: Place::LabelText,
    },
    Row {
        named: Word::Schema,
        required: true,
        place: Place::SchemaObject,
    },
    Row {
        named: Word::Served,
        required: true,
        place: Place::Truth,
    },
    Row {
        named: Word::Storage,
        required: true,
        place: Place::Truth,
    },
];

const SCHEMA: [Row; 1] = [Row {
    named: Word::OpenApi,
    required: true,
    place: Place::AnyObject,
}];

impl Place {
    // The names that an object at the place may have, but for others.
    pub(crate) fn rows(self) -> &'static [Row]
        ensures { result.now ≡ rows self }
    {
        match self {
            Place::Document => &DOCUMENT,
            Place::MetadataObject => &METADATA,
            Place::SpecObject => &SPEC,
            Place::NamesObject => &NAMES,
            Place::VersionList => &[],
            Place::VersionObject => &VERSION,
            Place::SchemaObject => &SCHEMA,
            Place::ApiVersionText => &[],
            Place::KindText => &[],
            Place::ScopeText => &[],
            Place::AnyText => &[],
            Place::NameText => &[],
            Place::LabelText => &[],
            Place::KindName => &[],
            Place::Truth => &[],
            Place::Never => &[],
            Place::AnyObject => &[],
            Place::Any => &[],
            Place::Nowhere => &[],
        }
    }

    // Whether the names of the object there are looked at.
    pub(crate) fn has_names(self) -> bool
        ensures { result ≡ has_names self }
    {
        match self {
            Place::Document => true,
            Place::MetadataObject => true,
            Place::SpecObject => true,
            Place::NamesObject => true,
            Place::VersionList => false,
            Place::VersionObject => true,
            Place::SchemaObject => true,
            Place::ApiVersionText => false,
            Place::KindText => false,
            Place::ScopeText => false,
            Place::AnyText => false,
            Place::NameText => false,
            Place::LabelText => false,
            Place::KindName => false,
            Place::Truth => false,
            Place::Never => false,
            Place::AnyObject => false,
            Place::Any => false,
            Place::Nowhere => false,
        }
    }

    // Whether the items of the list there are looked at.
    pub(crate) fn has_items(self) -> bool
        ensures { result ≡ has_items self }
    {
        match self {
            Place::Document => false,
            Place::MetadataObject => false,
            Place::SpecObject => false,
            Place::NamesObject => false,
            Place::VersionList => true,
            Place::VersionObject => false,
            Place::SchemaObject => false,
            Place::ApiVersionText => false,
            Place::KindText => false,
            Place::ScopeText => false,
            Place::AnyText => false,
            Place::NameText => false,
            Place::LabelText => false,
            Place::KindName => false,
            Place::Truth => false,
            Place::Never => false,
            Place::AnyObject => false,
            Place::Any => false,
            Place::Nowhere => false,
        }
    }

    // The place of a name that the table doesn't have.
    fn other(self) -> Place
        ensures { result ≡ other_place self }
    {
        match self {
            Place::Document => Place::Nowhere,
            Place::MetadataObject => Place::Any,
            Place::SpecObject => Place::Nowhere,
            Place::NamesObject => Place::Nowhere,
            Place::VersionList => Place::Nowhere,
            Place::VersionObject => Place::Nowhere,
            Place::SchemaObject => Place::Nowhere,
            Place::ApiVersionText => Place::Nowhere,
            Place::KindText => Place::Nowhere,
            Place::ScopeText => Place::Nowhere,
            Place::AnyText => Place::Nowhere,
            Place::NameText => Place::Nowhere,
            Place::LabelText => Place::Nowhere,
            Place::KindName => Place::Nowhere,
            Place::Truth => Place::Nowhere,
            Place::Never => Place::Nowhere,
            Place::AnyObject => Place::Nowhere,
            Place::Any => Place::Nowhere,
            Place::Nowhere => Place::Nowhere,
        }
    }

    // The place of the value at a name of an object there.
    pub(crate) fn at(self, name: &str) -> Place
        ensures { result ≡ place_in self name.now }
    {
        place_at(name, self.rows(), self.other())
    }
}

fn place_at(name: &str, rows: &[Row], other: Place) -> Place
    ensures { result ≡ place_at name.now rows.now other }
{
    for row in rows {
        if name == row.named.text() {
            return row.place;
        }
    }
    other
}
