//! The kinds of a schema's node, and the formats of its whole numbers.
ghost use Rattle.std.specs.Prelude.{◌≡◌};
ghost use Rattle.struct_schema.specs.KindLaws.{kind_number, format_number};
ghost use Rattle.struct_schema.specs.Filled.{is_object, is_array};

/// What a node asks of a value's kind: the keyword `type`, or one of the two nodes without it.
#[derive(Clone, Copy, PartialEq, Eq, Drop)]
pub enum NodeKind {
    /// `type: object`.
    Object,
    /// `type: array`.
    Array,
    /// `type: string`.
    Text,
    /// `type: integer`.
    Whole,
    /// `type: boolean`.
    Truth,
    /// `x-kubernetes-int-or-string: true`.
    IntOrText,
    /// `x-kubernetes-preserve-unknown-fields: true` and no `type`: any value.
    Any,
}

impl NodeKind {
    /// Whether the node asks for an object.
    pub fn is_object(self) -> bool
        ensures { result ≡ is_object self }
    {
        matches!(self, NodeKind::Object)
    }

    /// Whether the node asks for a list.
    pub fn is_array(self) -> bool
        ensures { result ≡ is_array self }
    {
        matches!(self, NodeKind::Array)
    }
}

/// The keyword `format` of a whole number.
#[derive(Clone, Copy, PartialEq, Eq, Drop)]
pub enum IntFormat {
    /// From -2,147,483,648 to 2,147,483,647.
    Int32,
    /// Any whole number that a value holds.
    Int64,
}

// A number for each kind.
pub(crate) fn kind_number(kind: NodeKind) -> u8
    ensures { result ≡ kind_number kind }
{
    match kind {
        NodeKind::Object => 0,
        NodeKind::Array => 1,
        NodeKind::Text => 2,
        NodeKind::Whole => 3,
        NodeKind::Truth => 4,
        NodeKind::IntOrText => 5,
        NodeKind::Any => 6,
    }
}

// A number for each format.
pub(crate) fn format_number(format: IntFormat) -> u8
    ensures { result ≡ format_number format }
{
    match format {
        IntFormat::Int32 => 0,
        IntFormat::Int64 => 1,
    }
}
