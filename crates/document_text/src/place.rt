//! Where the metadata of a document stand in its text.
ghost use Rattle.std.specs.Prelude.{◌≡◌};
ghost use Rattle.document_text.specs.Numbered.{IsParted, inside_metadata};
ghost use Rattle.kj_value.specs.Fields.{Pairs};

use crate::ends::ending;

/// The bytes behind the brace that opens the metadata, of the fields of a document.
pub(crate) fn metadata_of(fields: &[u8]) -> &[u8]
    requires { (es : Pairs) × (os : Pairs) × (fs : Pairs) × IsParted es os fs fields.now }
    ensures { (es os fs : Pairs) → IsParted es os fs fields.now → result.now ≡ inside_metadata os fs }
{
    let mut left = fields;
    while !left.is_empty() {
        if let Some(inside) = left.strip_prefix(b"\"metadata\":{") {
            return inside;
        }
        match ending(left, true).split_first() {
            Some((_, more)) => left = more,
            None => unreachable!(),
        }
    }
    unreachable!()
}
