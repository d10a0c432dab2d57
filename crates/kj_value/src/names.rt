//! Look-ups by name.
ghost use Rattle.std.specs.Prelude.{◌≡◌, ◌≢◌, List, ℕ, map};
ghost use Rattle.std.specs.Bool.{MatchBool};
ghost use Rattle.std.specs.Ordering.{nat_cmp};
ghost use Rattle.std.specs.Cmp.Lexicographic.{slice_cmp};
ghost use Rattle.kj_value.specs.Fields.{NamesRise, place, seek};

use std::cmp::Ordering;

/// What stands at a name in an object, or in another list that is sorted by name.
pub trait Named {
    ghost name_of: { Self → List ℕ };

    /// The name. It takes no memory.
    fn name(&self) -> &str
        ensures { result.now ≡ name_of self.now };
}

/// Where the name stands among things whose names strictly rise by bytes, or else where it would go. It takes no memory.
pub fn seek<F: Named>(fields: &[F], name: &str) -> Result<usize, usize>
    requires { NamesRise (map F.Named.name_of fields.now) }
    ensures { result ≡ seek name.now (map F.Named.name_of fields.now) }
{
    fields.binary_search_by(
        |f: &F| -> Ordering
            ensures { result ≡ slice_cmp nat_cmp (F.Named.name_of f.now) name.entry.now }
        { f.name().cmp(name) },
    )
}

/// Among so many things a name is sought by going over them: whether two names are one is mostly told by their lengths.
const FEW_NAMES: usize = 16;

fn is_named<F: Named>(f: &F, name: &str) -> bool
    ensures { MatchBool result (F.Named.name_of f.now ≡ name.now) (F.Named.name_of f.now ≢ name.now) }
{
    let own = f.name();
    if own.len() != name.len() {
        return false;
    }
    own == name
}

// Each thing is looked at, in order.
fn find_among<F: Named>(fields: &[F], name: &str) -> Option<usize>
    requires { NamesRise (map F.Named.name_of fields.now) }
    ensures { result ≡ place (seek name.now (map F.Named.name_of fields.now)) }
{
    for i in 0..fields.len() {
        if is_named(&fields[i], name) {
            return Some(i);
        }
    }
    None
}

/// Where the name stands among things whose names strictly rise by bytes, if it is there. It takes no memory.
pub fn find<F: Named>(fields: &[F], name: &str) -> Option<usize>
    requires { NamesRise (map F.Named.name_of fields.now) }
    ensures { result ≡ place (seek name.now (map F.Named.name_of fields.now)) }
{
    if fields.len() <= FEW_NAMES {
        return find_among(fields, name);
    }
    match seek(fields, name) {
        Ok(i) => Some(i),
        Err(_) => None,
    }
}

/// Where the name stands, or else where it would go, where the end is looked at first: one comparison tells that the name
/// goes behind all others, or is the last. It takes no memory.
pub(crate) fn seek_last<F: Named>(fields: &[F], name: &str) -> Result<usize, usize>
    requires { NamesRise (map F.Named.name_of fields.now) }
    ensures { result ≡ seek name.now (map F.Named.name_of fields.now) }
{
    let count = fields.len();
    if count == 0 {
        return Err(0);
    }
    match fields[count - 1].name().cmp(name) {
        Ordering::Less => Err(count),
        Ordering::Equal => Ok(count - 1),
        Ordering::Greater => seek(fields, name),
    }
}
