//! The place of a version's name.
ghost use Rattle.std.specs.Prelude.{◌≡◌};
ghost use Rattle.call_texts.specs.Places.{IsPlace};

use api_calls::Versions;

/// A place that no version has.
const NO_PLACE: u8 = 255;

/// The place of the version of this name. Where no version has the name, it is one that none has. It takes no memory.
pub fn place_of<V: Versions>(versions: &V, name: &str) -> u8
    ensures { IsPlace (V.meaning versions.now) name.now result }
{
    match versions.find(name) {
        Some(v) => v,
        None => NO_PLACE,
    }
}
