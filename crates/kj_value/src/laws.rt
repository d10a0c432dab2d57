//! Laws of values and their texts. Each function does nothing, and its clause is the law.
ghost use Rattle.std.specs.Prelude.{◌≡◌, ◌≤◌, ℕ, List, IsUtf8};
ghost use Rattle.kj_value.specs.Json.{Json, depth};
ghost use Rattle.kj_value.specs.Seen.{json};
ghost use Rattle.kj_value.specs.Sound.{IsSoundJson};
ghost use Rattle.kj_value.specs.Text.{text_of};
ghost use Rattle.kj_value.specs.Reading.{Reads};

use crate::reading::MAX_JSON_LEVELS;
use crate::value::{JVal, open};

/// What a value is seen as is sound: its numbers have 64 bits and the names of its objects rise.
pub fn sound(v: &JVal)
    ensures { IsSoundJson (json v.now) }
{
    open(v)
}

/// Sound values that have one text are one value.
pub fn one_text()
    ensures { (j k : Json) → IsSoundJson j → IsSoundJson k → text_of j ≡ text_of k → j ≡ k }
{}

/// Bytes read as one value.
pub fn one_reading()
    ensures { (bytes : List ℕ) (m n : ℕ) (j k : Json) → Reads bytes m j → Reads bytes n k → j ≡ k }
{}

/// Bytes that read as a value do so within any levels that the value is within, and within no others.
pub fn reading_depth()
    ensures within { (bytes : List ℕ) (m n : ℕ) (j : Json) → Reads bytes m j → depth j ≤ n
        → Reads bytes n j }
    ensures depth { (bytes : List ℕ) (m : ℕ) (j : Json) → Reads bytes m j → depth j ≤ m }
{}

/// The text of a sound value reads back as the value.
pub fn text_reads()
    ensures { (j : Json) → IsSoundJson j → depth j ≤ MAX_JSON_LEVELS → IsUtf8 (text_of j)
        → Reads (text_of j) (depth j) j }
{}
