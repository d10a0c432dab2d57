//! From bytes to a document.
ghost use Rattle.std.specs.Prelude.{◌≡◌, [], Some, IfOk, IfErr};
ghost use Rattle.kj_value.specs.Seen.{json};
ghost use Rattle.kj_value.specs.Reading.{Reads};
ghost use Rattle.kj_value.specs.declared.reading.TheConstants.{MAX_JSON_LEVELS};
ghost use Rattle.crd_loading.specs.Words.{read_word};
ghost use Rattle.crd_loading.specs.Load.{IsUnread};
ghost use Rattle.crd_loading.specs.Told.{blame_of};

use crate::blamed::{Blamed, blame};
use crate::words::read_word;
use kj_value::{JVal, JsonFault, MAX_JSON_LEVELS, NoMemory, Txt, read};
use std::alloc::Global;

// Why bytes aren't read, at the empty path.
fn unread(alloc: Global, fault: JsonFault) -> Result<Blamed, NoMemory>
    ensures path { IfOk result (λ b. (blame_of b).path ≡ []) }
    ensures why { IfOk result (λ b. read_word fault ≡ Some (blame_of b).why) }
{
    match read_word(fault) {
        None => Err(NoMemory),
        Some(word) => blame(alloc, Txt::of_string(String::new(alloc)), word),
    }
}

// The document that bytes are, at 100 levels.
pub(crate) fn read_bytes(alloc: Global, bytes: &[u8]) -> Result<Result<JVal, Blamed>, NoMemory>
    ensures ok { IfOk result (λ r. IfOk r (λ v. Reads bytes.now MAX_JSON_LEVELS (json v))) }
    ensures err { IfOk result (λ r. IfErr r (λ b. IsUnread bytes.now (blame_of b))) }
{
    match read(alloc, bytes, MAX_JSON_LEVELS) {
        Ok(document) => Ok(Ok(document)),
        Err(fault) => Ok(Err(unread(alloc, fault)?)),
    }
}
