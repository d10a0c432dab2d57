//! The uid of an object.
ghost use Rattle.std.specs.Prelude.{◌≡◌, ◌++◌, ◌+◌, ◌<◌, ◌≤◌, IfOk};
ghost use Rattle.api_calls.specs.Uid.{uid};

use kj_value::{NoMemory, Txt};
use std::alloc::Global;
use uuid::Uuid;

/// The bytes of a uid's text.
pub const UID_BYTES: u64 = 36;

/// The number of the creating entry is below this one, 2 to the power of 62.
pub const BORN_END: u64 = 0x4000_0000_0000_0000;

/// The uid of the object that the entry `born` created, in the run of the server with the number `boot`.
pub fn uid_of(alloc: Global, boot: u64, born: u64) -> Result<Txt, NoMemory>
    requires { born < BORN_END }
    ensures { IfOk result (λ t. t.bytes ≡ uid boot born) }
{
    let mut text = Txt::with_room(alloc, UID_BYTES)?;
    uid_into(boot, born, &mut text);
    Ok(text)
}

/// The same text, appended. It takes no memory.
pub fn uid_into(boot: u64, born: u64, out: &mut Txt)
    requires born { born < BORN_END }
    requires room { UID_BYTES ≤ out.old.room }
    ensures bytes { out.new.bytes ≡ out.old.bytes ++ uid boot born }
    ensures room { out.new.room + UID_BYTES ≡ out.old.room }
{
    let high = boot / 0x1_0000 * 0x1_0000 + 0x8000 + boot % 0x1000;
    let low = 0x8000_0000_0000_0000 + born;
    let mut buffer = Uuid::encode_buffer();
    out.add(
        Uuid::from_u64_pair(high, low)
            .hyphenated()
            .encode_lower(&mut buffer),
    );
}
