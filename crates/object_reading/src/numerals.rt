//! Which texts are resource versions.
ghost use Rattle.std.specs.Prelude.{◌≡◌};
ghost use Rattle.object_reading.specs.Numbers.{is_number, is_resource_version};

use itoa::Buffer;

/// Whether the text is empty or the decimal text, without leading zeros, of a number below 2^64. It takes no memory.
pub(crate) fn resource_version_ok(text: &str) -> bool
    ensures { result ≡ is_resource_version text.now }
{
    text.is_empty() || number_ok(text)
}

fn number_ok(text: &str) -> bool
    ensures { result ≡ is_number text.now }
{
    let Ok(number) = text.parse::<u64>() else {
        return false;
    };
    let mut buffer = Buffer::new();
    buffer.format(number) == text
}
