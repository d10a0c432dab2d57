//! The text that names a version.
ghost use Rattle.std.specs.Prelude.{◌≡◌, ◌∷◌};
ghost use Rattle.std.specs.Str.{bytes_eq};
ghost use Rattle.keep_laws.specs.Spokes.{slash, api_version};

/// Whether a text is GROUP/VERSION. It takes no memory.
pub(crate) fn is_version_text(text: &str, group: &str, version: &str) -> bool
    ensures { result ≡ bytes_eq text.now (api_version group.now version.now) }
{
    match text.as_bytes().strip_prefix(group.as_bytes()) {
        Some(rest) => is_behind_slash(rest, version.as_bytes()),
        None => false,
    }
}

// /VERSION
fn is_behind_slash(rest: &[u8], version: &[u8]) -> bool
    ensures { result ≡ bytes_eq rest.now (slash ∷ version.now) }
{
    match rest.strip_prefix(b"/") {
        Some(name) => name == version,
        None => false,
    }
}
