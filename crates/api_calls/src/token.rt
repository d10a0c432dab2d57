//! Continue tokens.
ghost use Rattle.std.specs.Prelude.{◌≡◌, ◌≢◌, ◌<◌, ◌^◌, ℕ, List, ◌++◌, ◌∷◌, codes, decimal, IfOk, IfErr, MatchOption, length, slice_index};
ghost use Rattle.std.specs.Str.{IsAscii};
ghost use Rattle.base64.specs.Engines.{url_safe_no_pad};
ghost use Rattle.base64.specs.GeneralPurpose.{encode_of, decode_of};
ghost use Rattle.kube_meta.specs.Key.{KeyView};
ghost use Rattle.api_calls.specs.Token.{IsToken, token_line, token_text, RefusesToken, RefusesLine, space};

use base64::DecodeAllocError;
use base64::engine::general_purpose::URL_SAFE_NO_PAD;
use itoa::Buffer;
use kj_value::{NoMemory, Txt};
use kube_meta::{Key, name_ok, namespace_ok};
use std::alloc::Global;

/// Where a list goes on: the revision of its first page, and the key of the last object shown.
pub struct Token {
    pub rv: u64,
    pub key: Key,
}

impl Drop for Token {
    fn drop(self) {
        let Token { rv: _, key: _ } = self;
    }
}

/// Why a text is read as no token.
#[derive(Debug, Drop)]
pub enum TokenFault {
    /// No token has the text.
    BadToken,
    /// A call that wanted memory found none.
    NoMemory,
}

impl From<NoMemory> for TokenFault {
    ghost use Rattle.std.specs.Prelude.{◌≡◌};
    ghost use Rattle.api_calls.specs.declared.token.TokenFault.TheVariants as fault;

    ghost from_gives = { λ _ e. e ≡ fault.NoMemory };

    fn from(_: NoMemory) -> TokenFault {
        TokenFault::NoMemory
    }
}

/// The text of a token.
pub fn write_token(alloc: Global, t: &Token) -> Result<Txt, NoMemory>
    ensures { IfOk result (λ text. text.bytes ≡ token_text t.now.rv t.now.key) }
{
    let line = token_line(alloc, t)?;
    let text = URL_SAFE_NO_PAD.encode(alloc, line.as_str().as_bytes())?;
    Ok(Txt::of_string(text))
}

/// The token that has this text, or `BadToken` exactly where none has it. A token's namespace and name keep the rules
/// for namespaces and names.
pub fn read_token(alloc: Global, text: &str) -> Result<Token, TokenFault>
    ensures ok { IfOk result (λ t. IsToken t.rv t.key × (token_text t.rv t.key ≡ text.now)) }
    ensures err { IfErr result (λ e. RefusesToken e text.now) }
{
    let line = decoded(alloc, text)?;
    match read_line(alloc, line.as_str()) {
        Ok(token) => Ok(token),
        Err(fault) => Err(fault),
    }
}

/// Tokens that have one text are one.
pub fn one_token()
    ensures { (r s : ℕ) (k l : KeyView) → IsToken r k → IsToken s l
        → token_text r k ≡ token_text s l → (r ≡ s) × (k ≡ l) }
{}

fn token_line(alloc: Global, t: &Token) -> Result<Txt, NoMemory>
    ensures { IfOk result (λ line. line.bytes ≡ token_line t.now.rv t.now.key) }
{
    let mut buffer = Buffer::new();
    let mut line = String::new(alloc);
    line.push_str("1 ")?;
    line.push_str(buffer.format(t.rv))?;
    line.push_str(" ")?;
    line.push_str(t.key.ns())?;
    line.push_str(" ")?;
    line.push_str(t.key.name())?;
    Ok(Txt::of_string(line))
}

fn decoded(alloc: Global, text: &str) -> Result<Txt, TokenFault>
    ensures spelled { IfOk result (λ line. encode_of url_safe_no_pad line.bytes ≡ text.now) }
    ensures read { IfOk result (λ line. decode_of url_safe_no_pad text.now ≡ Ok line.bytes) }
    ensures err { IfErr result (λ e. RefusesToken e text.now) }
{
    match URL_SAFE_NO_PAD.decode(alloc, text.as_bytes()) {
        Ok(bytes) => match Txt::of_bytes(bytes) {
            Some(line) => Ok(line),
            None => Err(TokenFault::BadToken),
        },
        Err(DecodeAllocError::DecodeError(_)) => Err(TokenFault::BadToken),
        Err(DecodeAllocError::OutOfMemory) => Err(TokenFault::NoMemory),
    }
}

fn read_line(alloc: Global, line: &str) -> Result<Token, TokenFault>
    ensures ok { IfOk result (λ t. IsToken t.rv t.key × (token_line t.rv t.key ≡ line.now)) }
    ensures err { IfErr result (λ e. RefusesLine e line.now) }
{
    match parts(line) {
        Some((rv, ns, name)) => {
            let key = Key::of(alloc, ns, name)?;
            Ok(Token { rv, key })
        }
        None => Err(TokenFault::BadToken),
    }
}

// The number, the namespace and the name of a line.
fn parts(line: &str) -> Option<(u64, &str, &str)>
    ensures { MatchOption result ((r : ℕ) (k : KeyView) → IsToken r k → token_line r k ≢ line.now)
        (λ p. let k : KeyView = record { ns = p.1.now; name = p.2.now } in IsToken p.0 k × (token_line p.0 k ≡ line.now)) }
{
    let Some((format, rest)) = cut(line) else {
        return None;
    };
    if format != "1" {
        return None;
    }
    let Some((number, rest)) = cut(rest) else {
        return None;
    };
    let Some((ns, name)) = cut(rest) else {
        return None;
    };
    let Some(rv) = number_of(number) else {
        return None;
    };
    if !namespace_ok(ns) {
        return None;
    }
    if !name_ok(name) {
        return None;
    }
    Some((rv, ns, name))
}

// What stands before the first space, and what stands behind it.
fn cut(text: &str) -> Option<(&str, &str)>
    ensures { MatchOption result ((xs ys : List ℕ) → text.now ≢ xs ++ space ∷ ys)
        (λ p. (text.now ≡ p.0.now ++ space ∷ p.1.now)
        × ((i : ℕ) → i < length p.0.now → slice_index p.0.now i ≢ space)) }
{
    text.split_once(' ')
}

/// The number below 2^64 that a text spells, in decimal digits without a sign or leading zeros, or `None` exactly where it
/// spells none. It takes no memory.
pub fn number_of(text: &str) -> Option<u64>
    ensures { MatchOption result ((n : ℕ) → n < 2 ^ 64 → decimal n ≢ text.now)
        (λ n. (n < 2 ^ 64) × (decimal n ≡ text.now)) }
{
    let Ok(number) = text.parse::<u64>() else {
        return None;
    };
    let mut buffer = Buffer::new();
    if buffer.format(number) != text {
        return None;
    }
    Some(number)
}
