//! The priority of versions.
ghost use Rattle.std.specs.Prelude.{◌≡◌, ◌≢◌, ◌<◌, ◌≤◌, ℕ, List, decimal, length, option_map};
ghost use Rattle.std.specs.Ordering.{nat_cmp};
ghost use Rattle.std.specs.List.{list_all};
ghost use Rattle.std.specs.Char.{is_ascii_digit};
ghost use Rattle.std.specs.Cmp.{IsTotalOrder};
ghost use Rattle.api_calls.specs.Priority.{alpha, alpha_name, beta, beta_name, ga, ga_name, numbers_end, ranked, version_of, version_cmp, staged, numbered, number_behind, digits, other, is_number, number_cmp, priority_cmp};

use std::cmp::Ordering;

/// How the name of a version stands to another, the one to be preferred first (Kubernetes, "Version priority"): names
/// `vN` before `vNbetaM` before `vNalphaM`, then the larger N, then the larger M, where N and M have at most 9 digits and
/// no leading zeros; then every other name, by bytes. It takes no memory.
pub fn priority(a: &str, b: &str) -> Ordering
    ensures { result ≡ priority_cmp a.now b.now }
{
    let first = version_of(a.as_bytes());
    let second = version_of(b.as_bytes());
    compare_versions(&first, &second).then(a.cmp(b))
}

/// The priority is a total order of names.
pub fn priority_total()
    ensures { IsTotalOrder priority_cmp }
{}

/// What the names of versions tell: `vN`, `vNbetaM` and `vNalphaM` tell their numbers, every other name tells none, and
/// numbers are compared as numbers. The function does nothing, and its clauses are the laws.
pub fn version_names()
    ensures ga { (n : ℕ) → n < numbers_end → version_of (ga_name n) ≡ ga (decimal n) }
    ensures beta { (n m : ℕ) → n < numbers_end → m < numbers_end → version_of (beta_name n m) ≡ beta (decimal n) (decimal m) }
    ensures alpha { (n m : ℕ) → n < numbers_end → m < numbers_end → version_of (alpha_name n m) ≡ alpha (decimal n) (decimal m) }
    ensures other { (t : List ℕ) → ((n : ℕ) → n < numbers_end → t ≢ ga_name n)
        → ((n m : ℕ) → n < numbers_end → m < numbers_end → t ≢ beta_name n m)
        → ((n m : ℕ) → n < numbers_end → m < numbers_end → t ≢ alpha_name n m) → version_of t ≡ other }
    ensures numbers { (n m : ℕ) → n < numbers_end → m < numbers_end → number_cmp (decimal n) (decimal m) ≡ nat_cmp n m }
{}

/// A version by its name: its stage, which is 0 for `vN`, 1 for beta, 2 for alpha and 3 for every other name, and the
/// digits of N and M.
#[derive(Drop)]
pub struct Ranked<'a> {
    stage: u8,
    major: &'a [u8],
    minor: &'a [u8],
}

fn compare_versions(a: &Ranked, b: &Ranked) -> Ordering
    ensures { result ≡ version_cmp (ranked a.now) (ranked b.now) }
{
    let by_major = compare_numbers(b.major, a.major);
    let by_minor = compare_numbers(b.minor, a.minor);
    a.stage.cmp(&b.stage).then(by_major.then(by_minor))
}

fn compare_numbers(a: &[u8], b: &[u8]) -> Ordering
    ensures { result ≡ number_cmp a.now b.now }
{
    a.len().cmp(&b.len()).then(a.cmp(b))
}

#[tactic(auto, unfolding(crate::specs::Priority::version_of))]
fn version_of(name: &[u8]) -> Ranked<'_>
    ensures { ranked result ≡ version_of name.now }
{
    match name.split_first() {
        Some((first, rest)) => {
            if *first == b'v' {
                numbered(rest)
            } else {
                other()
            }
        }
        None => other(),
    }
}

fn numbered(text: &[u8]) -> Ranked<'_>
    ensures { ranked result ≡ numbered text.now }
{
    let count = count_digits(text);
    let major = &text[..count];
    if is_number(major) {
        staged(major, &text[count..])
    } else {
        other()
    }
}

fn count_digits(text: &[u8]) -> usize
    ensures count { result ≡ length (digits text.now) }
    ensures within { result ≤ length text.now }
{
    text.iter().take_while(|b| b.is_ascii_digit()).count()
}

fn staged<'a>(major: &'a [u8], text: &'a [u8]) -> Ranked<'a>
    ensures { ranked result ≡ staged major.now text.now }
{
    if text.is_empty() {
        return Ranked {
            stage: 0,
            major,
            minor: &[],
        };
    }
    match number_behind(text, b"beta") {
        Some(minor) => Ranked {
            stage: 1,
            major,
            minor,
        },
        None => match number_behind(text, b"alpha") {
            Some(minor) => Ranked {
                stage: 2,
                major,
                minor,
            },
            None => other(),
        },
    }
}

fn other() -> Ranked<'static>
    ensures { ranked result ≡ other }
{
    Ranked {
        stage: 3,
        major: &[],
        minor: &[],
    }
}

fn number_behind<'a>(text: &'a [u8], word: &[u8]) -> Option<&'a [u8]>
    ensures { option_map (λ m. m.now) result ≡ number_behind word.now text.now }
{
    if !text.starts_with(word) {
        return None;
    }
    let number = &text[word.len()..];
    if is_number(number) {
        Some(number)
    } else {
        None
    }
}

fn is_number(text: &[u8]) -> bool
    ensures { result ≡ is_number text.now }
{
    1 <= text.len()
        && text.len() <= 9
        && all_digits(text)
        && (text.len() <= 1 || !text.starts_with(b"0"))
}

fn all_digits(text: &[u8]) -> bool
    ensures { result ≡ list_all is_ascii_digit text.now }
{
    text.iter().all(|b| b.is_ascii_digit())
}
