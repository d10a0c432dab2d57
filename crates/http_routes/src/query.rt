//! What a query says.
ghost use Rattle.std.specs.Prelude.{◌≡◌, true, false, map, IfOk, MatchOption};
ghost use Rattle.std.specs.Str.{bytes_eq};
ghost use Rattle.std.specs.Str.Parse.{digits_value};
ghost use Rattle.kube_meta.specs.Page.{in_namespace};
ghost use Rattle.api_calls.specs.Cause.{bad_query as bad_query_of};
ghost use Rattle.http_routes.specs.Queries.{bad, pairs_of, value_of, is_off as is_off_of, is_any_version as is_any_version_of, is_limit as is_limit_of, first_refused as first_refused_of, common_rules, list_rules, GoesOn, HasNoToken, ReadsQuery, ListReads, OtherReads};
ghost use Rattle.http_routes.specs.Views.{action_of, lent, place_of, verdict_of, pair_texts};

use crate::action::Action;
use api_calls::{Token, TokenFault, Why, one_token, read_token};
use form_urlencoded::parse;
use kj_value::{NoMemory, Txt};
use std::alloc::Global;
use std::borrow::CowStr;

/// The most digits of a limit.
pub const MOST_LIMIT_DIGITS: usize = 18;

/// How many objects a list shows at most, where 0 is no limit, and where it goes on.
#[derive(Drop)]
pub struct Paging {
    pub limit: u64,
    pub from: Option<Token>,
}

/// What a query comes to.
#[derive(Drop)]
pub enum Queried {
    Paged(Paging),
    Bad(Why),
}

// The keys and values of a query, as texts.
fn pairs(alloc: Global, query: &[u8]) -> Result<Vec<(CowStr<'_>, CowStr<'_>)>, NoMemory>
    ensures { IfOk result (λ ps. map pair_texts ps.items ≡ pairs_of query.now) }
{
    let mut pairs = Vec::new(alloc);
    let mut left = parse(alloc, query);
    while let Some(pair) = left.next() {
        pairs.push(pair?)?;
    }
    Ok(pairs)
}

fn is_key(name: &str, key: &str) -> bool
    ensures { result ≡ bytes_eq name.now key.now }
{
    name == key
}

// The first value of this key, or an empty text.
fn value<'b>(pairs: &'b [(CowStr<'_>, CowStr<'_>)], key: &str) -> &'b str
    ensures { result.now ≡ value_of key.now (map pair_texts pairs.now) }
{
    for pair in pairs {
        if is_key(pair.0.as_str(), key) {
            return pair.1.as_str();
        }
    }
    ""
}

fn is_off(value: &str) -> bool
    ensures { result ≡ is_off_of value.now }
{
    value == "" || value == "false" || value == "0"
}

fn is_any_version(value: &str) -> bool
    ensures { result ≡ is_any_version_of value.now }
{
    value == "" || value == "0"
}

// The first key that every request may have and whose value isn't served.
fn common_refused(pairs: &[(CowStr<'_>, CowStr<'_>)]) -> Option<&'static str>
    ensures { lent result ≡ first_refused_of common_rules (map pair_texts pairs.now) }
{
    if !is_off(value(pairs, "watch")) {
        return Some("watch");
    }
    if !is_off(value(pairs, "labelSelector")) {
        return Some("labelSelector");
    }
    if !is_off(value(pairs, "fieldSelector")) {
        return Some("fieldSelector");
    }
    if !is_off(value(pairs, "dryRun")) {
        return Some("dryRun");
    }
    if !is_off(value(pairs, "resourceVersionMatch")) {
        return Some("resourceVersionMatch");
    }
    if !is_any_version(value(pairs, "resourceVersion")) {
        return Some("resourceVersion");
    }
    None
}

// The number that these digits write, of none 0.
fn limit_in(value: &[u8]) -> Option<u64>
    ensures { MatchOption result (is_limit_of value.now ≡ false) (λ n. (is_limit_of value.now ≡ true) × (n ≡ digits_value 10 value.now)) }
{
    if value.len() > MOST_LIMIT_DIGITS {
        return None;
    }
    let mut n = 0;
    for b in value {
        if !b.is_ascii_digit() {
            return None;
        }
        n = n * 10 + u64::from(*b - b'0');
    }
    Some(n)
}

fn bad_query(alloc: Global, key: &str) -> Result<Queried, NoMemory>
    ensures { IfOk result (λ q. verdict_of q ≡ bad (bad_query_of key.now)) }
{
    let parameter = Txt::of(alloc, key)?;
    Ok(Queried::Bad(Why::BadQuery { parameter }))
}

// Whether the token's object is in the namespace of the list.
fn is_within(namespace: Option<&str>, token: &Token) -> bool
    ensures { result ≡ in_namespace (lent namespace.entry) token.now.key }
{
    match namespace {
        Some(namespace) => namespace == token.key.ns(),
        None => true,
    }
}

// Where a list goes on: nowhere, at a token, or the text is none of its tokens.
fn place(
    alloc: Global,
    namespace: Option<&str>,
    text: &str,
) -> Result<Option<Option<Token>>, NoMemory>
    ensures { IfOk result (λ r. MatchOption r (HasNoToken (lent namespace.entry) text.now) (λ t. GoesOn (lent namespace.entry) text.now (place_of t))) }
{
    if text.is_empty() {
        return Ok(Some(None));
    }
    match read_token(alloc, text) {
        Ok(token) => {
            one_token();
            if is_within(namespace, &token) {
                return Ok(Some(Some(token)));
            }
            Ok(None)
        }
        Err(TokenFault::BadToken) => Ok(None),
        Err(TokenFault::NoMemory) => Err(NoMemory),
    }
}

// What the query of a list says.
fn list_query(
    alloc: Global,
    namespace: Option<&str>,
    pairs: &[(CowStr<'_>, CowStr<'_>)],
) -> Result<Queried, NoMemory>
    ensures { IfOk result (λ q. ListReads (lent namespace.entry) (map pair_texts pairs.now) (verdict_of q)) }
{
    if let Some(key) = common_refused(pairs) {
        return bad_query(alloc, key);
    }
    let Some(limit) = limit_in(value(pairs, "limit").as_bytes()) else {
        return bad_query(alloc, "limit");
    };
    match place(alloc, namespace, value(pairs, "continue"))? {
        Some(from) => Ok(Queried::Paged(Paging { limit, from })),
        None => Ok(Queried::Bad(Why::BadToken)),
    }
}

// What the query of any other request says.
fn other_query(alloc: Global, pairs: &[(CowStr<'_>, CowStr<'_>)]) -> Result<Queried, NoMemory>
    ensures { IfOk result (λ q. OtherReads (map pair_texts pairs.now) (verdict_of q)) }
{
    match common_refused(pairs) {
        Some(key) => bad_query(alloc, key),
        None => Ok(Queried::Paged(Paging {
            limit: 0,
            from: None,
        })),
    }
}

// What these pairs say.
fn judge(
    alloc: Global,
    action: Action<'_>,
    pairs: &[(CowStr<'_>, CowStr<'_>)],
) -> Result<Queried, NoMemory>
    ensures { IfOk result (λ q. ReadsQuery (action_of action.entry) (map pair_texts pairs.now) (verdict_of q)) }
{
    match action {
        Action::List {
            version: _,
            namespace,
        } => list_query(alloc, namespace, pairs),
        Action::Get {
            version: _,
            namespace: _,
            name: _,
        } => other_query(alloc, pairs),
        Action::Create {
            version: _,
            namespace: _,
        } => other_query(alloc, pairs),
        Action::Replace {
            version: _,
            namespace: _,
            name: _,
        } => other_query(alloc, pairs),
        Action::Delete {
            version: _,
            namespace: _,
            name: _,
        } => other_query(alloc, pairs),
        Action::Group => other_query(alloc, pairs),
        Action::Crd => other_query(alloc, pairs),
        Action::SetVersions => other_query(alloc, pairs),
        Action::Trim => other_query(alloc, pairs),
        Action::Start => other_query(alloc, pairs),
        Action::Migration { name: _ } => other_query(alloc, pairs),
        Action::Migrations => other_query(alloc, pairs),
        Action::Raw {
            namespace: _,
            name: _,
        } => other_query(alloc, pairs),
    }
}

/// What the query of a request says that asks for this.
pub fn read_query(alloc: Global, action: Action<'_>, query: &[u8]) -> Result<Queried, NoMemory>
    ensures { IfOk result (λ q. ReadsQuery (action_of action.entry) (pairs_of query.now) (verdict_of q)) }
{
    if query.is_empty() {
        return Ok(Queried::Paged(Paging {
            limit: 0,
            from: None,
        }));
    }
    let pairs = pairs(alloc, query)?;
    judge(alloc, action, pairs.as_slice())
}
