//! What a URL tells of an address.
ghost use Rattle.std.specs.Prelude.{◌≡◌, IfOk, IsTrue, ◌↔◌, MatchOption, None, [], codes, option_copied};
ghost use Rattle.http_address.specs.Address.{IsPlain, AddressView, Tells, address_of, found_view, port_of};

use crate::Address;
use kj_value::{NoMemory, Txt};
use std::alloc::Global;
use url::Url;

/// The parts of an address, lent.
#[derive(Clone, Copy, Drop)]
pub struct Found<'a> {
    host: &'a str,
    port: u16,
    path: &'a str,
}

impl Found<'_> {
    /// The address in memory of its own.
    pub fn copied(&self, alloc: Global) -> Result<Address, NoMemory>
        ensures { IfOk result (λ a. address_of a ≡ found_view self.now) }
    {
        let host = Txt::of(alloc, self.host)?;
        let path = Txt::of(alloc, self.path)?;
        Ok(Address {
            host,
            port: self.port,
            path,
        })
    }
}

const HTTP: &str = "http";

fn is_http(scheme: &str) -> bool
    ensures { IsTrue result ↔ (scheme.now ≡ codes "http") }
{
    scheme == HTTP
}

fn is_nothing(part: &str) -> bool
    ensures { IsTrue result ↔ (part.now ≡ []) }
{
    part.is_empty()
}

fn is_absent(part: Option<&str>) -> bool
    ensures { IsTrue result ↔ (option_copied part.entry ≡ None) }
{
    match part {
        Some(_) => false,
        None => true,
    }
}

fn has_no_password(url: &Url) -> bool
    ensures { IsTrue result ↔ (url.now.password ≡ []) }
{
    is_absent(url.password())
}

// Whether the URL is one of HTTP without a user, a query or a fragment.
fn is_plain(url: &Url) -> bool
    ensures { IsTrue result ↔ IsPlain url.now }
{
    if !is_http(url.scheme()) {
        return false;
    }
    if !is_nothing(url.username()) {
        return false;
    }
    if !has_no_password(url) {
        return false;
    }
    if !is_absent(url.query()) {
        return false;
    }
    is_absent(url.fragment())
}

fn port(url: &Url) -> u16
    ensures { result ≡ port_of url.now.port }
{
    match url.port() {
        Some(port) => port,
        None => HTTP_PORT,
    }
}

const HTTP_PORT: u16 = 80;

/// What the URL tells of an address, where it is one.
pub fn found_in(url: &Url) -> Option<Found<'_>>
    ensures { MatchOption result
        ((a : AddressView) → IsPlain url.now → Tells url.now a → ⊥)
        (λ f. IsPlain url.now × Tells url.now (found_view f)) }
{
    if !is_plain(url) {
        return None;
    }
    let host = url.host_str()?;
    Some(Found {
        host,
        port: port(url),
        path: url.path(),
    })
}
