//! Addresses of servers that speak HTTP: `http://HOST[:PORT][/PATH]`.
//!
//! The one contract: `read_address` answers the address that a text is, as `specs/Address.antt` defines it, or that it is none.
//!
//! It knows nothing of requests, nor of connections.
#![tactic(auto)]

ghost use Rattle.std.specs.Prelude.{◌≡◌, IfOk, IfErr};
ghost use Rattle.url.specs.Parser.{IsOutOfRoom};
ghost use Rattle.http_address.specs.Address.{IsAddress, AddressView, address_of, OnBadAddress};

mod finding;

use finding::found_in;
use kj_value::{NoMemory, Txt};
use std::alloc::Global;
use url::{ParseError, Url};

/// Where a server is asked.
#[derive(Drop)]
pub struct Address {
    /// As a URL writes it: lower case, an IPv6 address in its brackets.
    pub host: Txt,
    pub port: u16,
    /// It begins with a slash.
    pub path: Txt,
}

/// Why there is no address.
#[derive(Clone, Copy, Drop)]
pub enum AddressFault {
    /// The text isn't a URL of the scheme `http` with a host and without a user, a query or a fragment.
    BadAddress,
    /// Memory was wanted and there was none. It may come for any text, and comes for one of 4 GB.
    NoMemory,
}

impl From<NoMemory> for AddressFault {
    ghost use Rattle.http_address.specs.declared.AddressFault.TheVariants as fault;

    ghost from_gives = { λ _ e. e ≡ fault.NoMemory };

    fn from(_refused: NoMemory) -> AddressFault {
        AddressFault::NoMemory
    }
}

/// The address that the text is. Port 80 stands where it has none, and the path `/`.
pub fn read_address(alloc: Global, text: &str) -> Result<Address, AddressFault>
    ensures ok { IfOk result (λ a. IsAddress text.now (address_of a)) }
    ensures err { IfErr result (OnBadAddress ((a : AddressView) → IsAddress text.now a → ⊥)) }
{
    let url = match Url::parse(alloc, text) {
        Ok(url) => url,
        Err(error) => return Err(fault_of(error)),
    };
    match found_in(&url) {
        Some(found) => Ok(found.copied(alloc)?),
        None => Err(AddressFault::BadAddress),
    }
}

// Why a text that isn't read as a URL is no address.
fn fault_of(error: ParseError) -> AddressFault
    ensures { OnBadAddress (IsOutOfRoom error → ⊥) result }
{
    match error {
        ParseError::OutOfMemory | ParseError::Overflow => AddressFault::NoMemory,
        ParseError::EmptyHost
        | ParseError::IdnaError
        | ParseError::InvalidPort
        | ParseError::InvalidIpv4Address
        | ParseError::InvalidIpv6Address
        | ParseError::InvalidDomainCharacter
        | ParseError::RelativeUrlWithoutBase
        | ParseError::RelativeUrlWithCannotBeABaseBase
        | ParseError::SetHostOnCannotBeABaseUrl
        | ParseError::CannotSet => AddressFault::BadAddress,
    }
}
