//! Addresses of the objects of a resource, as a client is given them: `http://HOST[:PORT]/apis/GROUP/VERSION/PLURAL`.
//!
//! The one contract: `read_place` answers the place of a text, as `specs/Place.antt` defines it, or that the text is the address of
//! none.
//!
//! It knows nothing of requests, nor of what stands at a place.
#![tactic(auto)]

ghost use Rattle.std.specs.Prelude.{◌≡◌, IfOk, IfErr};
ghost use Rattle.place.specs.Place.{IsPlace, PlaceView, place_of, OnBadPlace};

mod paths;

use http_address::{Address, AddressFault, read_address};
use kj_value::{NoMemory, Txt};
use paths::names_in;
use std::alloc::Global;

/// Where the objects of a resource are.
pub struct Place {
    /// As a URL writes it: lower case, an IPv6 address in its brackets.
    pub host: Txt,
    pub port: u16,
    pub group: Txt,
    pub version: Txt,
    pub plural: Txt,
}

impl Drop for Place {
    fn drop(self) {
        let Place {
            host: _,
            port: _,
            group: _,
            version: _,
            plural: _,
        } = self;
    }
}

/// Why there is no place.
#[derive(Clone, Copy, Drop)]
pub enum PlaceFault {
    /// The text isn't a URL of the scheme `http` with a host and without a user, a query or a fragment, whose path is
    /// `/apis/GROUP/VERSION/PLURAL`: a subdomain name and two labels (RFC 1123), with no escape and no slash at the end.
    BadPlace,
    /// Memory was wanted and there was none. It may come for any text, and comes for one of 4 GB.
    NoMemory,
}

impl From<NoMemory> for PlaceFault {
    ghost use Rattle.place.specs.declared.PlaceFault.TheVariants as fault;

    ghost from_gives = { λ _ e. e ≡ fault.NoMemory };

    fn from(_refused: NoMemory) -> PlaceFault {
        PlaceFault::NoMemory
    }
}

/// The place whose address the text is. Port 80 stands where the address has none.
#[tactic(auto, using(crate::proofs::Addresses::no_place, crate::proofs::Addresses::no_names, crate::proofs::Addresses::is_place))]
pub fn read_place(alloc: Global, text: &str) -> Result<Place, PlaceFault>
    ensures ok { IfOk result (λ p. IsPlace text.now (place_of p)) }
    ensures err { IfErr result (OnBadPlace ((p : PlaceView) → IsPlace text.now p → ⊥)) }
{
    let address = match read_address(alloc, text) {
        Ok(address) => address,
        Err(AddressFault::BadAddress) => return Err(PlaceFault::BadPlace),
        Err(AddressFault::NoMemory) => return Err(PlaceFault::NoMemory),
    };
    let Address { host, port, path } = address;
    let Some(names) = names_in(path.as_str()) else {
        return Err(PlaceFault::BadPlace);
    };
    let group = Txt::of(alloc, names.group)?;
    let version = Txt::of(alloc, names.version)?;
    let plural = Txt::of(alloc, names.plural)?;
    Ok(Place {
        host,
        port,
        group,
        version,
        plural,
    })
}
