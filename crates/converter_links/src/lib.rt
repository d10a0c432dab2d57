//! Converters at one address, each over a link of its own.
//!
//! The one contract: `make` answers a converter that has asked nothing, and asks for the path of the address over a link to its host
//! and port. It knows nothing of definitions, nor of what converters are asked.
#![tactic(auto)]

ghost use Rattle.std.specs.Prelude.{◌≡◌, IfOk};
ghost use Rattle.converter_links.specs.New.{IsNew};

use api_calls::Tools;
use http_address::Address;
use kj_value::{NoMemory, Txt};
use link_converter::LinkConverter;
use std::alloc::Global;
use tcp_links::Links;

/// What makes converters that ask at one address.
#[derive(Drop)]
pub struct ConverterLinks<'a, L: Links> {
    links: &'a mut L,
    address: Address,
}

impl<'a, L: Links> ConverterLinks<'a, L> {
    /// Converters at this address, over links that these make.
    pub fn new(links: &'a mut L, address: Address) -> ConverterLinks<'a, L>
        ensures { result.address ≡ address }
    {
        ConverterLinks { links, address }
    }
}

impl<'a, L: Links> Tools<LinkConverter<L::One>> for ConverterLinks<'a, L> {
    fn make(&mut self, alloc: Global) -> Result<LinkConverter<L::One>, NoMemory>
        ensures new { IfOk result (IsNew self.old.address.path.bytes) }
        ensures same { self.new.address ≡ self.old.address }
    {
        let target = Txt::of(alloc, self.address.path.as_str())?;
        let link = self
            .links
            .make(alloc, self.address.host.as_str(), self.address.port)?;
        Ok(LinkConverter::open(link, target))
    }
}
