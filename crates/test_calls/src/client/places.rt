//! Addresses.
use std::alloc::Global;
use wire_client::{PlaceFault, read_place};

/// The place whose address a text is.
pub(crate) fn answer(alloc: Global, case: &str) -> Option<String> {
    match read_place(alloc, case) {
        Ok(place) => {
            let host = place.host.as_str();
            let port = place.port;
            let group = place.group.as_str();
            let version = place.version.as_str();
            let plural = place.plural.as_str();
            format!(in alloc; "host {host}, port {port}, {group} {version} {plural}").ok()
        }
        Err(PlaceFault::BadPlace) => String::from_str(alloc, "bad place").ok(),
        Err(PlaceFault::NoMemory) => None,
    }
}
