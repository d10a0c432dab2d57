//! Which versions are served, which one is stored, and at which versions objects may still stand. A version is its place
//! in the order of the definition's `spec.versions`, counted from 0.

/// Which versions are served, and which one is the storage version: `served` and `storage` of each version in a
/// CustomResourceDefinition.
#[derive(Clone, Copy, PartialEq, Eq, Drop)]
pub struct Flags {
    pub served: [bool; 8],
    pub storage: u8,
}

/// The versions at which objects may stand, in the order in which they became the storage version: `status.storedVersions`
/// of a CustomResourceDefinition. Only the first `len` places of `items` count.
#[derive(Clone, Copy, PartialEq, Eq, Drop)]
pub struct StoredList {
    pub len: u8,
    pub items: [u8; 8],
}
