//! What refusals are about.

/// What a refusal is about.
#[derive(Clone, Copy, Drop)]
pub enum About {
    /// Objects of the definition.
    Objects,
    /// Storage migrations (storagemigration.k8s.io).
    Migrations,
}
