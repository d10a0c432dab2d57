//! The words of paths.
ghost use Rattle.std.specs.Prelude.{◌≡◌, ◌≢◌, MatchOption};
ghost use Rattle.http_routes.specs.Paths.{apis_word, namespaces_word, crd_group, crd_version, crds_word, status_word, migration_group, migration_version, migrations_word, raw_word};

/// Passes where the part is the word.
pub fn expect(part: &[u8], word: &[u8]) -> Option<()>
    ensures { MatchOption result (part.now ≢ word.now) (λ _. part.now ≡ word.now) }
{
    if part == word { Some(()) } else { None }
}

#[tactic(auto, unfolding(crate::specs::Paths::apis_word))]
pub fn expect_apis(part: &[u8]) -> Option<()>
    ensures { MatchOption result (part.now ≢ apis_word) (λ _. part.now ≡ apis_word) }
{
    expect(part, b"apis")
}

#[tactic(auto, unfolding(crate::specs::Paths::namespaces_word))]
pub fn expect_namespaces(part: &[u8]) -> Option<()>
    ensures { MatchOption result (part.now ≢ namespaces_word) (λ _. part.now ≡ namespaces_word) }
{
    expect(part, b"namespaces")
}

#[tactic(auto, unfolding(crate::specs::Paths::crd_group))]
pub fn expect_crd_group(part: &[u8]) -> Option<()>
    ensures { MatchOption result (part.now ≢ crd_group) (λ _. part.now ≡ crd_group) }
{
    expect(part, b"apiextensions.k8s.io")
}

#[tactic(auto, unfolding(crate::specs::Paths::crd_version))]
pub fn expect_crd_version(part: &[u8]) -> Option<()>
    ensures { MatchOption result (part.now ≢ crd_version) (λ _. part.now ≡ crd_version) }
{
    expect(part, b"v1")
}

#[tactic(auto, unfolding(crate::specs::Paths::crds_word))]
pub fn expect_crds(part: &[u8]) -> Option<()>
    ensures { MatchOption result (part.now ≢ crds_word) (λ _. part.now ≡ crds_word) }
{
    expect(part, b"customresourcedefinitions")
}

#[tactic(auto, unfolding(crate::specs::Paths::status_word))]
pub fn expect_status(part: &[u8]) -> Option<()>
    ensures { MatchOption result (part.now ≢ status_word) (λ _. part.now ≡ status_word) }
{
    expect(part, b"status")
}

#[tactic(auto, unfolding(crate::specs::Paths::migration_group))]
pub fn expect_migration_group(part: &[u8]) -> Option<()>
    ensures { MatchOption result (part.now ≢ migration_group) (λ _. part.now ≡ migration_group) }
{
    expect(part, b"storagemigration.k8s.io")
}

#[tactic(auto, unfolding(crate::specs::Paths::migration_version))]
pub fn expect_migration_version(part: &[u8]) -> Option<()>
    ensures { MatchOption result (part.now ≢ migration_version) (λ _. part.now ≡ migration_version) }
{
    expect(part, b"v1alpha1")
}

#[tactic(auto, unfolding(crate::specs::Paths::migrations_word))]
pub fn expect_migrations(part: &[u8]) -> Option<()>
    ensures { MatchOption result (part.now ≢ migrations_word) (λ _. part.now ≡ migrations_word) }
{
    expect(part, b"storageversionmigrations")
}

#[tactic(auto, unfolding(crate::specs::Paths::raw_word))]
pub fn expect_raw(part: &[u8]) -> Option<()>
    ensures { MatchOption result (part.now ≢ raw_word) (λ _. part.now ≡ raw_word) }
{
    expect(part, b"raw")
}
