//! From two texts to a definition with its fitted rules.
ghost use Rattle.std.specs.Prelude.{◌≡◌, ◌⊎◌, true, Ok, IfOk, IfErr, OnOk, map};
ghost use Rattle.kj_value.specs.Seen.{json};
ghost use Rattle.rule_reading.specs.Told.{set_of};
ghost use Rattle.crd_reading.specs.Seen.{version_of};
ghost use Rattle.crd_reading.specs.Offered.{has_version};
ghost use Rattle.crd_loading.specs.Blame.{of_rules};
ghost use Rattle.crd_loading.specs.Fits.{rules_in, rules_blame};
ghost use Rattle.crd_loading.specs.View.{loaded_of};
ghost use Rattle.crd_loading.specs.Load.{IsUnread, Defines, LoadsRules, AreNoRules, Loads, RefusesDefinition};
ghost use Rattle.crd_loading.specs.Told.{RefusesCrd, RefusesLoading, blame_of, blamed_in};

use crate::blamed::{Blamed, blame};
use crate::bytes::read_bytes;
use crate::fitting::fit_set;
use crate::known::known_rules;
use crate::loaded::Loaded;
use crate::words::shape_word;
use crd_reading::{Definition, DefinitionFault, Version, read_definition};
use kj_value::{JVal, NoMemory, Txt};
use rule_reading::{RuleSet, RulesFault, read_rules};
use std::alloc::Global;

/// One of the two documents.
#[derive(Clone, Copy, Drop)]
pub enum Which {
    /// The CustomResourceDefinition.
    Crd,
    /// The rules of conversion.
    Rules,
}

/// Why two documents don't load.
#[derive(Drop)]
pub enum LoadFault {
    /// The first thing that is refused, and the document in which it stands. A path has names joined by points,
    /// with items in brackets, and is empty for the whole document. The word is `NotJson`, `TooDeep` or
    /// `NotWhole` for bytes that aren't read at 100 levels; `Unknown` for a name that may not stand in the
    /// definition; a keyword, or `Limit`, in a schema; `NameTwice`, `NameMissing`, `SchemaDiffers`,
    /// `UnpairedDefault`, `RequiredLost` or `RangeLost` for rules that don't fit, at the path of a name of a
    /// schema, or for a default that comes too late for some spoke; and else `Shape`.
    Refused { file: Which, path: Txt, word: Txt },
    NoMemory,
}

impl From<NoMemory> for LoadFault {
    ghost use Rattle.std.specs.Prelude.{◌≡◌};
    ghost use Rattle.crd_loading.specs.declared.loading.LoadFault.{LoadFault};

    ghost from_gives = { λ _ e. e ≡ LoadFault.NoMemory };

    fn from(_e: NoMemory) -> LoadFault {
        LoadFault::NoMemory
    }
}

fn load_definition(alloc: Global, bytes: &[u8]) -> Result<Result<Definition, Blamed>, NoMemory>
    ensures ok { IfOk result (λ r. IfOk r (Defines bytes.now)) }
    ensures err { IfOk result (λ r. IfErr r (λ b. RefusesDefinition bytes.now (blame_of b))) }
{
    match read_bytes(alloc, bytes)? {
        Err(unread) => Ok(Err(unread)),
        Ok(document) => match read_definition(alloc, document) {
            Ok(definition) => Ok(Ok(definition)),
            Err(DefinitionFault::Refused { path, word }) => Ok(Err(Blamed { path, word })),
            Err(DefinitionFault::NoMemory) => Err(NoMemory),
        },
    }
}

// The rules of a document, none of which may be of a name that is no version.
fn read_set(
    alloc: Global,
    versions: &[Version],
    document: JVal,
) -> Result<Result<RuleSet, Blamed>, NoMemory>
    ensures set { IfOk result (λ r. IfOk r
        (λ s. rules_in (map version_of versions.now) (json document) ≡ Ok (set_of s))) }
    ensures hub { IfOk result (λ r. IfOk r
        (λ s. has_version s.hub.bytes (map version_of versions.now) ≡ true)) }
    ensures blame { IfOk result (λ r. blamed_in r
        ≡ of_rules (rules_in (map version_of versions.now) (json document))) }
{
    let known = known_rules(alloc, versions, document)?;
    match read_rules(alloc, &known) {
        Ok(set) => Ok(Ok(set)),
        Err(RulesFault::Refused { path }) => Ok(Err(blame(alloc, path, shape_word())?)),
        Err(RulesFault::NoMemory) => Err(NoMemory),
    }
}

#[tactic(auto, unfolding(crate::specs::Fits::rules_blame, crate::specs::View::loaded_of))]
fn load_document(
    alloc: Global,
    definition: Definition,
    document: JVal,
) -> Result<Result<Loaded, Blamed>, NoMemory>
    ensures loaded { IfOk result (λ r. IfOk r (λ l. l ≡ loaded_of definition (json document))) }
    ensures blame { IfOk result (λ r. blamed_in r
        ≡ rules_blame definition.versions (json document)) }
{
    let set = match read_set(alloc, definition.versions(), document)? {
        Err(blamed) => return Ok(Err(blamed)),
        Ok(set) => set,
    };
    match fit_set(alloc, definition.versions(), &set)? {
        Err(blamed) => Ok(Err(blamed)),
        Ok((hub, spokes)) => Ok(Ok(Loaded::new(definition, hub, spokes))),
    }
}

fn load_rules(
    alloc: Global,
    definition: Definition,
    bytes: &[u8],
) -> Result<Result<Loaded, Blamed>, NoMemory>
    ensures ok { IfOk result (λ r. IfOk r (LoadsRules definition bytes.now)) }
    ensures err { IfOk result (λ r. IfErr r (λ b. IsUnread bytes.now (blame_of b)
        ⊎ AreNoRules definition bytes.now (blame_of b))) }
{
    match read_bytes(alloc, bytes)? {
        Err(unread) => Ok(Err(unread)),
        Ok(document) => load_document(alloc, definition, document),
    }
}

/// The definition that the first text is, with the rules of the second, or the first thing that is refused.
///
/// The whole definition is tried before the rules are read; both are read at 100 levels. The document of
/// rules is tried as `read_rules` of `rule_reading` does it, where a hub or a spoke that is no version is
/// refused at its path before what stands inside it. Then the rules are fitted to the schemas, spoke by spoke
/// in the order of the versions; a version but the hub that the document doesn't name has no rules. Last, where a
/// name of the hub's has no default and a spoke has one for it, every spoke has to pair it by `same` or `scale`: else
/// the first such name by the bytes of its path is refused, with `UnpairedDefault`.
/// `NoMemory` may come for any texts.
pub fn load(alloc: Global, crd: &[u8], rules: &[u8]) -> Result<Loaded, LoadFault>
    ensures loaded { IfOk result (Loads crd.now rules.now) }
    ensures refused { IfErr result (RefusesLoading crd.now rules.now) }
{
    let definition = match load_definition(alloc, crd)? {
        Err(blamed) => {
            return Err(LoadFault::Refused {
                file: Which::Crd,
                path: blamed.path,
                word: blamed.word,
            });
        }
        Ok(definition) => definition,
    };
    match load_rules(alloc, definition, rules)? {
        Err(blamed) => Err(LoadFault::Refused {
            file: Which::Rules,
            path: blamed.path,
            word: blamed.word,
        }),
        Ok(loaded) => Ok(loaded),
    }
}

/// The definition that a text is, without rules, or the first thing that is refused. It is read at 100 levels. `NoMemory` may come
/// for any text.
pub fn load_crd(alloc: Global, crd: &[u8]) -> Result<Definition, LoadFault>
    ensures loaded { IfOk result (Defines crd.now) }
    ensures refused { IfErr result (RefusesCrd crd.now) }
{
    match load_definition(alloc, crd)? {
        Err(blamed) => Err(LoadFault::Refused {
            file: Which::Crd,
            path: blamed.path,
            word: blamed.word,
        }),
        Ok(definition) => Ok(definition),
    }
}
