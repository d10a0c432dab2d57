//! The definition of a line, from its texts.
ghost use Rattle.std.specs.Prelude.{◌≡◌, ◌≤◌, ◌⊎◌, ℕ, List, Some, IfOk, IfErr, OnOk};
ghost use Rattle.edge_io.specs.Causes.{Rose};
ghost use Rattle.crd_loading.specs.Blame.{Blame};
ghost use Rattle.crd_loading.specs.Load.{RefusesDefinition};
ghost use Rattle.crd_loading.specs.Told.{RefusesIn};
ghost use Rattle.crd_loading.specs.declared.loading.Which.{Which};
ghost use Rattle.crd_versions.specs.Set.{definition_of};
ghost use Rattle.hook_versions.specs.Loads.{LoadsHook, HasNoHub};
ghost use Rattle.built_in.specs.Texts.{definition_text, rules_text};
ghost use Rattle.http_address.specs.Address.{AddressView, IsAddress};
ghost use Rattle.command_lines.specs.Lines.{by_converter, by_rules};
ghost use Rattle.kubeconv_cmd.specs.Sources.{IsExample, IsTaken, IsUnfit, LoadsSet, Means, blame_text, file_of, with_converter, with_rules};
ghost use Rattle.kubeconv_cmd.specs.inner.Ends.{Stops, StopsBy};

use crate::stop::{Stop, Why};
use built_in::{accepted, example};
use converters::Converter;
use crd_versions::{LoadFault, VersionSet, Which, load};
use edge_io::{FileFault, Files};
use hook_versions::{HookSet, load_hook};
use http_address::{Address, AddressFault, read_address};
use kj_value::{NoMemory, Txt, one_reading};
use std::alloc::Global;

/// The definition that is built in. Nothing of it is refused.
pub(crate) fn load_built_in(alloc: Global) -> Result<VersionSet, NoMemory>
    ensures { IfOk result (λ s. LoadsSet definition_text rules_text (definition_of s)) }
{
    // Asked for what its clauses say: nothing of the two texts is refused.
    accepted();
    let definition = built_in::definition();
    let rules = built_in::rules();
    match load(alloc, definition.as_bytes(), rules.as_bytes()) {
        Ok(versions) => Ok(versions),
        Err(LoadFault::NoMemory) => Err(NoMemory),
        Err(
            LoadFault::Refused {
                file: Which::Crd,
                path: _,
                word: _,
            },
        ) => unreachable!(),
        Err(
            LoadFault::Refused {
                file: Which::Rules,
                path: _,
                word: _,
            },
        ) => unreachable!(),
    }
}

/// The definition of the shared example, of which nothing is refused, as any two texts that read as its documents load it.
pub(crate) fn load_example(alloc: Global) -> Result<VersionSet, NoMemory>
    ensures { IfOk result (λ s. IsExample (definition_of s)) }
{
    // Asked for what their clauses say: nothing of texts that read so is refused, and a text reads as one value.
    example::accepted();
    one_reading();
    let definition = example::definition();
    let rules = example::rules();
    match load(alloc, definition.as_bytes(), rules.as_bytes()) {
        Ok(versions) => Ok(versions),
        Err(LoadFault::NoMemory) => Err(NoMemory),
        Err(
            LoadFault::Refused {
                file: Which::Crd,
                path: _,
                word: _,
            },
        ) => unreachable!(),
        Err(
            LoadFault::Refused {
                file: Which::Rules,
                path: _,
                word: _,
            },
        ) => unreachable!(),
    }
}

// The text of a file.
fn read_text<'a, F: Files>(alloc: Global, files: &mut F, path: &'a str) -> Result<Txt, Stop<'a>>
    ensures text { IfOk result (λ text. IsTaken (F.file files.old path.now) text.bytes) }
    ensures stops { IfErr result (StopsBy (Rose (F.faults files.old) (F.faults files.new)) (λ name why. (name ≡ path.now) × IsUnfit (F.file files.old path.now) why) ⊥) }
    ensures kept { (name : List ℕ) → F.file files.new name ≡ F.file files.old name }
    ensures later { F.faults files.old ≤ F.faults files.new }
{
    match files.read_file(alloc, path) {
        Ok(text) => Ok(text),
        Err(FileFault::Failed) => Err(Stop::ReadFailed),
        Err(FileFault::TooLong) => Err(Stop::Refused {
            file: path,
            why: Why::TooLong,
        }),
        Err(FileFault::NotText) => Err(Stop::Refused {
            file: path,
            why: Why::NotText,
        }),
        Err(FileFault::NoMemory) => Err(Stop::NoMemory),
    }
}

// The definition that two texts are, which stand in files of these names.
fn load_texts<'a>(
    alloc: Global,
    crd: &'a str,
    crd_text: &str,
    rules: &'a str,
    rules_text: &str,
) -> Result<VersionSet, Stop<'a>>
    ensures loaded { IfOk result (λ s. LoadsSet crd_text.now rules_text.now (definition_of s)) }
    ensures stops { IfErr result (StopsBy ⊥ (λ name why. (which : Which) × (b : Blame) × (name ≡ file_of which crd.now rules.now)
        × RefusesIn crd_text.now rules_text.now which b × (why ≡ blame_text b.path b.why)) ⊥) }
{
    match load(alloc, crd_text.as_bytes(), rules_text.as_bytes()) {
        Ok(versions) => Ok(versions),
        Err(
            LoadFault::Refused {
                file: Which::Crd,
                path,
                word,
            },
        ) => Err(Stop::Refused {
            file: crd,
            why: Why::At { path, word },
        }),
        Err(
            LoadFault::Refused {
                file: Which::Rules,
                path,
                word,
            },
        ) => Err(Stop::Refused {
            file: rules,
            why: Why::At { path, word },
        }),
        Err(LoadFault::NoMemory) => Err(Stop::NoMemory),
    }
}

/// The definition that two files are. The definition's file is read first, and both are read before either is loaded.
pub(crate) fn load_files<'a, F: Files>(
    alloc: Global,
    files: &mut F,
    crd: &'a str,
    rules: &'a str,
) -> Result<VersionSet, Stop<'a>>
    ensures loaded { IfOk result (λ s. Means (F.file files.old) (by_rules crd.now rules.now) (with_rules (definition_of s))) }
    ensures stops { IfErr result (Stops (Rose (F.faults files.old) (F.faults files.new)) (F.file files.old) (by_rules crd.now rules.now) ⊥) }
    ensures kept { (name : List ℕ) → F.file files.new name ≡ F.file files.old name }
{
    let crd_text = read_text(alloc, files, crd)?;
    let rules_text = read_text(alloc, files, rules)?;
    load_texts(alloc, crd, crd_text.as_str(), rules, rules_text.as_str())
}

/// A definition whose objects a converter turns, and where that is.
pub(crate) struct Converted<C: Converter> {
    pub(crate) versions: HookSet<C>,
    pub(crate) address: Address,
}

// The definition that a text is, which stands in a file of this name, with the version of the other name as its hub.
fn load_text<'a, C: Converter>(
    alloc: Global,
    crd: &'a str,
    text: &str,
    hub: &str,
) -> Result<HookSet<C>, Stop<'a>>
    ensures loaded { IfOk result (λ s. LoadsHook text.now hub.now s.set) }
    ensures stops { IfErr result (StopsBy ⊥ (λ name why. (b : Blame) × (name ≡ crd.now) × (RefusesDefinition text.now b ⊎ HasNoHub text.now hub.now b)
        × (why ≡ blame_text b.path b.why)) ⊥) }
{
    match load_hook::<C>(alloc, text.as_bytes(), hub) {
        Ok(versions) => Ok(versions),
        Err(
            LoadFault::Refused {
                file: Which::Crd,
                path,
                word,
            },
        ) => Err(Stop::Refused {
            file: crd,
            why: Why::At { path, word },
        }),
        Err(
            LoadFault::Refused {
                file: Which::Rules,
                path: _,
                word: _,
            },
        ) => unreachable!(),
        Err(LoadFault::NoMemory) => Err(Stop::NoMemory),
    }
}

// The definition that a file is, with the version of the name as its hub.
fn load_file<'a, C: Converter, F: Files>(
    alloc: Global,
    files: &mut F,
    crd: &'a str,
    hub: &str,
) -> Result<HookSet<C>, Stop<'a>>
    ensures loaded { IfOk result (λ s. (c : List ℕ) × IsTaken (F.file files.old crd.now) c × LoadsHook c hub.now s.set) }
    ensures stops { (url : List ℕ) → IfErr result (Stops (Rose (F.faults files.old) (F.faults files.new)) (F.file files.old) (by_converter crd.now hub.now url) ⊥) }
    ensures kept { (name : List ℕ) → F.file files.new name ≡ F.file files.old name }
{
    let text = read_text(alloc, files, crd)?;
    load_text(alloc, crd, text.as_str(), hub)
}

/// The definition of a file, with the version of the name as its hub, and the address of its converter, which is read before the file.
pub(crate) fn load_converted<'a, C: Converter, F: Files>(
    alloc: Global,
    files: &mut F,
    crd: &'a str,
    hub: &'a str,
    url: &'a str,
) -> Result<Converted<C>, Stop<'a>>
    ensures loaded { IfOk result (λ f. Means (F.file files.old) (by_converter crd.now hub.now url.now) (with_converter f.versions.set)) }
    ensures stops { IfErr result (Stops (Rose (F.faults files.old) (F.faults files.new)) (F.file files.old) (by_converter crd.now hub.now url.now) (files.new ≡ files.old)) }
    ensures kept { (name : List ℕ) → F.file files.new name ≡ F.file files.old name }
{
    match read_address(alloc, url) {
        Ok(address) => match load_file(alloc, files, crd, hub) {
            Ok(versions) => Ok(Converted { versions, address }),
            Err(stop) => Err(stop),
        },
        Err(AddressFault::BadAddress) => Err(Stop::BadAddress),
        Err(AddressFault::NoMemory) => Err(Stop::NoMemory),
    }
}
