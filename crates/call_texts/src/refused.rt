//! Why a call has no reply.
ghost use Rattle.std.specs.Prelude.{◌≡◌, ◌⊎◌, ◌++◌, IfOk, codes};
ghost use Rattle.api_calls.specs.Calls.{answered};
ghost use Rattle.api_calls.specs.Cause.{cause_of};
ghost use Rattle.api_calls.specs.Documents.{migration_kind};
ghost use Rattle.api_calls.specs.Refusal.{invalid, no_memory, refusal_of, subject_of};
ghost use Rattle.api_calls.specs.Replies.{definition_subject, finalizer_added, object_subject};
ghost use Rattle.call_texts.specs.Told.{decided, told};
ghost use Rattle.call_texts.specs.Faults.{admission, unread, unstarted};

use api_calls::{AdmitFault, Cause, ConvFault, Refusal, Reply, Subject, Versions};
use kj_value::{NoMemory, Rule, Txt};
use std::alloc::Global;

/// A refusal, as `?` makes it.
#[derive(Drop)]
pub struct Refused {
    pub refusal: Refusal,
}

impl From<NoMemory> for Refused {
    ghost use Rattle.std.specs.Prelude.{◌≡◌};
    ghost use Rattle.api_calls.specs.declared.refusal.Refusal.TheVariants as refusal;

    ghost from_gives = { λ _ e. e.refusal ≡ refusal.NoMemory };

    fn from(_wanted: NoMemory) -> Refused {
        Refused {
            refusal: Refusal::NoMemory,
        }
    }
}

impl From<ConvFault> for Refused {
    ghost use Rattle.std.specs.Prelude.{◌≡◌};
    ghost use Rattle.api_calls.specs.Refusal.{refusal_of};
    ghost use Rattle.call_texts.specs.Faults.{failed};

    ghost from_gives = { λ f e. refusal_of e.refusal ≡ failed f };

    fn from(fault: ConvFault) -> Refused {
        match fault {
            ConvFault::Tool => Refused {
                refusal: Refusal::Converter,
            },
            ConvFault::NoMemory => Refused {
                refusal: Refusal::NoMemory,
            },
        }
    }
}

// A kind, a point and a group.
fn kind_group(alloc: Global, kind: &str, group: &str) -> Result<Txt, NoMemory>
    ensures { IfOk result (λ t. t.bytes ≡ kind.now ++ (codes "." ++ group.now)) }
{
    let mut text = String::new(alloc);
    text.push_str(kind)?;
    text.push_str(".")?;
    text.push_str(group)?;
    Ok(Txt::of_string(text))
}

// An object of the definition, of a name.
fn subject<V: Versions>(alloc: Global, versions: &V, name: Txt) -> Result<Subject, NoMemory>
    ensures { IfOk result (λ s. subject_of s ≡ object_subject (V.meaning versions.now) name.bytes) }
{
    let kind = versions.kind().as_str();
    let group = versions.group().as_str();
    let kind_group = kind_group(alloc, kind, group)?;
    Ok(Subject { kind_group, name })
}

/// Why a request wasn't admitted, as a refusal; or want of memory.
pub fn not_admitted<V: Versions>(alloc: Global, versions: &V, fault: AdmitFault) -> Refused
    ensures { (refusal_of result.refusal ≡ no_memory) ⊎ (refusal_of result.refusal ≡ admission (V.meaning versions.now) fault) }
{
    match fault {
        AdmitFault::BadRequest(why) => Refused {
            refusal: Refusal::BadRequest { why },
        },
        AdmitFault::Invalid { name, cause } => match subject(alloc, versions, name) {
            Ok(subject) => Refused {
                refusal: Refusal::Invalid { subject, cause },
            },
            Err(_) => Refused {
                refusal: Refusal::NoMemory,
            },
        },
        AdmitFault::Tool => Refused {
            refusal: Refusal::Converter,
        },
        AdmitFault::NoMemory => Refused {
            refusal: Refusal::NoMemory,
        },
    }
}

// The refusal of an update that adds a finalizer to an object that is being deleted.
fn added<V: Versions>(alloc: Global, versions: &V, name: &str) -> Result<Refusal, NoMemory>
    ensures { IfOk result (λ r. refusal_of r ≡ finalizer_added (V.meaning versions.now) name.now) }
{
    let name = Txt::of(alloc, name)?;
    let subject = subject(alloc, versions, name)?;
    let field = Txt::of(alloc, "metadata.finalizers")?;
    Ok(Refusal::Invalid {
        subject,
        cause: Cause {
            field,
            rule: Rule::Forbidden,
        },
    })
}

/// The refusal of an update that adds a finalizer to an object that is being deleted; or want of memory.
pub fn no_finalizer<V: Versions>(alloc: Global, versions: &V, name: &str) -> Refused
    ensures { (refusal_of result.refusal ≡ no_memory) ⊎ (refusal_of result.refusal ≡ finalizer_added (V.meaning versions.now) name.now) }
{
    match added(alloc, versions, name) {
        Ok(refusal) => Refused { refusal },
        Err(_) => Refused {
            refusal: Refusal::NoMemory,
        },
    }
}

// The definition, by its name.
fn definition<V: Versions>(alloc: Global, versions: &V) -> Result<Subject, NoMemory>
    ensures { IfOk result (λ s. subject_of s ≡ definition_subject (V.meaning versions.now)) }
{
    let plural = versions.plural().as_str();
    let group = versions.group().as_str();
    let name = kind_group(alloc, plural, group)?;
    let kind_group = Txt::of(alloc, "CustomResourceDefinition.apiextensions.k8s.io")?;
    Ok(Subject { kind_group, name })
}

/// A rule that a field of the definition breaks, as a refusal; or want of memory.
pub fn bad_definition<V: Versions>(alloc: Global, versions: &V, cause: Cause) -> Refused
    ensures { (refusal_of result.refusal ≡ no_memory) ⊎ (refusal_of result.refusal ≡ invalid (definition_subject (V.meaning versions.now)) (cause_of cause)) }
{
    match definition(alloc, versions) {
        Ok(subject) => Refused {
            refusal: Refusal::Invalid { subject, cause },
        },
        Err(_) => Refused {
            refusal: Refusal::NoMemory,
        },
    }
}

/// Why a body isn't taken for the definition, as a refusal; or want of memory.
pub fn not_read<V: Versions>(alloc: Global, versions: &V, fault: AdmitFault) -> Refused
    ensures { (refusal_of result.refusal ≡ no_memory) ⊎ (refusal_of result.refusal ≡ unread (V.meaning versions.now) fault) }
{
    match fault {
        AdmitFault::BadRequest(why) => Refused {
            refusal: Refusal::BadRequest { why },
        },
        AdmitFault::Invalid { name: _, cause } => bad_definition(alloc, versions, cause),
        AdmitFault::Tool => Refused {
            refusal: Refusal::Converter,
        },
        AdmitFault::NoMemory => Refused {
            refusal: Refusal::NoMemory,
        },
    }
}

// A migration, by its name.
fn migration(alloc: Global, name: Txt) -> Result<Subject, NoMemory>
    ensures { IfOk result (λ s. subject_of s ≡ record { kind_group = migration_kind ++ codes ".storagemigration.k8s.io"; name = name.bytes }) }
{
    let kind_group = Txt::of(alloc, "StorageVersionMigration.storagemigration.k8s.io")?;
    Ok(Subject { kind_group, name })
}

/// Why a body starts no migration, as a refusal; or want of memory.
pub fn not_started(alloc: Global, fault: AdmitFault) -> Refused
    ensures { (refusal_of result.refusal ≡ no_memory) ⊎ (refusal_of result.refusal ≡ unstarted fault) }
{
    match fault {
        AdmitFault::BadRequest(why) => Refused {
            refusal: Refusal::BadRequest { why },
        },
        AdmitFault::Invalid { name, cause } => match migration(alloc, name) {
            Ok(subject) => Refused {
                refusal: Refusal::Invalid { subject, cause },
            },
            Err(_) => Refused {
                refusal: Refusal::NoMemory,
            },
        },
        AdmitFault::Tool => Refused {
            refusal: Refusal::Converter,
        },
        AdmitFault::NoMemory => Refused {
            refusal: Refusal::NoMemory,
        },
    }
}

/// The refusal alone.
pub fn plain(came: Result<Reply, Refused>) -> Result<Reply, Refusal>
    ensures { told result ≡ answered (decided came) }
{
    match came {
        Ok(reply) => Ok(reply),
        Err(refused) => Err(refused.refusal),
    }
}
