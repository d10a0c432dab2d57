//! The names of a document of rules, and the words of what is refused.
ghost use Rattle.std.specs.Prelude.{◌≡◌, option_map};
ghost use Rattle.hub_rules.specs.inner.Spots.{why};
ghost use Rattle.crd_reading.specs.Words.{shape_word};
ghost use Rattle.crd_loading.specs.Words.{hub_name, spokes_name, read_word, fit_word};

use hub_rules::Why;
use kj_value::JsonFault;

#[tactic(auto, unfolding(crate::specs::Words::hub_name))]
pub(crate) fn hub_name() -> &'static str
    ensures { result.now ≡ hub_name }
{
    "hub"
}

#[tactic(auto, unfolding(crate::specs::Words::spokes_name))]
pub(crate) fn spokes_name() -> &'static str
    ensures { result.now ≡ spokes_name }
{
    "spokes"
}

// What is refused in a document of rules by itself.
#[tactic(auto, unfolding(crd_reading::specs::Words::shape_word))]
pub(crate) fn shape_word() -> &'static str
    ensures { result.now ≡ shape_word }
{
    "Shape"
}

// Bytes that aren't read.
#[tactic(auto, unfolding(crate::specs::Words::read_word))]
pub(crate) fn read_word(fault: JsonFault) -> Option<&'static str>
    ensures { option_map (λ t. t.now) result ≡ read_word fault }
{
    match fault {
        JsonFault::NotJson => Some("NotJson"),
        JsonFault::TooDeep => Some("TooDeep"),
        JsonFault::NotWhole => Some("NotWhole"),
        JsonFault::NoMemory => None,
    }
}

// Rules that don't fit.
#[tactic(auto, unfolding(crate::specs::Words::fit_word))]
pub(crate) fn fit_word(reason: Why) -> &'static str
    ensures { result.now ≡ fit_word (why reason) }
{
    match reason {
        Why::NameTwice => "NameTwice",
        Why::NameMissing => "NameMissing",
        Why::SchemaDiffers => "SchemaDiffers",
        Why::UnpairedDefault => "UnpairedDefault",
        Why::RequiredLost => "RequiredLost",
        Why::RangeLost => "RangeLost",
    }
}
