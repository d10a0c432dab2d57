//! A form that is given back to the server that showed it is admitted with the value that it was shown of, whatever the version: so an
//! object that is put back as it was listed, or posted as it was dumped, loses nothing; and one that is put back is admitted, where its
//! value isn't too large.
//!
//! Each law is the contract of a function that does nothing. It speaks of what a loaded definition means, and knows nothing of stores.
ghost use Rattle.crd_laws.specs.Loaded.{loaded_meaning};
ghost use Rattle.crd_meaning.specs.Definition.{Definition};
ghost use Rattle.crd_settings.specs.SettledLaws.{settings_of};
ghost use Rattle.far_laws.specs.GivenBack.{GivesBack};
ghost use Rattle.far_laws.specs.TakenBack.{TakesBack};

use crd_meaning::{known, one_hub, standing, unstamped};
use keep_laws::object_laws::settling;
use kj_value::{one_reading, text_reads};
use object_reading::read_back;
use struct_schema::faults;

/// What a form is admitted with is the value of which it is the form, but for stamps and generation, which are the server's.
pub fn gives_back()
    ensures { (d : Definition) → GivesBack (loaded_meaning d (settings_of d.view)) }
{
    known();
    one_hub();
    standing();
    unstamped();
    settling();
    one_reading();
    text_reads();
    read_back();
}

/// A form that is put back over its number is admitted with the value of which it is the form, but for stamps and generation, where that
/// value measures at most 262,144 bytes at every version.
pub fn takes_back()
    ensures { (d : Definition) → TakesBack (loaded_meaning d (settings_of d.view)) }
{
    known();
    one_hub();
    standing();
    unstamped();
    settling();
    one_reading();
    text_reads();
    read_back();
    faults();
}
