//! Where the definition of a line comes from.
ghost use Rattle.std.specs.Prelude.{◌≡◌, None, Some};
ghost use Rattle.command_lines.specs.Given.{values_in, IsSource};

use crate::words::Given;

/// Where the definition of a line comes from.
#[derive(Clone, Copy)]
pub enum Source<'a> {
    /// It is built in.
    BuiltIn,
    /// It is that of a file, with the rules of conversion of another.
    Rules {
        crd: &'a str,
        rules: &'a str,
    },
    /// It is that of a file, with the version of the name as its hub, and its objects are turned by the converter at the address.
    Converter {
        crd: &'a str,
        hub: &'a str,
        url: &'a str,
    },
}

// The definition without a converter that the options name.
fn ruled<'a>(given: Given<'a>) -> Option<Source<'a>>
    requires hub { (values_in given).hub ≡ None }
    requires converter { (values_in given).converter ≡ None }
    ensures { IsSource (values_in given.entry) result }
{
    match given.crd {
        None => match given.rules {
            None => Some(Source::BuiltIn),
            Some(_) => None,
        },
        Some(crd) => match given.rules {
            None => None,
            Some(rules) => Some(Source::Rules { crd, rules }),
        },
    }
}

// The definition with a converter that the options name, of which one is the hub.
fn converted<'a>(given: Given<'a>, hub: &'a str) -> Option<Source<'a>>
    requires { (values_in given).hub ≡ Some hub.now }
    ensures { IsSource (values_in given.entry) result }
{
    match given.rules {
        Some(_) => None,
        None => match given.crd {
            None => None,
            Some(crd) => match given.converter {
                None => None,
                Some(url) => Some(Source::Converter { crd, hub, url }),
            },
        },
    }
}

/// The definition that the options name, or `None` exactly where they name none.
pub(crate) fn source_of<'a>(given: Given<'a>) -> Option<Source<'a>>
    ensures { IsSource (values_in given.entry) result }
{
    match given.hub {
        Some(hub) => converted(given, hub),
        None => match given.converter {
            Some(_) => None,
            None => ruled(given),
        },
    }
}
