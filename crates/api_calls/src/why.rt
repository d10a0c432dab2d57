//! Why a request is a bad one.
ghost use Rattle.std.specs.Prelude.{◌≡◌};
ghost use Rattle.api_calls.specs.Cause.{why_of, why_word};

use kj_value::Txt;

/// Why a request is answered 400 with the reason BadRequest.
#[derive(Drop)]
pub enum Why {
    /// The body is no JSON.
    NotJson,
    /// The body nests too deeply.
    TooDeep,
    /// A number of the body isn't a whole one of 64 bits signed.
    NotWhole,
    /// The body is no object.
    NotObject,
    /// Its `apiVersion` isn't the path's.
    WrongVersion,
    /// Its `kind` isn't the definition's.
    WrongKind,
    /// Its namespace isn't the path's.
    WrongNamespace,
    /// Its name isn't the path's.
    WrongName,
    /// A parameter of the query asks for what isn't served.
    BadQuery { parameter: Txt },
    /// The continue token is none, or is ahead of the revision.
    BadToken,
    /// The options of a delete aren't served.
    BadOptions,
}

impl Why {
    /// The word of the reason, as it stands in messages; that of a bad query has the parameter's name behind it there.
    /// It takes no memory.
    #[tactic(auto, unfolding(crate::specs::Cause::why_word))]
    pub fn word(&self) -> &'static str
        ensures { result.now ≡ why_word (why_of self.now) }
    {
        match self {
            Why::NotJson => "NotJson",
            Why::TooDeep => "TooDeep",
            Why::NotWhole => "NotWhole",
            Why::NotObject => "NotObject",
            Why::WrongVersion => "WrongVersion",
            Why::WrongKind => "WrongKind",
            Why::WrongNamespace => "WrongNamespace",
            Why::WrongName => "WrongName",
            Why::BadQuery { parameter: _ } => "BadQuery",
            Why::BadToken => "BadToken",
            Why::BadOptions => "BadOptions",
        }
    }
}
