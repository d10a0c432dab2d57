//! A value as the text, the list or the object that it is.
ghost use Rattle.std.specs.Prelude.{◌≡◌, option_map};
ghost use Rattle.kj_value.specs.Kinds.{as_list, as_object, as_text};
ghost use Rattle.kj_value.specs.Seen.{json};
ghost use Rattle.kj_value.specs.Texts.{bytes_of};

use crate::txt::Txt;
use crate::value::{JFields, JItems, JVal};

impl JVal {
    /// The text, where the value is one.
    pub fn as_text(&self) -> Option<&str>
        ensures { option_map (λ s. s.now) result ≡ as_text (json self.now) }
    {
        match self {
            JVal::Text(text) => Some(text.as_str()),
            _ => None,
        }
    }

    /// The list, where the value is one.
    #[tactic(auto, using(crate::specs::KindLaws::list_items))]
    pub fn as_list(&self) -> Option<&JItems>
        ensures { option_map (λ items. items.now) result ≡ as_list (json self.now) }
    {
        match self {
            JVal::List(items) => Some(items),
            _ => None,
        }
    }

    /// The object, where the value is one.
    #[tactic(auto, using(crate::specs::KindLaws::pairs_members))]
    pub fn as_object(&self) -> Option<&JFields>
        ensures { option_map (λ fields. fields.now) result ≡ as_object (json self.now) }
    {
        match self {
            JVal::Obj(fields) => Some(fields),
            _ => None,
        }
    }

    /// The text, where the value is one, to be moved out of it.
    pub fn into_text(self) -> Option<Txt>
        ensures { option_map bytes_of result ≡ as_text (json self) }
    {
        match self {
            JVal::Text(text) => Some(text),
            _ => None,
        }
    }

    /// The list, where the value is one, to be moved out of it.
    #[tactic(auto, using(crate::specs::KindLaws::list_items))]
    pub fn into_list(self) -> Option<JItems>
        ensures { result ≡ as_list (json self) }
    {
        match self {
            JVal::List(items) => Some(items),
            _ => None,
        }
    }

    /// The object, where the value is one, to be moved out of it.
    #[tactic(auto, using(crate::specs::KindLaws::pairs_members))]
    pub fn into_object(self) -> Option<JFields>
        ensures { result ≡ as_object (json self) }
    {
        match self {
            JVal::Obj(fields) => Some(fields),
            _ => None,
        }
    }
}
