//! The laws of a definition as closed terms, for the ghost members of a type that holds one: of a definition that was loaded with rules
//! (`specs/DefinitionLaws.antt`), and of one whose objects a converter turns, with what that means (`specs/Hook.antt`). What the laws take
//! is a proposition each, as that a text spells one list of entries, that the definition was loaded, and that its versions may be offered
//! together; so a struct can keep it in a ghost field.
//!
//! It has no code, and knows nothing of how a definition is held in memory, nor of where converters run.
#![tactic(auto)]
