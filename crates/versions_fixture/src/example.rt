//! An object of the definition, a history of it, and its group.
ghost use Rattle.std.specs.Prelude.{◌≡◌, ◌∷◌, []};
ghost use Rattle.kj_value.specs.Text.{text_of};
ghost use Rattle.api_calls.specs.Documents.{AreOffered, group_document};
ghost use Rattle.api_calls.specs.Legal.{IsLegal};
ghost use Rattle.versions_fixture.specs.Definition.{AreOne, IsFixtureHub, storing, two_names};
ghost use Rattle.versions_fixture.specs.Example.{example, example_group, example_stored};
ghost use Rattle.versions_fixture.specs.History.{history, narrow};

/// There is a hub value, with its forms at both versions: no promise of the definition is empty. The function does
/// nothing, and its clauses are the facts.
pub fn has_an_object()
    ensures whole { IsFixtureHub example }
    ensures hub { AreOne 0 example example }
    ensures stored { AreOne 1 example example_stored }
{}

/// There is a legal history in which a migration moves an object. The function does nothing, and its clause is the fact.
pub fn has_a_history()
    ensures { IsLegal two_names narrow history }
{}

/// Both versions are offered, v1 first, and this is the group's document. The function does nothing, and its clauses are
/// the facts.
pub fn has_a_group()
    ensures offered { AreOffered two_names (storing 1) (0 ∷ 1 ∷ []) }
    ensures text { text_of (group_document two_names 0 (1 ∷ [])) ≡ example_group }
{}
