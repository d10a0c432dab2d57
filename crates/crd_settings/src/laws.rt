//! What holds of every body that is read. The function does nothing, and its clauses are the laws.
ghost use Rattle.std.specs.Prelude.{ℕ, List};
ghost use Rattle.api_calls.specs.Versions.{DecidesBodies};
ghost use Rattle.api_calls.specs.declared.flags.Flags.{Flags};
ghost use Rattle.crd_reading.specs.View.{DefinitionView};
ghost use Rattle.crd_settings.specs.Setting.{Sets, RefusesFlags};
ghost use Rattle.crd_settings.specs.Keeping.{KeepsVersions, RefusesKeep};

/// A body sets flags or is refused for one reason, and not both; and so it is with a body that keeps stored versions.
pub fn decided()
    ensures flags { (d : DefinitionView) → DecidesBodies Flags (Sets d) (RefusesFlags d) }
    ensures keep { (d : DefinitionView) → DecidesBodies (List ℕ) (KeepsVersions d) (RefusesKeep d) }
{}
