//! A definition with the fitted rules of its spokes.
ghost use Rattle.std.specs.Prelude.{◌≡◌};
ghost use Rattle.crd_loading.specs.View.{IsTogether};

use crd_reading::Definition;
use hub_cells::Fitted;
use std::marker::Model;

/// A definition, which of its versions is the hub, and the fitted rules of each other version, in the order
/// of the versions. Each `Fitted` stands for the schema of its version and the hub's, and no names of objects
/// lead to it.
pub struct Loaded {
    definition: Definition,
    hub: usize,
    spokes: Vec<Fitted>,
}

impl Drop for Loaded {
    fn drop(self) {
        let Loaded {
            definition: _,
            hub: _,
            spokes: _,
        } = self;
    }
}

impl Model for Loaded {
    ghost use Rattle.crd_loading.specs.View.{LoadedView, IsTogether};
    ghost use Rattle.crd_loading.specs.inner.ViewCode.{loaded_code};

    ghost Value = { LoadedView };

    ghost coded = { loaded_code };

    ghost view = { λ l. record {
      definition = l.definition;
      hub = l.hub;
      spokes = l.spokes.items;
    } };

    ghost invariant = { λ l. IsTogether (record {
      definition = l.definition;
      hub = l.hub;
      spokes = l.spokes.items;
    }) };
}

impl Loaded {
    pub(crate) fn new(definition: Definition, hub: usize, spokes: Vec<Fitted>) -> Loaded
        requires { IsTogether (record {
          definition = definition;
          hub = hub;
          spokes = spokes.items;
        }) }
        ensures { result ≡ record {
          definition = definition;
          hub = hub;
          spokes = spokes.items;
        } }
    {
        Loaded {
            definition,
            hub,
            spokes,
        }
    }

    /// The definition.
    pub fn definition(&self) -> &Definition
        ensures { result.now ≡ self.now.definition }
    {
        &self.definition
    }

    /// The place of the hub among the versions, counted from 0.
    pub fn hub(&self) -> usize
        ensures hub { result ≡ self.now.hub }
        ensures together { IsTogether self.now }
    {
        self.hub
    }

    /// The fitted rules of the versions but the hub, in their order.
    pub fn spokes(&self) -> &[Fitted]
        ensures spokes { result.now ≡ self.now.spokes }
        ensures together { IsTogether self.now }
    {
        self.spokes.as_slice()
    }

    /// The parts: the definition, the hub's place, and the fits of the spokes. It copies nothing.
    pub fn into_parts(self) -> (Definition, usize, Vec<Fitted>)
        ensures definition { result.0 ≡ self.definition }
        ensures hub { result.1 ≡ self.hub }
        ensures spokes { result.2.items ≡ self.spokes }
        ensures together { IsTogether self }
    {
        let Loaded {
            definition,
            hub,
            spokes,
        } = self;
        (definition, hub, spokes)
    }
}
