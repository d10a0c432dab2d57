//! The far end.
ghost use Rattle.std.specs.Prelude.{◌≡◌, None, Some, IfErr, IfOk, IsSome};
ghost use Rattle.api_calls.specs.Item.{items};
ghost use Rattle.shared_api.specs.Passes.{IsOf};
ghost use Rattle.wire_client.specs.Far.{Served};
ghost use Rattle.far_laws.specs.Answering.{GoesOn};
ghost use Rattle.far_server.specs.Serving.{speaker_of};

use crate::answering::answer_on;
use api_calls::Versions;
use edge_io::{FixedClock, Link, LinkFault, SureSink, SureSource};
use http_front::serve_link;
use kj_value::NoMemory;
use shared_api::{CoreBase, Pass, SharedApi};
use std::alloc::Global;
use std::marker::Model;
use std::sync::Wait;
use wire_client::{Far, Serving};

/// What the server is of. No value of it is made.
pub struct FarBase<V> {
    pub base: CoreBase<V>,
}

impl<V: Versions + Drop> Serving for FarBase<V> {
    ghost server = { λ b. speaker_of V.meaning b.base };
}

/// A far end that is a server in memory, on a pass of its own. Each exchange is one connection with one request; where no answer
/// comes, since memory or room was wanted, or the bytes are no request that asks for closing, it tells want of memory. Before each
/// exchange the next connection of others is served, as long as there are any, on another pass.
#[derive(Drop)]
pub struct ServerFar<'a, R, V: Versions + Drop> {
    rt: &'a R,
    api: &'a SharedApi<V>,
    pass: Pass<V>,
    other: Pass<V>,
    others: Vec<Vec<u8>>,
    clock: FixedClock,
}

impl<'a, R, V: Versions + Drop> Model for ServerFar<'a, R, V> {
    ghost use Rattle.api_calls.specs.Item.{items};
    ghost use Rattle.shared_api.specs.Passes.{base_code};
    ghost use Rattle.shared_api.specs.declared.cell.CoreBase.{CoreBase};
    ghost use Rattle.far_server.specs.Serving.{FarView, IsServing, far_code};

    ghost Value = { FarView (CoreBase V) };

    ghost coded = { far_code (base_code V.code) };

    ghost view = { λ s. record { base = s.api.now.base; seen = s.pass.view.seen } };

    ghost invariant = { λ s. IsServing V.meaning s.api.now s.pass s.other };
}

impl<'a, R: Wait, V: Versions + Drop> ServerFar<'a, R, V> {
    /// A far end of this server, on a pass that was made by it and has a number. The input of each connection of others is served on
    /// the other pass before an exchange, in order.
    pub fn new(
        rt: &'a R,
        api: &'a SharedApi<V>,
        pass: Pass<V>,
        other: Pass<V>,
        others: Vec<Vec<u8>>,
        clock: FixedClock,
    ) -> ServerFar<'a, R, V>
        requires of { IsOf V.meaning api.now pass }
        requires other { IsOf V.meaning api.now other }
        requires named { IsSome pass.view.number }
        ensures { (result.base ≡ api.now.base) × (result.seen ≡ pass.view.seen) }
    {
        let mut others = others;
        others.reverse();
        ServerFar {
            rt,
            api,
            pass,
            other,
            others,
            clock,
        }
    }

    // Serves the next connection of others, if any.
    fn let_others(&mut self, alloc: Global)
        ensures { self.new ≡ self.old }
    {
        if let Some(input) = self.others.pop() {
            let mut source = SureSource::new(input);
            let mut sink = SureSink;
            let _end = serve_link(
                self.rt,
                alloc,
                self.api,
                &mut self.other,
                &mut source,
                &mut sink,
                &self.clock,
            );
        }
    }

    // The bytes of the one answer, where there is one.
    fn answer(&mut self, alloc: Global, request: &[u8]) -> Result<Vec<u8>, NoMemory>
        ensures base { self.new.base ≡ self.old.base }
        ensures answered { IfOk result (λ v. Served (speaker_of V.meaning self.old.base) (items self.old.seen) request.now v.items (items self.new.seen)) }
        ensures goes_on { GoesOn (items self.old.seen) (items self.new.seen) }
    {
        self.let_others(alloc);
        answer_on(
            self.rt,
            alloc,
            self.api,
            &mut self.pass,
            &self.clock,
            request,
        )
    }
}

impl<'a, R: Wait, V: Versions + Drop> Link for ServerFar<'a, R, V> {
    ghost exchanges = { λ f. None };

    ghost faults = { λ f. 0 };

    fn exchange(&mut self, alloc: Global, request: &[u8]) -> Result<Vec<u8>, LinkFault> {
        Ok(self.answer(alloc, request)?)
    }
}

impl<'a, R: Wait, V: Versions + Drop> Far for ServerFar<'a, R, V> {
    type Of = FarBase<V>;

    ghost base = { λ f. record { base = f.base } };

    ghost log = { λ f. Some (items f.seen) };

    fn send(&mut self, alloc: Global, request: &[u8]) -> Result<Vec<u8>, LinkFault> {
        Ok(self.answer(alloc, request)?)
    }
}
