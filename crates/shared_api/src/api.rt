//! The core that callers share, and the right to call.
ghost use Rattle.std.specs.Prelude.{◌≡◌, ◌+◌, ◌<◌, ◌^◌, [], IfOk, OnErr, OnOk};
ghost use Rattle.form_cache.specs.Forms.{forms_of};
ghost use Rattle.form_cache.specs.Limits.{forms_of_a_pass};
ghost use Rattle.turn_cell.specs.Turns.{IsNew, Meets};
ghost use Rattle.turn_cell.specs.Views.{opening_view, halved};
ghost use Rattle.shared_api.specs.Passes.{IsOf};

use crate::bell::Bell;
use crate::cell::{CoreBase, CoreCell};
use api_calls::Versions;
use api_core::Core;
use call_texts::Context;
use form_cache::{FormCache, PASS_FORMS};
use kj_value::NoMemory;
use kube_meta::Limits;
use std::alloc::Global;
use std::marker::Model;
use std::sync::{Arc, Wait};
use turn_cell::{PassOf, Turn};

/// The server of a definition, which callers share. Contracts see the table of its turn, and what no call changes: the
/// definition, the limits and the number of the server's start.
pub struct SharedApi<V: Versions + Drop> {
    pub(crate) alloc: Global,
    pub(crate) turn: Turn<CoreCell<V>>,
    pub(crate) versions: Arc<V>,
    pub(crate) limits: Limits,
    pub(crate) boot: u64,
    pub(crate) bell: Bell,
}

impl<V: Versions + Drop> Drop for SharedApi<V> {
    fn drop(self) {
        let SharedApi {
            alloc: _,
            turn: _,
            versions: _,
            limits: _,
            boot: _,
            bell: _,
        } = self;
    }
}

impl<V: Versions + Drop> Model for SharedApi<V> {
    ghost use Rattle.std.specs.Arc.{arc_value};
    ghost use Rattle.shared_api.specs.Passes.{ApiOf, api_code};
    ghost use Rattle.shared_api.specs.declared.cell.CoreBase.{CoreBase};

    ghost Value = { ApiOf (CoreBase V) };

    ghost coded = { api_code V.code };

    ghost view = { λ a. record {
      table = a.turn.table.shared.table_id;
      base = record { versions = arc_value a.versions; limits = a.limits; boot = a.boot };
    } };
}

/// The right to call, with a tool and a cache of the texts that it last showed. Contracts see its table, what it has seen, its
/// tool, and the forms in its cache. It rests between two calls.
#[derive(Drop)]
pub struct Pass<V: Versions + Drop> {
    pub(crate) turn: PassOf<CoreCell<V>, CoreBase<V>>,
    pub(crate) tool: V::Tool,
    pub(crate) cache: FormCache,
}

impl<V: Versions + Drop> Model for Pass<V> {
    ghost use Rattle.std.specs.Prelude.{◌≡◌};
    ghost use Rattle.turn_cell.specs.Turns.{IsResting};
    ghost use Rattle.shared_api.specs.Passes.{Known, known_code, base_code};
    ghost use Rattle.shared_api.specs.declared.cell.CoreBase.{CoreBase};

    ghost Value = { Known (CoreBase V) V.Tool };

    ghost coded = { known_code (base_code V.code) V.Tool.code };

    ghost view = { λ p. record { table = p.turn.seat.table_id; view = p.turn.seat.me.0; tool = p.tool; forms = p.cache } };

    ghost invariant = { λ p. IsResting p.turn.seat.me.0 };
}

impl<V: Versions + Drop> SharedApi<V> {
    /// The server of a definition to which nothing has happened, with the definition's opening flags, and its first pass,
    /// which is alone and has seen nothing. `boot` is the number of its start. It takes the memory that these limits ask
    /// for, and that of the pass's cache, which is empty and holds 256 texts at most; `NoMemory` comes where there is none.
    pub fn open(
        alloc: Global,
        versions: V,
        tool: V::Tool,
        limits: Limits,
        boot: u64,
    ) -> Result<(SharedApi<V>, Pass<V>), NoMemory>
        requires { limits.chunks + limits.window_chunks < 2 ^ 32 }
        ensures of { IfOk result (λ r. IsOf V.meaning r.0 r.1) }
        ensures base { IfOk result (λ r. r.0.base ≡ record { versions = versions; limits = limits; boot = boot }) }
        ensures new { IfOk result (λ r. r.1.view ≡ opening_view r.0.base) }
        ensures tool { IfOk result (λ r. r.1.tool ≡ tool) }
        ensures cache { IfOk result (λ r. r.1.forms ≡ forms_of [] forms_of_a_pass) }
    {
        let versions = Arc::new(alloc, versions)?;
        let again = versions.clone()?;
        let core = Core::open(alloc, again, limits, boot)?;
        let cache = FormCache::open(alloc, PASS_FORMS)?;
        let core = Box::new(alloc, core)?;
        let (turn, pass) = Turn::open(alloc, CoreCell { core })?;
        let api = SharedApi {
            alloc,
            turn,
            versions,
            limits,
            boot,
            bell: Bell::new(),
        };
        let pass = Pass {
            turn: pass,
            tool,
            cache,
        };
        Ok((api, pass))
    }

    /// A pass of its own, which has seen what `from` has seen, and has half of its share. It takes the memory of its cache,
    /// which is empty and holds 256 texts at most. At `NoMemory` there is no new pass, and `from` is as it was. It may wait
    /// for another call that makes a pass.
    pub fn new_pass<R: Wait>(
        &self,
        rt: &R,
        from: &mut Pass<V>,
        tool: V::Tool,
    ) -> Result<Pass<V>, NoMemory>
        requires of { IsOf V.meaning self.now from.old }
        ensures of { IsOf V.meaning self.now from.new × IfOk result (λ p. IsOf V.meaning self.now p) }
        ensures left { OnOk result (from.new ≡ record from.old { view = halved from.old.view }) }
        ensures refused { OnErr result (from.new ≡ from.old) }
        ensures new { IfOk result (λ p. IsNew from.old.view p.view) }
        ensures tool { IfOk result (λ p. p.tool ≡ tool) }
        ensures cache { IfOk result (λ p. p.forms ≡ forms_of [] forms_of_a_pass) }
    {
        let cache = FormCache::open(self.alloc, PASS_FORMS)?;
        let turn = self.turn.new_pass(rt, &mut from.turn)?;
        Ok(Pass { turn, tool, cache })
    }

    /// Takes in another pass: what it had seen, its numbers and its share. Afterwards `into` has seen the longer of the two
    /// lists, and each is a beginning of it. The other tool and the other cache are dropped. It takes no memory.
    pub fn meet(&self, into: &mut Pass<V>, from: Pass<V>)
        requires of { IsOf V.meaning self.now into.old × IsOf V.meaning self.now from }
        ensures of { IsOf V.meaning self.now into.new }
        ensures met { Meets into.old.view from.view into.new.view }
        ensures tool { into.new.tool ≡ into.old.tool }
        ensures cache { into.new.forms ≡ into.old.forms }
    {
        let Pass {
            turn,
            tool: _,
            cache: _,
        } = from;
        self.turn.meet(&mut into.turn, turn);
    }

    /// The definition. It takes no memory.
    pub fn versions(&self) -> &V
        ensures { result.now ≡ self.now.base.versions }
    {
        &*self.versions
    }

    /// What wakes workers that rest: each `set_versions` that isn't refused and each `start_migration` that starts one rings it
    /// behind its turn.
    pub fn bell(&self) -> &Bell {
        &self.bell
    }

    // What no call changes, lent.
    pub(crate) fn given(&self) -> Context<'_, V>
        ensures versions { result.versions.now ≡ self.now.base.versions }
        ensures boot { result.boot ≡ self.now.base.boot }
    {
        Context {
            alloc: self.alloc,
            versions: &*self.versions,
            boot: self.boot,
        }
    }
}
