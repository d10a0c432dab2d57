//! A line of `serve`.
ghost use Rattle.std.specs.Prelude.{◌≡◌, ◌≤◌, ℕ, List, IfErr, OnOk};
ghost use Rattle.kube_meta.specs.declared.limits.TheConstants.Limits.{STANDING};
ghost use Rattle.turn_cell.specs.Views.{opening_view};
ghost use Rattle.shared_api.specs.Passes.{IsOf};
ghost use Rattle.edge_io.specs.Causes.{Rose};
ghost use Rattle.output_lines.specs.Listening.{NamesPlace};
ghost use Rattle.command_lines.specs.Given.{listening_of, source_of};
ghost use Rattle.serve_many.specs.Answered.{sides};
ghost use Rattle.kubeconv_cmd.specs.Outcome.{IfRuled};
ghost use Rattle.kubeconv_cmd.specs.Serving.{Service};
ghost use Rattle.kubeconv_cmd.specs.inner.Ends.{Serves, met_of, service_status};

use crate::loading::{Converted, load_built_in, load_converted, load_files};
use crate::stop::{Stop, Unmet};
use api_calls::{NoTools, Tools, Versions};
use command_lines::{Listening, Source};
use converter_links::ConverterLinks;
use edge_io::{Clock, Ears, Files, Sink};
use kube_meta::Limits;
use output_lines::{Unserved, listen_at};
use serve_many::{ServeEnd, serve_all};
use shared_api::{Pass, SharedApi};
use std::alloc::Global;
use std::sync::Wait;
use std::thread::Threads;
use std::time;
use tcp_ears::Place;
use tcp_links::Links;

// Listens at a place, and answers connections there by a server to which nothing has happened.
fn serve_opened<
    V: Versions + Drop + Send + Sync,
    M: Tools<V::Tool>,
    R: Threads + Wait + time::Clock + Sync,
    K: Sink,
    A: Ears + Place + Send,
    C: Clock + Sync,
>(
    rt: &R,
    alloc: Global,
    api: &SharedApi<V>,
    pass: &mut Pass<V>,
    tools: &mut M,
    listening: Listening<'_>,
    output: &mut K,
    ears: &mut A,
    clock: &C,
) -> Result<(), Unserved>
where
    V::Tool: Send,
    requires of { IsOf V.meaning api.now pass.old }
    requires new { pass.old.view ≡ opening_view api.now.base }
    requires limits { api.now.base.limits ≡ STANDING }
    ensures came { Service V.Tool.faults (sides A.In.left A.In.most A.Out.written A.Out.flushed) (V.meaning api.now.base.versions) (record { boot = api.now.base.boot; told = C.told clock.now }) (listening_of listening.entry) (record {
      handed_before = A.origins ears.old;
      handed = A.origins ears.new;
      returned_before = A.returned ears.old;
      returned = A.returned ears.new;
      faults_before = A.faults ears.old;
      faults = A.faults ears.new;
      written_before = K.written output.old;
      written = K.written output.new;
      flushed = K.flushed output.new;
      output_faults_before = K.faults output.old;
      output_faults = K.faults output.new;
    }) (service_status result) }
    ensures place { NamesPlace (A.is_told listening.entry.place.now) (K.written output.old) (K.written output.new) }
{
    match listen_at(alloc, listening.place, output, ears) {
        Ok(()) => {}
        Err(why) => return Err(why),
    }
    let served = serve_all(
        rt,
        alloc,
        api,
        pass,
        tools,
        ears,
        clock,
        listening.workers(),
        listening.connections,
    );
    match served.end {
        ServeEnd::Done => Ok(()),
        ServeEnd::EarsFault => Err(Unserved::NotListening),
        ServeEnd::NoMemory => Err(Unserved::NoMemory),
    }
}

// Answers connections by a definition, from a server that begins with nothing entered. Each pass has a tool of its own.
fn serve_by<
    V: Versions + Drop + Send + Sync,
    M: Tools<V::Tool>,
    R: Threads + Wait + time::Clock + Sync,
    K: Sink,
    A: Ears + Place + Send,
    C: Clock + Sync,
>(
    rt: &R,
    alloc: Global,
    versions: V,
    tools: &mut M,
    listening: Listening<'_>,
    output: &mut K,
    ears: &mut A,
    clock: &C,
    boot: u64,
) -> Result<(), Unserved>
where
    V::Tool: Send,
    ensures came { Service V.Tool.faults (sides A.In.left A.In.most A.Out.written A.Out.flushed) (V.meaning versions) (record { boot = boot; told = C.told clock.now }) (listening_of listening.entry) (record {
      handed_before = A.origins ears.old;
      handed = A.origins ears.new;
      returned_before = A.returned ears.old;
      returned = A.returned ears.new;
      faults_before = A.faults ears.old;
      faults = A.faults ears.new;
      written_before = K.written output.old;
      written = K.written output.new;
      flushed = K.flushed output.new;
      output_faults_before = K.faults output.old;
      output_faults = K.faults output.new;
    }) (service_status result) }
    ensures place { NamesPlace (A.is_told listening.entry.place.now) (K.written output.old) (K.written output.new) }
{
    let Ok(tool) = tools.make(alloc) else {
        return Err(Unserved::NoMemory);
    };
    let Ok((api, mut pass)) = SharedApi::open(alloc, versions, tool, Limits::STANDING, boot) else {
        return Err(Unserved::NoMemory);
    };
    serve_opened(
        rt, alloc, &api, &mut pass, tools, listening, output, ears, clock,
    )
}

// How a line ends whose definition was loaded.
fn met<'a>(came: Result<(), Unserved>) -> Result<(), Unmet<'a>>
    ensures { result ≡ met_of came }
{
    match came {
        Ok(()) => Ok(()),
        Err(why) => Err(Unmet::Unserved(why)),
    }
}

/// Answers connections by the definition of a line.
pub(crate) fn serve<
    'a,
    R: Threads + Wait + time::Clock + Sync,
    F: Files,
    K: Sink,
    A: Ears + Place + Send,
    L: Links,
    C: Clock + Sync,
>(
    rt: &R,
    alloc: Global,
    source: Source<'a>,
    listening: Listening<'_>,
    files: &mut F,
    links: &mut L,
    output: &mut K,
    ears: &mut A,
    clock: &C,
    boot: u64,
) -> Result<(), Unmet<'a>>
where
    L::One: Sync,
    ensures came { Serves (sides A.In.left A.In.most A.Out.written A.Out.flushed) (F.file files.old) (source_of source.entry) (record { boot = boot; told = C.told clock.now }) (listening_of listening.entry) (record {
      handed_before = A.origins ears.old;
      handed = A.origins ears.new;
      returned_before = A.returned ears.old;
      returned = A.returned ears.new;
      faults_before = A.faults ears.old;
      faults = A.faults ears.new;
      written_before = K.written output.old;
      written = K.written output.new;
      flushed = K.flushed output.new;
      output_faults_before = K.faults output.old;
      output_faults = K.faults output.new;
    }) (Rose (F.faults files.old) (F.faults files.new)) ((files.new ≡ files.old) × (links.new ≡ links.old)) ((output.new ≡ output.old) × (ears.new ≡ ears.old)) result }
    ensures place { NamesPlace (A.is_told listening.entry.place.now) (K.written output.old) (K.written output.new) }
    ensures unlinked { IfRuled (source_of source.entry) (links.new ≡ links.old) }
    ensures kept { (name : List ℕ) → F.file files.new name ≡ F.file files.old name }
{
    match source {
        Source::BuiltIn => match load_built_in(alloc) {
            Ok(versions) => met(serve_by(
                rt,
                alloc,
                versions,
                &mut NoTools,
                listening,
                output,
                ears,
                clock,
                boot,
            )),
            Err(_) => Err(Unmet::Stopped(Stop::NoMemory)),
        },
        Source::Rules { crd, rules } => match load_files(alloc, files, crd, rules) {
            Ok(versions) => met(serve_by(
                rt,
                alloc,
                versions,
                &mut NoTools,
                listening,
                output,
                ears,
                clock,
                boot,
            )),
            Err(stop) => Err(Unmet::Stopped(stop)),
        },
        Source::Converter { crd, hub, url } => match load_converted(alloc, files, crd, hub, url) {
            Ok(found) => {
                let Converted { versions, address } = found;
                let mut tools = ConverterLinks::new(links, address);
                met(serve_by(
                    rt, alloc, versions, &mut tools, listening, output, ears, clock, boot,
                ))
            }
            Err(stop) => Err(Unmet::Stopped(stop)),
        },
    }
}
