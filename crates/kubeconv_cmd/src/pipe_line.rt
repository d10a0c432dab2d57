//! A line of `pipe`.
ghost use Rattle.std.specs.Prelude.{◌≡◌, ℕ, List, IfOk, IfErr, OnErr};
ghost use Rattle.edge_io.specs.Causes.{Rose};
ghost use Rattle.serve_input.specs.Conversed.{MayRise};
ghost use Rattle.command_lines.specs.Given.{source_of};
ghost use Rattle.kubeconv_cmd.specs.Outcome.{IfRuled};
ghost use Rattle.kubeconv_cmd.specs.Serving.{Conversation};
ghost use Rattle.kubeconv_cmd.specs.Sources.{Loaded, Means, faults_in, meaning_in};
ghost use Rattle.kubeconv_cmd.specs.inner.Ends.{IsWanting, Stops};

use crate::loading::{Converted, load_built_in, load_converted, load_files};
use crate::stop::Stop;
use api_calls::{NoTools, Tools, Versions};
use command_lines::Source as Definition;
use converter_links::ConverterLinks;
use edge_io::{Clock, Files, Sink, Source};
use serve_input::{PipeEnd, serve_input};
use std::alloc::Global;
use std::sync::Wait;
use tcp_links::Links;

// Answers the requests of the input by a definition and a tool of its own.
fn pipe_by<'a, V: Versions + Drop, M: Tools<V::Tool>, R: Wait, S: Source, K: Sink, C: Clock>(
    rt: &R,
    alloc: Global,
    versions: V,
    tools: &mut M,
    input: &mut S,
    output: &mut K,
    clock: &C,
    boot: u64,
    turns: u64,
) -> Result<PipeEnd, Stop<'a>>
    ensures held { IfOk result (Conversation (V.meaning versions) (MayRise V.Tool.faults) (record { boot = boot; told = C.told clock.now }) turns
        (record { tell = record { left = S.left; written = K.written; flushed = K.flushed }; most = S.most input.old; input_before = input.old; input = input.new; output_before = output.old; output = output.new })
        (Rose (S.faults input.old) (S.faults input.new)) (Rose (K.faults output.old) (K.faults output.new))) }
    ensures wanting { IfErr result IsWanting }
    ensures untouched { OnErr result ((input.new ≡ input.old) × (output.new ≡ output.old)) }
{
    let Ok(tool) = tools.make(alloc) else {
        return Err(Stop::NoMemory);
    };
    match serve_input(rt, alloc, versions, tool, input, output, clock, boot, turns) {
        Ok(end) => Ok(end),
        Err(_) => Err(Stop::NoMemory),
    }
}

/// Answers the requests of the input by the definition of a line, as `serve_input` does.
pub(crate) fn pipe<'a, R: Wait, F: Files, S: Source, K: Sink, L: Links, C: Clock>(
    rt: &R,
    alloc: Global,
    definition: Definition<'a>,
    turns: u64,
    files: &mut F,
    links: &mut L,
    input: &mut S,
    output: &mut K,
    clock: &C,
    boot: u64,
) -> Result<PipeEnd, Stop<'a>>
    ensures held { IfOk result (λ end. (l : Loaded) × Means (F.file files.old) (source_of definition.entry) l
        × Conversation (meaning_in l) (MayRise (faults_in l)) (record { boot = boot; told = C.told clock.now }) turns
        (record { tell = record { left = S.left; written = K.written; flushed = K.flushed }; most = S.most input.old; input_before = input.old; input = input.new; output_before = output.old; output = output.new })
        (Rose (S.faults input.old) (S.faults input.new)) (Rose (K.faults output.old) (K.faults output.new)) end) }
    ensures stops { IfErr result (Stops (Rose (F.faults files.old) (F.faults files.new)) (F.file files.old) (source_of definition.entry) ((files.new ≡ files.old) × (links.new ≡ links.old))) }
    ensures untouched { OnErr result ((input.new ≡ input.old) × (output.new ≡ output.old)) }
    ensures unlinked { IfRuled (source_of definition.entry) (links.new ≡ links.old) }
    ensures kept { (name : List ℕ) → F.file files.new name ≡ F.file files.old name }
{
    match definition {
        Definition::BuiltIn => match load_built_in(alloc) {
            Ok(versions) => pipe_by(
                rt,
                alloc,
                versions,
                &mut NoTools,
                input,
                output,
                clock,
                boot,
                turns,
            ),
            Err(_) => Err(Stop::NoMemory),
        },
        Definition::Rules { crd, rules } => match load_files(alloc, files, crd, rules) {
            Ok(versions) => pipe_by(
                rt,
                alloc,
                versions,
                &mut NoTools,
                input,
                output,
                clock,
                boot,
                turns,
            ),
            Err(stop) => Err(stop),
        },
        Definition::Converter { crd, hub, url } => {
            match load_converted(alloc, files, crd, hub, url) {
                Ok(found) => {
                    let Converted { versions, address } = found;
                    let mut tools = ConverterLinks::new(links, address);
                    pipe_by(
                        rt, alloc, versions, &mut tools, input, output, clock, boot, turns,
                    )
                }
                Err(stop) => Err(stop),
            }
        }
    }
}
