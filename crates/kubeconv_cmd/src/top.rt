//! The top call.
ghost use Rattle.std.specs.Prelude.{◌≡◌, ◌≢◌, ℕ, List};
ghost use Rattle.std.specs.Io.KnownBytes.{append_known};
ghost use Rattle.edge_io.specs.Causes.{Rose};
ghost use Rattle.output_lines.specs.Listening.{NamesPlace};
ghost use Rattle.command_lines.specs.Given.{line_of};
ghost use Rattle.command_lines.specs.Lines.{Line, IsLine};
ghost use Rattle.serve_many.specs.Answered.{sides};
ghost use Rattle.kubeconv_cmd.specs.Outcome.{IfServes, IsPlaceless, Outcome};
ghost use Rattle.kubeconv_cmd.specs.Status.{error_line};

use crate::drill_line::do_drill;
use crate::loading::load_files;
use crate::pipe_line::pipe;
use crate::serve_line::serve;
use crate::status::{
    BAD_ANSWER, BAD_INPUT, BAD_WORDS, NO_MEMORY, REFUSED, ended, tell_dumped, tell_loaded,
    tell_migrated, tell_pipe, tell_served, tell_stop, tell_task,
};
use crate::tasks::do_task;
use command_lines::{Command, Words, read_command};
use edge_io::{Clock, Ears, Files, Sink, Source};
use far_lines::{dump_line, load_line, migrate_line};
use std::alloc::Global;
use std::sync::Wait;
use std::thread::Threads;
use std::time;
use tcp_ears::Place;
use tcp_links::Links;

// Does what the words ask for.
fn run_command<
    R: Threads + Wait + time::Clock + Sync,
    F: Files,
    S: Source,
    K: Sink,
    E: Sink,
    A: Ears + Place + Send,
    L: Links,
    C: Clock + Sync,
>(
    rt: &R,
    alloc: Global,
    command: Command<'_>,
    files: &mut F,
    input: &mut S,
    output: &mut K,
    errors: &mut E,
    ears: &mut A,
    links: &mut L,
    clock: &C,
    boot: u64,
) -> u8
where
    L::One: Sync,
    ensures outcome { Outcome (record {
      tells = record {
        file = F.file;
        files_faults = F.faults;
        left = S.left;
        most = S.most;
        input_faults = S.faults;
        written = K.written;
        flushed = K.flushed;
        output_faults = K.faults;
        said = E.written;
        errors_faults = E.faults;
        handed = A.origins;
        returned = A.returned;
        ears_faults = A.faults;
        sides = sides A.In.left A.In.most A.Out.written A.Out.flushed;
        linked = L.returned;
      };
      start = record { boot = boot; told = C.told clock.now };
      before = record { files = files.old; input = input.old; output = output.old; errors = errors.old; ears = ears.old; links = links.old };
      after = record { files = files.new; input = input.new; output = output.new; errors = errors.new; ears = ears.new; links = links.new };
    }) (line_of command.entry) result }
    ensures place { IfServes (line_of command.entry) (λ place. NamesPlace (A.is_told place) (K.written output.old) (K.written output.new)) }
    ensures unused { result ≡ BAD_WORDS → links.new ≡ links.old }
    ensures errors { result ≢ REFUSED → result ≢ BAD_INPUT → result ≢ BAD_ANSWER → ¬ (Rose (E.faults errors.old) (E.faults errors.new))
        → E.written errors.new ≡ append_known (E.written errors.old) (error_line result) }
    ensures kept { (name : List ℕ) → F.file files.new name ≡ F.file files.old name }
{
    match command {
        Command::Pipe { source, turns } => {
            let came = pipe(
                rt, alloc, source, turns, files, links, input, output, clock, boot,
            );
            tell_pipe(errors, came)
        }
        Command::Task { crd, rules, task } => match load_files(alloc, files, crd, rules) {
            Ok(versions) => {
                let came = do_task(alloc, &versions, task, input, output);
                tell_task(errors, came)
            }
            Err(stop) => tell_stop(errors, stop),
        },
        Command::Drill { start, count } => {
            let came = do_drill(rt, alloc, start, count, output);
            tell_task(errors, came)
        }
        Command::Serve { source, listening } => {
            let came = serve(
                rt, alloc, source, listening, files, links, output, ears, clock, boot,
            );
            tell_served(errors, came)
        }
        Command::Migrate { url } => {
            let came = migrate_line(alloc, url, links, output);
            tell_migrated(errors, came)
        }
        Command::Dump { url } => {
            let came = dump_line(alloc, url, links, output);
            tell_dumped(errors, came)
        }
        Command::Load { url } => {
            let came = load_line(alloc, url, links, input, output);
            tell_loaded(errors, came)
        }
    }
}

/// Does what the words say, and answers the status of the program. The words are a command and its options in any order, each
/// given once, as `--x v` or as `--x=v`, or `drill` and its two numbers. A value isn't empty and doesn't begin with `-`.
///
/// - `pipe`, or `pipe --crd FILE --rules FILE`, either with `--turns N`: the requests of `input` are answered on `output`, by the
///   definition that is built in or by that of the two files, from a server that begins with no objects and has the number `boot`.
///   After each answer one worker of migrations takes N turns, 0 to 1,000, and 0 where no number is given. N is spelled in decimal
///   digits without leading zeros. The worker keeps its claim from one answer to the next.
/// - `pipe --crd FILE --hub VERSION --converter URL`, with `--turns N`: the same by the definition of the file, with the version as its hub and
///   without rules. Its objects are turned by the converter at the URL, `http://HOST[:PORT][/PATH]`, which is asked over a link that `links`
///   make. Where it fails, or an answer of it fails a test, the request is answered 502 and enters nothing, and a worker's turn comes to
///   nothing; the input is answered on.
/// - `convert --crd FILE --rules FILE --to VERSION`: `input` is one document, and what is written is the text of its value at the
///   version, with the end of a line.
/// - `review --crd FILE --rules FILE`: `input` is a review of a request, and what is written is the text of its response, with the
///   end of a line.
/// - `drill START COUNT`, START below 2^63 and COUNT up to 100,000, each spelled as N is: on a server of the definition of the shared
///   example, to which nothing has happened, COUNT steps are taken that a generator draws from the state START on, then turns of a
///   worker until it has nothing to do; what is written is nine lines that count what the replies were. It reads no file and no input.
///
/// - `serve --crd FILE --rules FILE --listen ADDRESS`, with `--workers N`, 0 to 15 and 2 where no number is given, and `--connections N`, 1 to
///   1,000,000: `ears` listen at the address, and `listening on ADDRESS` is written with the end of a line, where the address has the port
///   that was taken. Then connections are answered beside each other, so many or, where no number is given, as many as come, with so many
///   workers of migrations beside them. It reads no input.
/// - `serve --crd FILE --hub VERSION --converter URL --listen ADDRESS`, with the same options: the same by such a definition. Each connection
///   and each worker asks the converter over a link of its own.
///
/// - `migrate URL`, the address of a place `http://HOST[:PORT]/apis/GROUP/VERSION/PLURAL`: over one link that `links` make to its server all
///   objects are listed, and each is put back as it came. Then five lines are written, of a word, a space and a number: how many objects the
///   last list had (`listed`), and of how many the put was answered with another number (`written`), with the same (`unchanged`), that they
///   are gone (`gone`), and four times that they had changed (`contested`). It reads no file and no input.
///
/// - `dump URL`, with such an address: over one link all objects are listed, and each is written as a line, its compact text without the
///   five fields of its metadata that a server sets anew. It reads no file and no input.
///
/// - `load URL`, with such an address: each line of `input` is posted over one link, in order, as a new object. Then two lines are written,
///   of a word, a space and a number: how many were created (`created`), and how many were there already (`present`). It reads no file.
///
/// The definition's file is read first, then that of the rules, and then both are loaded; nothing of the input is read before that.
/// The input of `convert` and `review` has at most 4,194,304 bytes. Whether there is a version of the name is asked before it is read.
///
/// | status | comes where |
/// |---|---|
/// | 0 | of `pipe` the input was read to its end between two requests, or an answered request asked for closing; of `serve` as many connections were given back as were asked for; of the others what is written was written |
/// | 2 | exactly where the words are no such line, or the URL isn't the address of a place or of a converter; nothing is read or written then but the error line |
/// | 3 | a file is longer than 4,194,304 bytes, isn't UTF-8, or something of it is refused, or no version of it has the name of the hub |
/// | 4 | the input of `convert` or `review` is too long or refused, or no version has the name, or a line of the input of `load` is refused; nothing is written then but the error line |
/// | 5 | only where the count of faults of `files` or of `input` rose |
/// | 6 | only where the count of faults of `output` rose |
/// | 7 | want of memory, with nothing written but the error line, or of `serve` that it listens, or of `dump` a front of its lines, and of `pipe` nothing read of the input |
/// | 8 | only where the count of faults of `ears` rose: nobody can listen at the address, or no further connection could be had |
/// | 9 | the input of `pipe` ended inside a request, or the head of a request was refused; or the input of `load` ended inside a line |
/// | 10 | `pipe` answered 10,000 requests, and the last didn't ask for closing; or a byte follows the 1,000,000th line of the input of `load` |
/// | 11 | only where the link's count of faults rose |
/// | 12 | a server's answer is one for which there is no rule; nothing is written then, but of `dump` the lines of the pages before |
/// | 13 | some object changed at each of four puts, and the five lines were written; or the server forgot the list of `migrate` seventeen times, and nothing was; or that of `dump` once |
///
/// Each status but 0 and 6 puts one line on `errors`. That of 3 names the file as it stands in the words, and says `TooLong`,
/// `NotText`, or the path of what is refused, which is empty for the whole file, and a word. That of 4 says `TooLong`, `no version
/// NAME`, `NotReview PATH`, `NotJson`, `TooDeep`, `NotWhole`, `NotObject`, or the field of the document and the rule that it breaks; of
/// `load` it says `line N`, counted from 1. That of 12 says `answer CODE`, 0 where the last answer has another form, order or length. A failed
/// write of the line changes no status.
///
/// Where all that stood on `output` before was handed on, so is all that stands on it at the end of a line but `serve`, unless `output`
/// failed.
pub fn run<
    R: Threads + Wait + time::Clock + Sync,
    F: Files,
    S: Source,
    K: Sink,
    E: Sink,
    A: Ears + Place + Send,
    L: Links,
    C: Clock + Sync,
>(
    rt: &R,
    alloc: Global,
    words: &Words,
    files: &mut F,
    input: &mut S,
    output: &mut K,
    errors: &mut E,
    ears: &mut A,
    links: &mut L,
    clock: &C,
    boot: u64,
) -> u8
where
    L::One: Sync,
    // Whatever the outside does, a line of the program comes to one of its outcomes.
    ensures outcome { (line : Line) → IsLine words.now line → Outcome (record {
      tells = record {
        file = F.file;
        files_faults = F.faults;
        left = S.left;
        most = S.most;
        input_faults = S.faults;
        written = K.written;
        flushed = K.flushed;
        output_faults = K.faults;
        said = E.written;
        errors_faults = E.faults;
        handed = A.origins;
        returned = A.returned;
        ears_faults = A.faults;
        sides = sides A.In.left A.In.most A.Out.written A.Out.flushed;
        linked = L.returned;
      };
      start = record { boot = boot; told = C.told clock.now };
      before = record { files = files.old; input = input.old; output = output.old; errors = errors.old; ears = ears.old; links = links.old };
      after = record { files = files.new; input = input.new; output = output.new; errors = errors.new; ears = ears.new; links = links.new };
    }) line result }
    // What `serve` writes names a place that the ears may tell where they were asked for that of the words.
    ensures place { (line : Line) → IsLine words.now line → IfServes line (λ place. NamesPlace (A.is_told place) (K.written output.old) (K.written output.new)) }
    ensures is_line { result ≢ BAD_WORDS → (line : Line) × IsLine words.now line }
    // Where the words are no line the status is 2. It comes for no others, but where the address of their place or converter is that of none, and
    // then nothing is touched but the error stream.
    ensures words_refused { (result ≡ BAD_WORDS → (line : Line) → IsLine words.now line → IsPlaceless line) × (((line : Line) → IsLine words.now line → ⊥) → result ≡ BAD_WORDS) }
    ensures unused { result ≡ BAD_WORDS → (files.new ≡ files.old) × (input.new ≡ input.old) × (output.new ≡ output.old) × (ears.new ≡ ears.old) × (links.new ≡ links.old) }
    // Each status but 3, 4 and 12 puts its line on the error stream, and no run changes a file.
    ensures errors { result ≢ REFUSED → result ≢ BAD_INPUT → result ≢ BAD_ANSWER → ¬ (Rose (E.faults errors.old) (E.faults errors.new))
        → E.written errors.new ≡ append_known (E.written errors.old) (error_line result) }
    ensures kept { (name : List ℕ) → F.file files.new name ≡ F.file files.old name }
{
    match read_command(alloc, words) {
        Ok(Some(command)) => {
            run_command(
                rt, alloc, command, files, input, output, errors, ears, links, clock, boot,
            )
        }
        Ok(None) => ended(errors, BAD_WORDS),
        Err(_) => ended(errors, NO_MEMORY),
    }
}
