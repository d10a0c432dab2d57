//! Calls of the server that callers share, over connections: one after another by two passes, and beside each other by two threads. Beside
//! them stand scripts of what needs no server of ours, which `client`, `test_core` and `test_values` tell.
//!
//! The scripts stand in the `stdin` of `test_program`, behind its line `scripts`, each with an empty line behind it. The first line of a
//! script begins with `#`, tells over which definition it runs, and is told as it is; each other line is a call, which is told with its
//! answer. What is wanted stands in `stdout` there. Before each script nothing has happened.
//!
//! | first line | the definition |
//! |---|---|
//! | `# fixture: ..` | the small one of `versions_fixture`, which admits an object with a name and one property, and no replace |
//! | `# built-in: ..` | the one that is built in: `host` at `v1` is `address` at `v1beta1` |
//! | `# shared: ..` | the one that tests share, with each kind of rule |
//! | `# example: ..` | none, and there are no orders: the shared definition and its rules are printed, which are files of `examples/` |
//! | `# core ..: ..` | the small one, over which `test_core` takes turns: the head of its `src/lib.rt` has the lines |
//! | `# far ..: ..` | none: the head of `src/client.rt` has the parts and their lines |
//! | `# values: ..`, `# outside: ..` .. | none: the head of `src/lib.rt` of `test_values` has the parts and their lines |
//!
//! There is room for 64 objects. With the word `small` in the first line there is room for two objects in three chunks, for two
//! superseded records in two chunks, and for one migration. `v1beta1` is stored at first. A line is a pass, `A` or `B`, and what is
//! done on it:
//!
//! | line | what is done |
//! |---|---|
//! | `METHOD TARGET BODY` | a connection with this one request, whose body may be left out, and in which `~` stands for 256 bytes `x`; answered are the code and the body of its response |
//! | `link PIECE READ WRITE` | a connection whose input comes in pieces of this size, and where the read and the write of these numbers fail, or none for `-`; answered are how it ends, how many bytes of its input are left, and what is written, with `\|` for the end of a line |
//! | `work`, `back` | a turn of the pass's worker; its claim is given back. The claim is printed behind the answer |
//! | `hire TURNS TIMES` | a worker of its own, of so many turns, over a gate that says yes so many times: its end, and what the gate was asked |
//! | `new NUMBER` | the pass is made anew from the other; its tool fails at the conversion of this number, 0 for none |
//! | `show SET KEPT` | no call: the text that shows the definition with the flags that the one body sets and the stored versions that the other keeps |
//! | `unite` | the other pass is met into this one, and is made anew from it |
//! | `over migrate PATH`, `over dump PATH`, `over restore PATH LINES` | what a client from outside does over the server at `/apis/PATH`, on a pass of its own: its tally, the lines that it wrote, how it ended, as `client` tells them. Behind ` \|\| ` stand requests of others, on another pass: before the first exchange, the second and on; `-` is none |
//!
//! A line `> INPUT` is the input of each `link` of its script, with `|` for the end of a line. A line `& CALL ORDER | ORDER` gives two
//! orders on passes of their own in two threads, `METHOD ..` or `hire ..`: a call of the definition, `admit`, `form` or `hub_of`, that the
//! first makes waits until the second has its answer. Nothing here has a contract that says what is answered.
#![tactic(auto)]

mod beside;
mod calls;
mod client;
mod failing;
mod far;
mod gate;
mod links;
mod script;
mod texts;
mod tool;

use script::{gathered, told};
use std::alloc::Global;
use std::rt::Files;
use std::sync::Wait;
use std::thread::Threads;

fn shown(told: &Option<String>) -> &str {
    match told {
        Some(text) => text.as_str(),
        None => "no such script",
    }
}

/// What a script is told as: its first line, what stands behind it with its answers, and an empty line. There is none where memory is wanted.
pub fn tell<R: Threads + Wait + Sync + Files>(
    rt: &R,
    alloc: Global,
    script: &str,
) -> Option<String> {
    let Some(case) = gathered(alloc, script) else {
        return None;
    };
    let text = told(rt, alloc, &case);
    let (head, answers) = (case.head.as_str(), shown(&text));
    format!(in alloc; "{head}\n{answers}\n").ok()
}
