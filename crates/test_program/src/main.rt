//! The program of cases: it prints what cases of `run`, which `test_runs` tells, and scripts of what `run` doesn't show, which `test_calls`
//! and `test_serving` tell, come to.
//!
//! Standard input is cases, a line each of what `src/lib.rt` of `test_runs` has in its head. The lines between a line `scripts` and one `cases`
//! are scripts, each with an empty line behind it, and the head of `src/lib.rt` of `test_calls` has their lines; where the first begins with
//! `# alone: `, each names a case of `test_serving`. What is wanted stands in `stdout`.
//!
//! Nothing here has a contract.
#![tactic(auto)]

mod scripts;

use scripts::{Script, take_any};
use test_runs::Case;

fn main(rt: HostRuntime) -> std::io::Result<()> {
    let alloc = rt.alloc();
    let mut case = Case::new(alloc);
    let mut script = Script::new(alloc);
    for line in rt.lines(alloc) {
        let line = line?;
        match take_any(&rt, alloc, &mut case, &mut script, line.as_str()) {
            Some(text) => print!(rt; "{}", text.as_str())?,
            None => println!(rt; "no such line: {}", line.as_str())?,
        }
    }
    Ok(())
}
