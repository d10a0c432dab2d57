//! Scripts between the lines of cases, which `test_calls` and `test_serving` tell.
use std::alloc::Global;
use std::rt::Files;
use std::sync::Wait;
use std::thread::Threads;
use std::time::Clock;
use test_runs::{Case, take};

/// The lines of a script, where lines are those of scripts.
pub(crate) struct Script {
    is_open: bool,
    lines: String,
}

impl Drop for Script {
    fn drop(self) {
        let Script {
            is_open: _,
            lines: _,
        } = self;
    }
}

impl Script {
    /// Lines are those of cases.
    pub(crate) fn new(alloc: Global) -> Script {
        Script {
            is_open: false,
            lines: String::new(alloc),
        }
    }

    // Whether the script got a line more.
    fn add(&mut self, line: &str) -> bool {
        self.lines.push_str(line).is_ok() && self.lines.push_str("\n").is_ok()
    }

    // From here on lines are those of scripts, or of cases. Nothing is printed.
    fn open(&mut self, alloc: Global, is_open: bool) -> Option<String> {
        self.is_open = is_open;
        Some(String::new(alloc))
    }

    // What the lines are told as.
    fn told<R: Threads + Wait + Clock + Sync + Files>(
        &self,
        rt: &R,
        alloc: Global,
    ) -> Option<String> {
        let lines = self.lines.as_str();
        if lines.starts_with("# alone: ") {
            return test_serving::tell(rt, alloc, lines);
        }
        test_calls::tell(rt, alloc, lines)
    }

    // Takes a line of a script, which an empty one ends.
    fn take<R: Threads + Wait + Clock + Sync + Files>(
        &mut self,
        rt: &R,
        alloc: Global,
        line: &str,
    ) -> Option<String> {
        if line.is_empty() {
            let told = self.told(rt, alloc);
            self.lines.clear();
            return told;
        }
        if self.add(line) {
            Some(String::new(alloc))
        } else {
            None
        }
    }
}

/// Takes a line of a case or of a script, and answers what is to be printed; there is no answer where it is no line, or memory is wanted.
pub(crate) fn take_any<R: Threads + Wait + Clock + Sync + Files>(
    rt: &R,
    alloc: Global,
    case: &mut Case,
    script: &mut Script,
    line: &str,
) -> Option<String> {
    if line == "scripts" {
        return script.open(alloc, true);
    }
    if line == "cases" {
        return script.open(alloc, false);
    }
    if script.is_open {
        return script.take(rt, alloc, line);
    }
    take(rt, alloc, case, line)
}
