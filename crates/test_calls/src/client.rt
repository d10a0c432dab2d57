//! Cases of a client of a server's API: addresses, calls, migrations, dumps and restorings over links, inputs and outputs in memory.
//!
//! They are told by scripts. The first line of a script says of which part it is, and its name. Each other
//! line is a case, and its answer is a line. Behind the last answer of a case each exchange fails.
//!
//! | part | what a case is | what is answered |
//! |---|---|---|
//! | `# far places` | a text, or `<nothing>` for an empty one | the place whose address it is |
//! | `# far calls` | a call with its parameters, and the answer to it: `broken`, `raw` and the bytes, where `\|` stands for CR LF, or a code and a body | the request's method, target and body, and what the call gives |
//! | `# far migrations` | answers between semicolons: `page` and objects, and behind `>` its token; `object` and one (`NAMESPACE/NAME:NUMBER`); `long` for a body that is too long; `missing` for 404 with details; or a code | the requests, and the tally, or why there is none |
//! | `# far dumps` | `-`, or the number of the output's call that fails, from 0; and answers, which may be `json` and a body | the requests, what was written, with `\|` for a line feed, and how it ended |
//! | `# far restores` | `-`, or the number of the input's call that fails; the input, with `\|` for a line feed and `^` for 65,536 spaces; ` <- `; and answers, which may be `created` and an object | the requests, and how it ended |
//!
//! Nothing here has a contract but what a call asks for.
mod answers;
mod backups;
mod calls;
mod migrations;
mod places;

pub(crate) use backups::{input_of, restore_end, wrote};
pub(crate) use migrations::told;
use std::alloc::Global;
use wire_client::ResponseBuffer;

fn answer(alloc: Global, buffer: &mut ResponseBuffer, part: &str, case: &str) -> Option<String> {
    match part {
        "places" => places::answer(alloc, case),
        "calls" => calls::answer(alloc, buffer, case),
        "migrations" => migrations::answer(alloc, case),
        "dumps" => backups::dumped(alloc, case),
        "restores" => backups::restored(alloc, case),
        _ => None,
    }
}

// Adds the line that a case is answered with.
fn add(all: &mut String, came: &Option<String>) -> bool {
    let line = match came {
        Some(text) => text.as_str(),
        None => "no such case",
    };
    all.push_str(line).is_ok() && all.push_str("\n").is_ok()
}

/// What a script answers, whose first line begins with `# far `, the name of a part and a colon: a line for each case. One buffer serves all
/// calls of it.
pub(crate) fn tell(alloc: Global, head: &str, lines: &str) -> Option<String> {
    let Some(rest) = head.strip_prefix("# far ") else {
        return None;
    };
    let Some((part, _name)) = rest.split_once(':') else {
        return None;
    };
    let mut buffer = ResponseBuffer::new();
    let mut all = String::new(alloc);
    for line in lines.lines() {
        let case = if line == "<nothing>" { "" } else { line };
        let came = answer(alloc, &mut buffer, part, case);
        if !add(&mut all, &came) {
            return None;
        }
    }
    Some(all)
}
