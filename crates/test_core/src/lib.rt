//! Turns of a core one after another, over the small definition of `versions_fixture`.
//!
//! They are told by scripts, which are cases of `test_calls`. The first line of a script says how much room there is and its name; each other
//! line is an order, which is told with its answer.
//! `@` stands before the place of a version of what is prepared or set, `?` before that of the request, `#` before a number, and
//! `+` before a weight in chunks, or how many objects or turns are meant. Storage stands at place 1 at first, `v1beta1`, and the other version
//! is at place 0, `v1`.
//!
//! | line | the turn, or what is done |
//! |---|---|
//! | `create NAME`, `replace NAME`, `delete NAME` | |
//! | `mark NAME`, `let_go NAME` | a delete of an object with a finalizer, whose text is `stamped` then; the removal of one that was marked |
//! | `store`, `keep`, `begin NAME` | the storage version is set; one version is kept in the stored list; a migration is started |
//! | `fill` | so many objects `aa`, `ab` .. are created |
//! | `thousand` | a thousand times the object `a` is created, replaced and deleted, by the numbers from 2 on |
//! | `1 work`, `2 work` | a turn of the first worker, or of the second |
//! | `1 touch` | at most so many turns, as long as each moves an object: how many did, and the end of the turn that didn't |
//! | `1 ask`, `1 gone NAME`, `1 overwritten NAME` | the first half of a turn; the second half, where the object is gone, or was written at the target since |
//! | `1 claim`, `1 back`, `1 forget` | the worker's claim is told, given back, or forgotten |
//! | `= object NAME`, `= settings`, `= migration`, `= page NAME` | a look. A page is behind a name as it stood at a number, or without a name the first one of now |
//!
//! The first line is `# core: ..`, `# core small: ..`, or tells the room for objects, their chunks, superseded records, their chunks and migrations, as
//! `# core of 2 3 2 3 1: ..`. Behind `# core random: ..` and `# core laws: ..` there are no orders. Nothing here has a contract that says what is answered.
#![tactic(auto)]

mod answers;
mod ends;
mod laws;
mod looks;
mod order;
mod random;
mod script;
mod turns;
mod workers;

use std::alloc::Global;

/// What a script answers, whose first line begins with `# core`: each of its orders with its answer, a line for each.
pub fn tell(alloc: Global, head: &str, lines: &str) -> Option<String> {
    if head.starts_with("# core random") {
        return random::random_turns(alloc);
    }
    if head.starts_with("# core laws") {
        return laws::in_order(alloc);
    }
    script::told(alloc, head, lines)
}
