//! Cases of the program as a function: `run`, over files and streams in memory.
//!
//! They stand in the `stdin` of `test_program`, and what each comes to is told: what `run` wrote on its output, its error line, its
//! status, and how many files it read. The answers that are wanted stand in `stdout` there. A line is a word and a text behind one
//! space, and its first byte tells what it is:
//!
//! | line | what it says |
//! |---|---|
//! | `# TEXT` | it is printed as it stands |
//! | `words TEXT` | the words of the command line, a space between two, for this case and those behind it |
//! | `definition TEXT`, `rules TEXT` | the files `crd.json` and `rules.json`, for this case and those behind it |
//! | `- TEXT`, `+ TEXT` | in this case's `crd.json` the second text stands where the first stands first |
//! | `Definition`, `Rules` | in this case a byte that is no text stands behind the file |
//! | `times NUMBER` | the next line stands so many times |
//! | `GET TARGET` | a request |
//! | `POST TARGET`, `PUT TARGET` | a request, whose body is each `part TEXT` and the `body TEXT` that come next |
//! | `head TEXT`, `Line TEXT`, `input TEXT` | the text in the input, with the end of a line of HTTP, with a line feed and without |
//! | `size NUMBER` | a read gives so many bytes at most |
//! | `fails NUMBER`, `unwritten NUMBER` | the read, or the write, with this number fails, counted from 0 |
//! | `many NUMBER` | the ears have so many connections, each of which holds the input, and not one |
//! | `Fails NUMBER`, `Unwritten NUMBER` | the read, or the write, of each connection with this number fails, counted from 0 |
//! | `closed NUMBER` | the call of the ears with this number fails, counted from 0, of which the first listens; or the exchange of the link |
//! | `last NUMBER` | only so many bytes of the output are printed, behind the number of those before them and their digest (FIPS 180-4) |
//! | `again NUMBER ..` | the case is run again with reads of so many bytes, and it is said whether it comes to the same |
//! | `every` | it is run again with each write failing in turn, and with each read |
//! | `every place` | it is run again with a copy of the input for each of its places, in two pieces parted there, and with the input ended at each |
//! | `@ FIRST END`, `@` | the lines between the two stand once for each number from FIRST on and below END, which stands for each `@` in them |
//! | `.` | the case ends |
//!
//! The ears have one connection, which holds the input too, or as many as the case says. The answers of the one link are the parts of the input
//! between two `~`; of a line of `load` and of one with a converter those behind the first `~`, before which the input stands. What was written to the connection that was given back last, or asked over the link, is printed behind the output.
//! A converter at `http://rules:8081/convert` has no such answers: it answers by the two files, as a line of `review` does.
//!
//! Nothing here has a contract.
#![tactic(auto)]

mod again;
mod case;
mod going;
mod input;
mod lines;
mod links;
mod reviewing;
mod steps;
mod telling;

pub use case::Case;
pub use steps::take;
