//! The files of the system.
ghost use Rattle.std.specs.Prelude.{◌≡◌, ◌≤◌, ◌++◌, None, IfOk, IfErr, IfSome, length};
ghost use Rattle.edge_io.specs.Causes.{Rose};
ghost use Rattle.edge_io.specs.Files.{OnFailed, ReadsFile, ShowsFault};
ghost use Rattle.edge_io.specs.laws.Pieces.{ReadsPiece};

use crate::{FileFault, Files, MOST_FILE_BYTES};
use kj_value::Txt;
use std::alloc::Global;
use std::io::Read;
use std::{fs, rt};

// How many bytes are read at a time, at most.
const PIECE_BYTES: usize = 4_096;

/// The files of the system. They tell no content, and a call fails where the system's does.
#[derive(Drop)]
pub struct DiskFiles<R: rt::Files> {
    system: R,
    faults: u64,
}

impl<R: rt::Files> DiskFiles<R> {
    /// Files that are read from the system's.
    pub fn new(system: R) -> DiskFiles<R>
        ensures { ⟦<DiskFiles<R> as Files>⟧.faults result ≡ 0 }
    {
        DiskFiles { system, faults: 0 }
    }

    // A fault of the system, which is counted.
    fn failed(&mut self) -> FileFault
        ensures fault { result ≡ FileFault.Failed }
        ensures rose { Rose self.old.faults self.new.faults }
        ensures later { self.old.faults ≤ self.new.faults }
    {
        self.faults = self.faults.saturating_add(1);
        FileFault::Failed
    }
}

// Reads one more piece behind the bytes, and tells whether there was one. `TooLong` comes only where more stands there than fits.
fn read_piece<S: Read>(from: &mut S, bytes: &mut Vec<u8>) -> Result<bool, FileFault>
    requires { length bytes.old.items ≤ MOST_FILE_BYTES }
    ensures short { IfOk result (λ _. length bytes.new.items ≤ MOST_FILE_BYTES) }
    ensures read { IfOk result (ReadsPiece (S.remaining from.old) (S.remaining from.new) bytes.old.items bytes.new.items) }
    ensures fault { IfErr result (λ fault. IfSome (S.remaining from.old) (λ left. ShowsFault (bytes.old.items ++ left) fault)) }
{
    let mut piece = [0; PIECE_BYTES];
    match from.read(&mut piece) {
        Ok(count) => {
            if count > MOST_FILE_BYTES - bytes.len() {
                return Err(FileFault::TooLong);
            }
            match bytes.extend_from_slice(&piece[..count]) {
                Ok(()) => Ok(count > 0),
                Err(_) => Err(FileFault::NoMemory),
            }
        }
        Err(_) => Err(FileFault::Failed),
    }
}

// All bytes of a reader. Each piece but the last has one byte at least.
fn read_all<S: Read>(alloc: Global, from: &mut S) -> Result<Vec<u8>, FileFault>
    ensures short { IfOk result (λ bytes. length bytes.items ≤ MOST_FILE_BYTES) }
    ensures whole { IfOk result (λ bytes. IfSome (S.remaining from.old) (λ all. bytes.items ≡ all)) }
    ensures fault { IfErr result (λ fault. IfSome (S.remaining from.old) (λ all. ShowsFault all fault)) }
{
    let mut bytes = Vec::new(alloc);
    for turn in 0..MOST_FILE_BYTES {
        if !read_piece(from, &mut bytes)? {
            return Ok(bytes);
        }
    }
    // As many bytes as may be were read, one at a time.
    if read_piece(from, &mut bytes)? {
        return Err(FileFault::TooLong);
    }
    Ok(bytes)
}

// The text that a reader's bytes are, which aren't too many. `TooLong` comes before `NotText`.
fn read_text<S: Read>(alloc: Global, from: &mut S) -> Result<Txt, FileFault>
    ensures read { IfSome (S.remaining from.old) (λ all. ReadsFile all result) }
    ensures short { IfOk result (λ text. length text.bytes ≤ MOST_FILE_BYTES) }
{
    let bytes = read_all(alloc, from)?;
    match Txt::of_bytes(bytes) {
        Some(text) => Ok(text),
        None => Err(FileFault::NotText),
    }
}

impl<R: rt::Files> Files for DiskFiles<R> {
    ghost file = { λ f path. None };

    ghost faults = { λ f. f.faults };

    fn read_file(&mut self, alloc: Global, path: &str) -> Result<Txt, FileFault> {
        let Ok(mut file) = fs::open(&self.system, path) else {
            return Err(self.failed());
        };
        match read_text(alloc, &mut file) {
            Ok(text) => Ok(text),
            Err(FileFault::Failed) => Err(self.failed()),
            Err(FileFault::TooLong) => Err(FileFault::TooLong),
            Err(FileFault::NotText) => Err(FileFault::NotText),
            Err(FileFault::NoMemory) => Err(FileFault::NoMemory),
        }
    }
}
