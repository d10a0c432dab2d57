//! Files in memory.
ghost use Rattle.std.specs.Prelude.{◌≡◌, ◌≢◌, ◌↔◌, ◌≤◌, ℕ, List, None, Some, Err, length, unwrap_or, [], option_map, option_copied, MatchOption, IfSome, IfOk, IfErr};
ghost use Rattle.edge_io.specs.Causes.{Rose};
ghost use Rattle.edge_io.specs.Files.{ReadsFile, OnFailed};
ghost use Rattle.edge_io.specs.MemoryFiles.{file_at, FailsAt, after_reading};

use crate::calls::CallCount;
use crate::{FileFault, Files, MOST_FILE_BYTES};
use kj_value::Txt;
use std::alloc::Global;
use std::marker::Model;

/// A file in memory.
#[derive(Drop)]
pub struct MemFile {
    path: Txt,
    bytes: Vec<u8>,
}

impl Model for MemFile {
    ghost use Rattle.edge_io.specs.MemoryFiles.{File};

    ghost Value = { File };

    ghost view = { λ f. record { path = f.path.bytes; bytes = f.bytes.items } };
}

impl MemFile {
    /// A file of these bytes.
    pub fn new(path: Txt, bytes: Vec<u8>) -> MemFile
        ensures { result ≡ record { path = path.bytes; bytes = bytes.items } }
    {
        MemFile { path, bytes }
    }

    fn bytes(&self) -> &[u8]
        ensures { result.now ≡ self.now.bytes }
    {
        &self.bytes
    }
}

// The bytes of the first file of that path.
fn look<'a>(files: &'a [MemFile], path: &str) -> Option<&'a [u8]>
    ensures { option_copied result ≡ file_at files.now path.now }
{
    for file in files {
        if file.path.as_str() == path {
            return Some(file.bytes());
        }
    }
    None
}

// The text of these bytes.
fn text_of(alloc: Global, bytes: &[u8]) -> Result<Txt, FileFault>
    ensures read { ReadsFile bytes.now result }
    ensures quiet { result ≢ Err FileFault.Failed }
{
    if bytes.len() > MOST_FILE_BYTES {
        return Err(FileFault::TooLong);
    }
    match str::from_utf8(bytes) {
        Ok(text) => Ok(Txt::of(alloc, text)?),
        Err(_) => Err(FileFault::NotText),
    }
}

/// Files in memory, the reading of which fails at the calls that it is told to fail at, and where no file has the path.
/// Of two files with one path the first counts.
#[derive(Drop)]
pub struct MemFiles {
    files: Vec<MemFile>,
    calls: CallCount,
}

impl Model for MemFiles {
    ghost use Rattle.edge_io.specs.MemoryFiles.{FilesState};

    ghost Value = { FilesState };

    ghost view = { λ f. record { files = f.files.items; calls = f.calls } };
}

impl MemFiles {
    /// Its calls are counted from 0, and those whose number is in `failing` fail.
    pub fn new(files: Vec<MemFile>, failing: Vec<u64>) -> MemFiles
        ensures { result ≡ record { files = files.items; calls = record { made = 0; failing = failing.items; faults = 0 } } }
    {
        MemFiles {
            files,
            calls: CallCount::new(failing),
        }
    }

    /// The bytes of the file at a path.
    pub fn bytes(&self, path: &str) -> Option<&[u8]>
        ensures { option_copied result ≡ file_at self.now.files path.now }
    {
        look(&self.files, path)
    }

    /// How many calls there were.
    pub fn calls(&self) -> u64
        ensures { result ≡ self.now.calls.made }
    {
        self.calls.made()
    }

    /// How many calls failed.
    pub fn faults(&self) -> u64
        ensures { result ≡ self.now.calls.faults }
    {
        self.calls.faults()
    }
}

impl Files for MemFiles {
    ghost file = { λ f path. file_at f.files path };

    ghost faults = { λ f. f.calls.faults };

    fn read_file(&mut self, alloc: Global, path: &str) -> Result<Txt, FileFault>
        ensures read { IfSome (file_at self.old.files path.now) (λ bytes. ReadsFile bytes result) }
        ensures short { IfOk result (λ text. length text.bytes ≤ MOST_FILE_BYTES) }
        ensures kept { (name : List ℕ) → file_at self.new.files name ≡ file_at self.old.files name }
        ensures later { self.old.calls.faults ≤ self.new.calls.faults }
        ensures cause { IfErr result (λ fault. OnFailed fault (Rose self.old.calls.faults self.new.calls.faults)) }

        // It fails exactly at the listed calls and where no file has the path.
        ensures fails { (result ≡ Err FileFault.Failed) ↔ FailsAt self.old path.now }
        ensures after { self.new ≡ record self.old { calls = after_reading self.old.calls result } }
    {
        if self.calls.begin() {
            self.calls.fail();
            return Err(FileFault::Failed);
        }
        match look(&self.files, path) {
            Some(bytes) => text_of(alloc, bytes),
            None => {
                self.calls.fail();
                Err(FileFault::Failed)
            }
        }
    }
}

/// Files in memory, the reading of which never fails: at a path that no file has stands an empty one.
#[derive(Drop)]
pub struct SureFiles {
    files: Vec<MemFile>,
}

impl Model for SureFiles {
    ghost use Rattle.std.specs.Prelude.{List};
    ghost use Rattle.edge_io.specs.MemoryFiles.{File};

    ghost Value = { List File };

    ghost view = { λ f. f.files.items };
}

impl SureFiles {
    /// These files, and empty ones.
    pub fn new(files: Vec<MemFile>) -> SureFiles
        ensures { result ≡ files.items }
    {
        SureFiles { files }
    }
}

impl Files for SureFiles {
    ghost file = { λ f path. Some (unwrap_or (file_at f path) []) };

    ghost faults = { λ f. 0 };

    fn read_file(&mut self, alloc: Global, path: &str) -> Result<Txt, FileFault>
        ensures read { IfSome (Some (unwrap_or (file_at self.old path.now) [])) (λ bytes. ReadsFile bytes result) }
        ensures short { IfOk result (λ text. length text.bytes ≤ MOST_FILE_BYTES) }
        ensures kept { (name : List ℕ) → Some (unwrap_or (file_at self.new name) []) ≡ Some (unwrap_or (file_at self.old name) []) }
        ensures later { 0 ≤ 0 }
        ensures cause { IfErr result (λ fault. OnFailed fault (Rose 0 0)) }
        ensures after { self.new ≡ self.old }
    {
        match look(&self.files, path) {
            Some(bytes) => text_of(alloc, bytes),
            None => text_of(alloc, b""),
        }
    }
}
