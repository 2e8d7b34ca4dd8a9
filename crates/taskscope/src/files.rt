//! Files that a text is written to in one piece.

use std::alloc::{AllocGlobal, Global};
use std::fs::File;
use std::io::Write;
use std::rt::Files;
use std::{fs, io};
use tk_metrics::Place;

/// The files of a system. A text is written beside the file of its path, with `.new` after its name, which then takes that file's place:
/// who reads it never finds half a text.
///
/// If a text can't be written, that is said once, with the path and the reason, until one is written again. Nothing of it is left beside
/// the file.
#[derive(Drop)]
pub(crate) struct WholeFiles<'a, R, E> {
    rt: &'a R,
    alloc: Global,
    faults: E,
    is_refused: bool,
}

impl<'a, R, E> WholeFiles<'a, R, E> {
    pub(crate) fn new(rt: &'a R, alloc: Global, faults: E) -> Self {
        WholeFiles {
            rt,
            alloc,
            faults,
            is_refused: false,
        }
    }
}

// Fills a file that nobody has opened before. It is made anew, so a link or a pipe of its name is never followed.
fn fill_new<R: Files>(rt: &R, path: &str, text: &[u8]) -> io::Result<()> {
    let mut file = File::create_new(rt, path)?;
    file.write_all(text)
}

fn put_beside<R: Files>(rt: &R, beside: &str, path: &str, text: &[u8]) -> io::Result<()> {
    fill_new(rt, beside, text)?;
    rt.rename(beside, path)
}

impl<R: Files, E: Write> WholeFiles<'_, R, E> {
    fn put_whole(&self, path: &str, text: &[u8]) -> io::Result<()> {
        let beside = format!(in self.alloc; "{path}.new")?;
        // What an earlier run has left, or whatever else has the name.
        let _ = fs::remove_file(self.rt, beside.as_str());
        let outcome = put_beside(self.rt, beside.as_str(), path, text);
        if outcome.is_err() {
            let _ = fs::remove_file(self.rt, beside.as_str());
        }
        outcome
    }
}

impl<R: Files, E: Write> Place for WholeFiles<'_, R, E> {
    fn put(&mut self, path: &str, text: &[u8]) -> io::Result<()> {
        let outcome = self.put_whole(path, text);
        if let Err(error) = &outcome {
            if !self.is_refused {
                let _ = writeln!(self.faults, "fault: Write {path}: {error}");
            }
        }
        self.is_refused = outcome.is_err();
        outcome
    }
}
