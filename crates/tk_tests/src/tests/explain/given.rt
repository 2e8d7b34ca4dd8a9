//! A reader that gives pieces.

use std::alloc::Global;
use std::io;
use std::io::Read;
use tk_explain::Kept;

// Gives one of these pieces at each read, and then an end or a fault.
#[derive(Drop)]
pub(super) struct Given {
    pieces: &'static [&'static [u8]],
    next: usize,
    fails: bool,
}

impl Given {
    pub(super) fn new(pieces: &'static [&'static [u8]], fails: bool) -> Given {
        Given {
            pieces,
            next: 0,
            fails,
        }
    }
}

impl Read for Given {
    fn read(&mut self, buf: &mut [u8]) -> io::Result<usize> {
        let Some(piece) = self.pieces.get(self.next).copied() else {
            if self.fails {
                return Err(io::ErrorKind::Other.into());
            }
            return Ok(0);
        };
        let Some(to) = buf.get_mut(..piece.len()) else {
            return Err(io::ErrorKind::Other.into());
        };
        to.copy_from_slice(piece);
        self.next = self.next.saturating_add(1);
        Ok(piece.len())
    }
}

// Makes so many reads, whatever comes of them.
pub(super) fn read_times<R: Read>(kept: &mut Kept<R>, times: usize) {
    let mut buf = [0u8; 256];
    for _ in 0..times {
        let _ = kept.read(&mut buf);
    }
}

// Whether a read gives a fault.
pub(super) fn fails_to_read<R: Read>(kept: &mut Kept<R>) -> bool {
    let mut buf = [0u8; 4];
    kept.read(&mut buf).is_err()
}

// Whether reads give these bytes, and then the end.
pub(super) fn reads_all<R: Read>(alloc: Global, kept: &mut Kept<R>, wanted: &[u8]) -> bool {
    let mut read = Vec::new(alloc);
    kept.read_to_end(&mut read).is_ok() && read.as_slice() == wanted
}
