//! A stream that is watched on a terminal, by whoever presses its keys.
ghost use Rattle.std.specs.Prelude.{List, Option};
ghost use Rattle.tk_watch.specs.Keyed.{Coming, WatchesKeys};

use crate::inputs::{Inputs, Message, send_keys, send_pieces};
use crossbeam_channel::{Sender, bounded};
use std::alloc::{AllocError, Global};
use std::io::{Read, Write};
use std::sync::Wait;
use std::thread;
use std::thread::Threads;
use std::time::Clock;
use tk_fault::AppFault;
use tk_watch::{Screen, watch_keys};

// How many pieces and keys wait at most. Who writes the stream waits then.
const WAITING: usize = 16;

// Starts a thread that reads a stream, and one that reads keys.
fn start<
    R: Threads + Wait + Clock + Copy + Send + Sync + Drop + 'static,
    I: Read + Send + Drop + 'static,
    K: Read + Send + Drop + 'static,
>(
    rt: &R,
    alloc: Global,
    stream: I,
    follows: bool,
    keys: K,
    to: Sender<Message, Global>,
) -> Result<(), AllocError> {
    let to_too = to.clone()?;
    let one = *rt;
    let reads = move || {
        let mut stream = stream;
        send_pieces(&one, alloc, &mut stream, follows, &to)
    };
    let Ok(_) = thread::spawn(rt, reads) else {
        return Err(AllocError);
    };
    let two = *rt;
    let listens = move || {
        let mut keys = keys;
        send_keys(&two, &mut keys, &to_too)
    };
    let Ok(_) = thread::spawn(rt, listens) else {
        return Err(AllocError);
    };
    Ok(())
}

/// Watches a stream as `watch_keys` does, with no two screens within so many milliseconds, but at once where a key was pressed. At its end
/// the last screen stays until a key asks to quit, or no key comes any more. A stream that is followed goes on at its end.
///
/// Its errors are those of `watch_keys`, and `Memory` where no thread can be started.
///
/// It doesn't end the threads that read: they end with the program, or once they have something to tell.
pub fn watch_terminal<
    R: Threads + Wait + Clock + Copy + Send + Sync + Drop + 'static,
    I: Read + Send + Drop + 'static,
    K: Read + Send + Drop + 'static,
    W: Write,
>(
    rt: &R,
    alloc: Global,
    stream: I,
    follows: bool,
    keys: K,
    writer: &mut W,
    screen: &Screen<'_>,
    every: u64,
) -> Result<(), AppFault>
    ensures { (given : Option (List Coming)) × (left : Option (List Coming)) × WatchesKeys screen.now given left result (W.contents writer.old) (W.contents writer.new) }
{
    let Ok((to, from)) = bounded::<Message, Global>(alloc, WAITING) else {
        return Err(AppFault::Memory);
    };
    if start(rt, alloc, stream, follows, keys, to).is_err() {
        return Err(AppFault::Memory);
    }
    let mut inputs = Inputs::new(rt, from, every);
    watch_keys(alloc, &mut inputs, writer, screen)
}
