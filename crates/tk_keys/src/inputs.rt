//! What comes from the threads that read a stream and keys.
ghost use Rattle.std.specs.Prelude.{Option, length};
ghost use Rattle.tk_watch.specs.Keyed.{IsWithin};

use crossbeam_channel::{Receiver, RecvTimeoutError, Sender};
use std::alloc::Global;
use std::io::Read;
use std::sync::Wait;
use std::thread;
use std::time::{Clock, Duration, Instant};
use tk_reading::{Every, PIECE, Pace};
use tk_watch::{Event, Source};

// For how many milliseconds a stream that gave its end is not asked again.
const REST: u64 = 50;

// For how many milliseconds is waited at a time where no screen is to be drawn.
const LONG: u64 = 1000;

// After how many seconds without a piece of the stream it is said that nothing came: a service writes a line each second.
const SILENT: u64 = 3;

/// What a thread tells of what it has read.
#[derive(Drop)]
pub(crate) enum Message {
    /// Bytes of the stream.
    Piece(Vec<u8>),
    /// The stream has ended.
    Ended,
    /// The stream can't be read.
    Broken,
    /// A key.
    Key(u8),
    /// No key comes any more.
    Gone,
}

// The bytes of `ESC [ SECONDS w`, the last one first, of which so many are still to be given.
#[derive(Clone, Copy)]
struct Words {
    bytes: [u8; 8],
    left: usize,
}

impl Words {
    fn none() -> Words {
        Words {
            bytes: [0; 8],
            left: 0,
        }
    }

    fn put(&mut self, byte: u8) {
        if self.left < self.bytes.len() {
            self.bytes[self.left] = byte;
            self.left += 1;
        }
    }

    fn take(&mut self) -> Option<u8> {
        if self.left == 0 || self.left > self.bytes.len() {
            return None;
        }
        self.left -= 1;
        Some(self.bytes[self.left])
    }

    // That nothing came for so many seconds. They have five digits.
    fn of_silence(seconds: u64) -> Words {
        let mut words = Words::none();
        let mut digits = seconds.min(99_999);
        words.put(b'w');
        for _ in 0..5 {
            words.put(b'0' + (digits % 10) as u8);
            digits /= 10;
        }
        words.put(b'[');
        words.put(27);
        words
    }
}

/// What threads tell, and when a screen is due of it.
#[derive(Drop)]
pub(crate) struct Inputs<'a, R: Wait + Clock> {
    rt: &'a R,
    from: Receiver<Message, Global>,
    pace: Every<'a, R>,
    // When a piece of the stream came last, or none where the clock can't be read or the stream has ended.
    came: Option<Instant>,
    // For how many seconds it was last said that nothing came.
    told: u64,
    words: Words,
    // Whether anything came since the last screen was due.
    is_new: bool,
    // Whether a key came since then.
    hurries: bool,
}

// Puts bytes at the front of a room. One that has no place for them isn't used.
fn put_piece(bytes: &[u8], room: &mut [u8]) -> Event
    ensures { IsWithin (Option.Some result) (length room.new) }
{
    if bytes.len() > room.len() {
        return Event::Broken;
    }
    room[..bytes.len()].copy_from_slice(bytes);
    Event::Piece(bytes.len())
}

impl<'a, R: Wait + Clock> Inputs<'a, R> {
    /// What this end of a channel gives, with no two screens within so many milliseconds. The first one is due.
    pub(crate) fn new(rt: &'a R, from: Receiver<Message, Global>, every: u64) -> Self {
        Inputs {
            rt,
            from,
            pace: Every::new(rt, every, false),
            came: Instant::now(rt).ok(),
            told: 0,
            words: Words::none(),
            is_new: true,
            hurries: true,
        }
    }

    // Whether a screen is due now, which is then thought of as drawn.
    fn takes_turn(&mut self) -> bool {
        if !self.is_new || !(self.hurries || self.pace.is_due()) {
            return false;
        }
        self.is_new = false;
        self.hurries = false;
        self.pace.mark();
        true
    }

    // How long to wait for more.
    fn patience(&self) -> Duration {
        if self.is_new {
            self.pace.left()
        } else {
            Duration::from_millis(LONG)
        }
    }
}

impl<R: Wait + Clock> Inputs<'_, R> {
    // For how many seconds no piece has come.
    fn silence(&self) -> u64 {
        match &self.came {
            Some(came) => match came.elapsed(self.rt) {
                Ok(gone) => gone.as_secs(),
                Err(_) => 0,
            },
            None => 0,
        }
    }

    // Says for how long nothing has come, if that is long and a second more than was said.
    fn note_silence(&mut self) {
        let seconds = self.silence();
        if seconds >= SILENT && seconds > self.told {
            self.say_silence(seconds);
        }
    }

    fn say_silence(&mut self, seconds: u64) {
        self.told = seconds;
        self.words = Words::of_silence(seconds);
    }

    // A piece came, or no more of them comes: it isn't said any more that nothing came.
    fn end_silence(&mut self, came: Option<Instant>) {
        self.came = came;
        if self.told > 0 {
            self.say_silence(0);
        }
    }

    // What a thread tells next, or nothing where a screen is due before. How long nothing came is told as keys are.
    fn hear(&mut self) -> Option<Message> {
        for _ in self.rt.forever() {
            if let Some(byte) = self.words.take() {
                return Some(Message::Key(byte));
            }
            if self.takes_turn() {
                return None;
            }
            let patience = self.patience();
            match self.from.recv_timeout(self.rt, patience) {
                Ok(Message::Ended) => self.end_silence(None),
                Ok(message) => return Some(message),
                Err(RecvTimeoutError::Timeout) => self.note_silence(),
                Err(RecvTimeoutError::Disconnected) => return Some(Message::Gone),
            }
        }
        unreachable!()
    }
}

impl<R: Wait + Clock> Source for Inputs<'_, R> {
    fn next(&mut self, room: &mut [u8]) -> Option<Event> {
        match self.hear() {
            Some(Message::Piece(bytes)) => {
                self.is_new = true;
                self.end_silence(Instant::now(self.rt).ok());
                Some(put_piece(bytes.as_slice(), room))
            }
            Some(Message::Broken | Message::Ended) => Some(Event::Broken),
            Some(Message::Key(key)) => {
                self.is_new = true;
                self.hurries = true;
                Some(Event::Key(key))
            }
            Some(Message::Gone) => None,
            None => Some(Event::Due),
        }
    }
}

// What a read of the stream gave. None is the end of what there is.
fn message_of<I: Read>(alloc: Global, reader: &mut I, room: &mut [u8]) -> Option<Message> {
    match reader.read(room) {
        Ok(0) => None,
        Ok(n) => match room[..n].to_vec(alloc) {
            Ok(bytes) => Some(Message::Piece(bytes)),
            Err(_) => Some(Message::Broken),
        },
        Err(_) => Some(Message::Broken),
    }
}

/// Reads a stream to its end, piece by piece, and goes on there where it is followed.
pub(crate) fn send_pieces<R: Wait + Clock, I: Read>(
    rt: &R,
    alloc: Global,
    reader: &mut I,
    follows: bool,
    to: &Sender<Message, Global>,
) {
    let mut room = [0u8; PIECE];
    for _ in rt.forever() {
        match message_of(alloc, reader, &mut room) {
            Some(message) => {
                if to.send(rt, message).is_err() {
                    return;
                }
            }
            None if follows => thread::sleep(rt, Duration::from_millis(REST)),
            None => {
                let _ = to.send(rt, Message::Ended);
                return;
            }
        }
    }
    unreachable!()
}

/// Reads keys until there are no more.
pub(crate) fn send_keys<R: Wait, I: Read>(rt: &R, reader: &mut I, to: &Sender<Message, Global>) {
    let mut room = [0u8; 1];
    for _ in rt.forever() {
        let message = match reader.read(&mut room) {
            Ok(1) => Message::Key(room[0]),
            _ => Message::Gone,
        };
        let ends = matches!(&message, Message::Gone);
        if to.send(rt, message).is_err() || ends {
            return;
        }
    }
    unreachable!()
}
