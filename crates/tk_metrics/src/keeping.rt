//! The numbers of a stream, kept while it comes.
ghost use Rattle.std.specs.Prelude.{◌≡◌, ◌≤◌, ◌<◌, ◌+◌, ◌^◌, ℕ, List, [], Option, length, IfOk, true};
ghost use Rattle.std.specs.Io.KnownBytes.{Consumes, IsAtEnd};
ghost use Rattle.tk_reading.specs.Taken.{first};
ghost use Rattle.tk_stream.specs.Tables.{TablesView};
ghost use Rattle.tk_metrics.specs.Following.{Sees};
ghost use Rattle.tk_client.specs.Changes.{Timed, untimed};
ghost use Rattle.tk_reading.specs.Shown.{last_timed};
ghost use Rattle.tk_metrics.specs.Keeping.{Keeps};
ghost use Rattle.tk_metrics.specs.Kept as spec;
ghost use Rattle.tk_metrics.specs.Places.{Texts};
ghost use Rattle.tk_metrics.specs.Streams.{numbers_after, usual};
ghost use Rattle.tk_metrics.specs.declared.apart.Apart.{Apart as Told};

use crate::apart::Apart;
use crate::follower::Follower;
use crate::following::{before_all, numbers_now};
use crate::place::Place;
use crate::reading::follow_lines;
use std::alloc::Global;
use std::io::Read;
use tk_client::{Client, Lints};
use tk_fault::AppFault;
use tk_reading::{MAX_LINE, PIECE, Pace};

// How many lines are applied, and how many were when numbers were last put, if they were.
#[derive(Clone, Copy)]
struct Progress {
    lines: u64,
    put: Option<u64>,
}

// Puts the numbers of what a client has come to.
fn put_now<P: Place>(
    client: &Client,
    alloc: Global,
    seen: &Follower,
    place: &mut P,
    path: &str,
    lints: &Lints,
) -> Result<(), AppFault>
    ensures { (by : Told) (shown : List TablesView) (timed : List Timed) → client.now.start.tables ≡ (last_timed untimed timed).0
        → Sees by (usual lints.now) shown timed seen.now
        → spec.PutsNow path.now (numbers_after by lints.now shown timed client.now.start.tables) result
        (P.texts place.old) (P.texts place.new) }
{
    let Ok(text) = numbers_now(alloc, client, seen, lints) else {
        return Err(AppFault::Memory);
    };
    match place.put(path, text.as_slice()) {
        Ok(()) => Ok(()),
        Err(_) => Err(AppFault::Write),
    }
}

fn is_of_stream(fault: &AppFault) -> bool
    ensures { result ≡ spec.is_of_stream fault.now }
{
    matches!(fault, AppFault::Stream { .. })
}

fn is_of_place(fault: &AppFault) -> bool
    ensures { result ≡ spec.is_of_place fault.now }
{
    matches!(fault, AppFault::Write)
}

// Takes a piece. At a fault of the stream the numbers of what stands are put.
fn take_piece<P: Place>(
    client: &mut Client,
    alloc: Global,
    seen: &mut Follower,
    place: &mut P,
    path: &str,
    lints: &Lints,
    lines: u64,
    piece: &[u8],
) -> Result<u64, AppFault>
    requires few { lines ≤ 2 ^ 61 }
    requires short { length piece.now ≤ 65536 }
    ensures goes { (by : Told) (given left new : Option (List ℕ)) (put : Option ℕ) (old : Option Texts) → Consumes left new piece.now
        → spec.Kept path.now by lints.now given left lines put client.old seen.old old (P.texts place.old)
        → spec.Goes path.now by lints.now given new result put client.new seen.new old (P.texts place.new) }
    ensures few { IfOk result (λ sum. sum ≤ lines + 65536) }
{
    match follow_lines(client, seen, lines, piece) {
        Ok(sum) => Ok(sum),
        Err(fault) => {
            if is_of_stream(&fault) {
                put_now(client, alloc, seen, place, path, lints)?;
                return Err(fault);
            }
            Err(fault)
        }
    }
}

// Whether lines came since numbers were last put, of so many.
fn is_new(lines: u64, put: Option<u64>) -> bool
    ensures { result ≡ true → (most : ℕ) → put ≡ Option.Some most → most < lines }
{
    match put {
        Some(most) => most < lines,
        None => 0 < lines,
    }
}

// Puts the numbers of what a client has come to, and answers of how many lines numbers were last put. A place that doesn't take them keeps those
// before, and is tried again when it is time.
fn try_now<P: Place>(
    client: &Client,
    alloc: Global,
    seen: &Follower,
    place: &mut P,
    path: &str,
    lints: &Lints,
    progress: Progress,
) -> Result<Option<u64>, AppFault>
    requires { (most : ℕ) → progress.put ≡ Option.Some most → most < progress.lines }
    ensures { (by : Told) (given left : Option (List ℕ)) (old : Option Texts)
        → spec.Kept path.now by lints.now given left progress.lines progress.put client.now seen.now old (P.texts place.old)
        → spec.Went path.now by lints.now given left progress.lines result client.now seen.now old (P.texts place.new) }
{
    match put_now(client, alloc, seen, place, path, lints) {
        Ok(()) => Ok(Some(progress.lines)),
        Err(fault) => {
            if is_of_place(&fault) {
                return Ok(progress.put);
            }
            Err(AppFault::Memory)
        }
    }
}

// Puts numbers where lines came since they were last put, of so many, and where it is time. It answers of how many they were last put.
fn put_due<P: Place, C: Pace>(
    client: &Client,
    alloc: Global,
    seen: &Follower,
    place: &mut P,
    path: &str,
    lints: &Lints,
    pace: &mut C,
    progress: Progress,
) -> Result<Option<u64>, AppFault>
    ensures { (by : Told) (given left : Option (List ℕ)) (old : Option Texts)
        → spec.Kept path.now by lints.now given left progress.lines progress.put client.now seen.now old (P.texts place.old)
        → spec.Went path.now by lints.now given left progress.lines result client.now seen.now old (P.texts place.new) }
{
    if !is_new(progress.lines, progress.put) || !pace.is_due() {
        return Ok(progress.put);
    }
    let put = try_now(client, alloc, seen, place, path, lints, progress)?;
    pace.mark();
    Ok(put)
}

// Takes a piece that was read, and puts numbers where it is time.
fn after_piece<P: Place, C: Pace>(
    client: &mut Client,
    alloc: Global,
    seen: &mut Follower,
    place: &mut P,
    path: &str,
    lints: &Lints,
    pace: &mut C,
    progress: Progress,
    piece: &[u8],
) -> Result<Option<Progress>, AppFault>
    requires few { progress.lines ≤ 2 ^ 61 }
    requires short { length piece.now ≤ 65536 }
    ensures steps { (by : Told) (given left new : Option (List ℕ)) (old : Option Texts) → Consumes left new piece.now
        → spec.Kept path.now by lints.now given left progress.lines progress.put client.old seen.old old (P.texts place.old)
        → spec.Steps path.now by lints.now given new result client.new seen.new old (P.texts place.new) }
    ensures few { spec.IsFew progress.lines result }
{
    let lines = take_piece(
        client,
        alloc,
        seen,
        place,
        path,
        lints,
        progress.lines,
        piece,
    )?;
    let now = Progress {
        lines,
        put: progress.put,
    };
    let put = put_due(client, alloc, seen, place, path, lints, pace, now)?;
    Ok(Some(Progress { lines, put }))
}

// At the end of what the reader gave: goes on where more may come, and else puts the numbers of all.
fn at_end<P: Place, C: Pace>(
    client: &Client,
    alloc: Global,
    seen: &Follower,
    place: &mut P,
    path: &str,
    lints: &Lints,
    pace: &mut C,
    progress: Progress,
) -> Result<Option<Progress>, AppFault>
    ensures steps { (by : Told) (given left : Option (List ℕ)) (old : Option Texts) → IsAtEnd left
        → spec.Kept path.now by lints.now given left progress.lines progress.put client.now seen.now old (P.texts place.old)
        → spec.Steps path.now by lints.now given left result client.now seen.now old (P.texts place.new) }
    ensures few { spec.IsFew progress.lines result }
{
    if !pace.goes_on() {
        put_now(client, alloc, seen, place, path, lints)?;
        return Ok(None);
    }
    let put = put_due(client, alloc, seen, place, path, lints, pace, progress)?;
    Ok(Some(Progress {
        lines: progress.lines,
        put,
    }))
}

// Reads once, and does what is to be done then. It answers how far it has come, unless this is the end.
fn step<R: Read, P: Place, C: Pace>(
    client: &mut Client,
    alloc: Global,
    seen: &mut Follower,
    reader: &mut R,
    place: &mut P,
    path: &str,
    lints: &Lints,
    pace: &mut C,
    progress: Progress,
    piece: &mut [u8],
) -> Result<Option<Progress>, AppFault>
    requires few { progress.lines ≤ 2 ^ 61 }
    requires room { length piece.old ≡ 65536 }
    ensures steps { (by : Told) (given : Option (List ℕ)) (old : Option Texts)
        → spec.Kept path.now by lints.now given (R.remaining reader.old) progress.lines progress.put client.old seen.old old (P.texts place.old)
        → spec.Steps path.now by lints.now given (R.remaining reader.new) result client.new seen.new old (P.texts place.new) }
    ensures few { spec.IsFew progress.lines result }
{
    match reader.read(piece) {
        Ok(0) => at_end(client, alloc, seen, place, path, lints, pace, progress),
        Ok(n) => after_piece(
            client,
            alloc,
            seen,
            place,
            path,
            lints,
            pace,
            progress,
            &piece[..n],
        ),
        Err(_) => Err(AppFault::Read),
    }
}

// What `keep_metrics` does by a new client and what follows its lines. It gives up after 2^32 reads.
fn keep_seen<R: Read, P: Place, C: Pace>(
    client: &mut Client,
    seen: &mut Follower,
    alloc: Global,
    reader: &mut R,
    place: &mut P,
    path: &str,
    lints: &Lints,
    pace: &mut C,
) -> Result<(), AppFault>
    requires client { client.old ≡ first }
    requires seen { Sees seen.old.leavers.by (usual lints.now) [] [] seen.old }
    ensures { Keeps path.now seen.old.leavers.by lints.now (R.remaining reader.old) (R.remaining reader.new) result (P.texts place.old) (P.texts place.new) }
{
    let mut piece = [0u8; PIECE];
    let mut progress = Progress {
        lines: 0,
        put: None,
    };
    for _ in 0u64..4_294_967_296 {
        match step(
            client, alloc, seen, reader, place, path, lints, pace, progress, &mut piece,
        )? {
            Some(next) => progress = next,
            None => return Ok(()),
        }
    }
    Err(AppFault::Read)
}

// What `keep_metrics` does by a new client.
fn keep_by<R: Read, P: Place, C: Pace>(
    client: &mut Client,
    alloc: Global,
    reader: &mut R,
    place: &mut P,
    path: &str,
    by: Apart,
    lints: &Lints,
    pace: &mut C,
) -> Result<(), AppFault>
    requires { client.old ≡ first }
    ensures { Keeps path.now by lints.now (R.remaining reader.old) (R.remaining reader.new) result (P.texts place.old) (P.texts place.new) }
{
    match before_all(alloc, by, lints) {
        Ok(mut seen) => keep_seen(client, &mut seen, alloc, reader, place, path, lints, pace),
        Err(_) => Err(AppFault::Memory),
    }
}

/// Reads a stream to its end, and keeps its numbers in a place, under a path, while it comes: they are put anew once lines came and the pace allows
/// it, and at the end in any case. They are those that [`metrics_stream`](crate::metrics_stream) writes of what was read.
///
/// - `Memory`: there was no memory for the tables or for a text, which then wasn't put.
/// - `Read`: the reader failed, or gave no end within 2^32 reads.
/// - `Stream`: a line has a fault, or more than 268,435,456 bytes. The numbers of the lines before it were put.
/// - `Write`: the place didn't take the last text, that of all or that of the lines before a fault. An earlier one that it didn't take is let go:
///   numbers are put anew once more lines came, or the pace allows it.
///
/// At each of them the place holds what was put last.
pub fn keep_metrics<R: Read, P: Place, C: Pace>(
    alloc: Global,
    reader: &mut R,
    place: &mut P,
    path: &str,
    by: Apart,
    lints: &Lints,
    pace: &mut C,
) -> Result<(), AppFault>
    ensures { Keeps path.now by lints.now (R.remaining reader.old) (R.remaining reader.new) result (P.texts place.old) (P.texts place.new) }
{
    match Client::new(alloc, MAX_LINE) {
        Ok(mut client) => keep_by(&mut client, alloc, reader, place, path, by, lints, pace),
        Err(_) => Err(AppFault::Memory),
    }
}
