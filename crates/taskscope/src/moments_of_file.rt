//! The moments that words name of the file that is read.
ghost use Rattle.std.specs.Prelude.{◌≡◌, IfErr, IfOk, None, Ok};
ghost use Rattle.taskscope.specs.Program.{IsBeforeEnd, IsMoment, moment_at};

use crate::moments::{Moment, moment_before};
use crate::sources::Sources;
use crate::statuses::{FAULT, tell_fault, tell_unopened};
use std::alloc::Global;
use std::io::Write;
use tk_until::end_of_stream;

/// The moment up to which an input is read. Words that name one before the end of an input are refused.
pub(crate) fn moment_at(until: Option<Moment>) -> Option<u64>
    ensures { result ≡ moment_at until }
{
    match until? {
        Moment::At(moment) => Some(moment),
        Moment::BeforeEnd(_) => None,
    }
}

// The moment so long before the end of the file that a path names, or else the status of a fault that was told.
fn moment_before_end<S: Sources, E: Write>(
    alloc: Global,
    sources: &S,
    span: u64,
    path: &str,
    faults: &mut E,
) -> Result<u64, u8>
    ensures ok { IfOk result (λ moment. IsBeforeEnd S.File.remaining (S.is_of sources.now path.now) span moment) }
    ensures err { IfErr result (λ status. status ≡ FAULT) }
{
    let mut file = match sources.open(path) {
        Ok(file) => file,
        Err(error) => return Err(tell_unopened(path, error, faults)),
    };
    match end_of_stream(alloc, &mut file) {
        Ok(end) => Ok(moment_before(end, span)),
        Err(fault) => Err(tell_fault(fault, faults)),
    }
}

/// The moment up to which the file that a path names is read, or else the status of a fault that was told.
pub(crate) fn moment_of_file<S: Sources, E: Write>(
    alloc: Global,
    sources: &S,
    until: Option<Moment>,
    path: &str,
    faults: &mut E,
) -> Result<Option<u64>, u8>
    ensures ok { IfOk result (λ moment. IsMoment S.File.remaining (S.is_of sources.now path.now) until moment) }
    ensures err { IfErr result (λ status. status ≡ FAULT) }
{
    match until {
        None => Ok(None),
        Some(Moment::At(moment)) => Ok(Some(moment)),
        Some(Moment::BeforeEnd(span)) => {
            Ok(Some(moment_before_end(alloc, sources, span, path, faults)?))
        }
    }
}
