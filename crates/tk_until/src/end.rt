//! When a stream ends.
ghost use Rattle.std.specs.Prelude.{◌≡◌};
ghost use Rattle.tk_reading.specs.Taken.{first};
ghost use Rattle.tk_until.specs.End.{Ends};

use std::alloc::Global;
use std::io::Read;
use tk_client::Client;
use tk_fault::AppFault;
use tk_reading::{MAX_LINE, Unwatched, read_stream};

// What `end_of_stream` does by a new client.
fn end_by<R: Read>(client: &mut Client, reader: &mut R) -> Result<u64, AppFault>
    requires { client.old ≡ first }
    ensures { Ends (R.remaining reader.old) (R.remaining reader.new) result }
{
    read_stream(client, &mut Unwatched, reader)?;
    Ok(client.tables().now())
}

/// Reads a stream to its end, and answers the moment of its last line, in nanoseconds. A stream without a line ends at 0.
///
/// A last line without its line end is ignored.
///
/// - `Memory`: there was no memory for the tables.
/// - `Read`: the reader failed, or gave no end within 2^32 reads.
/// - `Stream`: a line has a fault, or more than 268,435,456 bytes.
pub fn end_of_stream<R: Read>(alloc: Global, reader: &mut R) -> Result<u64, AppFault>
    ensures { Ends (R.remaining reader.old) (R.remaining reader.new) result }
{
    match Client::new(alloc, MAX_LINE) {
        Ok(mut client) => end_by(&mut client, reader),
        Err(_) => Err(AppFault::Memory),
    }
}
