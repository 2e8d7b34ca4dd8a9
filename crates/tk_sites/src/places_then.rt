//! What the places of a stream had come to at a moment.
ghost use Rattle.std.specs.Prelude.{◌≡◌, [], Bool, List, IfOk};
ghost use Rattle.tk_stream.specs.Tables.{TablesView};
ghost use Rattle.tk_client.specs.Changes.{Timed};
ghost use Rattle.tk_reading.specs.Taken.{first};
ghost use Rattle.tk_sites.specs.Inner.{Follows, FollowsTimes};
ghost use Rattle.tk_sites.specs.Sites.{sites_of};
ghost use Rattle.tk_sites.specs.SpanViews as spec;
ghost use Rattle.tk_sites.specs.TimedSites.{shown_times};

use crate::sites::Sites;
use crate::sums::Sums;
use crate::timed_sites::TimedSites;
use crate::times::SiteTimes;
use std::alloc::{AllocError, Global};
use std::io::Read;
use tk_client::Client;
use tk_fault::AppFault;
use tk_reading::{Both, MAX_LINE, read_stream};
use tk_series::Limited;

/// What the places of a stream had come to at a moment: that of its last line.
#[derive(Drop)]
pub struct PlacesThen {
    // The moment, in nanoseconds.
    pub(crate) moment: u64,
    // The places, without warnings.
    pub(crate) sites: Limited<Sums>,
    // Their histograms, if these are shown.
    pub(crate) times: Option<Limited<SiteTimes>>,
}

// What a client's tables come to, whose lines were watched.
fn places_now(client: &Client, seen: &Both<Sites, TimedSites>) -> Result<PlacesThen, AllocError>
    ensures moment { IfOk result (λ old. old.moment ≡ client.now.start.tables.now) }
    ensures sites { (shown : List TablesView) → Follows shown seen.now.first
        → IfOk result (λ old. old.sites ≡ sites_of shown client.now.start.tables []) }
    ensures times { (times : Bool) (lines : List Timed) → FollowsTimes times lines seen.now.second
        → IfOk result (λ old. old.times ≡ shown_times times lines client.now.start.tables client.now.start.times) }
{
    let tables = client.tables();
    let sites = seen.first.sums(tables, &[])?;
    let times = seen.second.times(tables, client.times())?;
    Ok(PlacesThen {
        moment: tables.now(),
        sites,
        times,
    })
}

// What `read_places` does by a new client and what watches its lines.
fn read_by<R: Read>(
    client: &mut Client,
    seen: &mut Both<Sites, TimedSites>,
    reader: &mut R,
    times: bool,
) -> Result<PlacesThen, AppFault>
    requires client { client.old ≡ first }
    requires sites { Follows [] seen.old.first }
    requires times { FollowsTimes times [] seen.old.second }
    ensures { spec.ReadsPlaces times (R.remaining reader.old) (R.remaining reader.new) result }
{
    read_stream(client, seen, reader)?;
    match places_now(client, seen) {
        Ok(old) => Ok(old),
        Err(_) => Err(AppFault::Memory),
    }
}

/// Reads a stream to its end, and keeps what its places came to: [`view_span`](crate::view_span) shows what they come to since then.
///
/// The reader gives the lines up to a moment of a stream. With `times` the histograms of places are kept, too.
///
/// A last line without its line end is ignored.
///
/// - `Memory`: there was no memory for the tables or the places.
/// - `Read`: the reader failed, or gave no end within 2^32 reads.
/// - `Stream`: a line has a fault, or more than 268,435,456 bytes.
pub fn read_places<R: Read>(
    alloc: Global,
    reader: &mut R,
    times: bool,
) -> Result<PlacesThen, AppFault>
    ensures { spec.ReadsPlaces times (R.remaining reader.old) (R.remaining reader.new) result }
{
    let mut seen = Both {
        first: Sites::new(alloc),
        second: TimedSites::new(alloc, times),
    };
    match Client::new(alloc, MAX_LINE) {
        Ok(mut client) => read_by(&mut client, &mut seen, reader, times),
        Err(_) => Err(AppFault::Memory),
    }
}
