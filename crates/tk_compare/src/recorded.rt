//! A stream, as it is compared.
ghost use Rattle.std.specs.Prelude.{◌≡◌, ◌∷◌, ◌++◌, [], List, IfOk, OnOk, map, slice_get, true};
ghost use Rattle.std.specs.Option.{option_map_or};
ghost use Rattle.tk_stream.specs.Tables.{TablesView};
ghost use Rattle.tk_client.specs.Changes.{Timed};
ghost use Rattle.tk_reading.specs.Taken.{first};
ghost use Rattle.tk_odd.specs.Diagnosis.{standing_of};
ghost use Rattle.tk_odd.specs.Findings as odd;
ghost use Rattle.tk_odd.specs.Inner.{Follows as FollowsOdd};
ghost use Rattle.tk_sites.specs.Inner.{Follows, FollowsTimes};
ghost use Rattle.tk_sites.specs.Sites.{sites_of};
ghost use Rattle.tk_sites.specs.TimedSites.{timed_sites};
ghost use Rattle.tk_compare.specs.Names.{texts};
ghost use Rattle.tk_compare.specs.Recorded as spec;

use crate::names::push_name;
use std::alloc::{AllocError, Global};
use std::io::Read;
use tk_client::Client;
use tk_fault::AppFault;
use tk_odd::{Diagnosis, Found, Held, Limits};
use tk_reading::{Both, MAX_LINE, read_stream};
use tk_series::{Limited, Series};
use tk_sites::{SiteTimes, Sites, Sums, TimedSites};

/// A stream, as it is compared.
#[derive(Drop)]
pub struct Recorded {
    // The moment of its last line, in nanoseconds.
    pub(crate) span: u64,
    // Its places.
    pub(crate) sites: Limited<Sums>,
    // The histograms of its places.
    pub(crate) times: Limited<SiteTimes>,
    // How its places held up others.
    pub(crate) held: Series<Held>,
    // The names of what is odd about it, worst first.
    pub(crate) findings: Vec<Vec<u8>>,
}

// The name of what is found: its kind, and its place if it is about one.
fn finding_name(alloc: Global, found: &Found) -> Result<Vec<u8>, AllocError>
    ensures { IfOk result (λ name. name.items ≡ spec.finding_name (odd.placed found.now)) }
{
    let mut name = Vec::from_slice(alloc, found.finding.kind.name().as_bytes())?;
    if !found.place.is_empty() {
        name.extend_from_slice(b" kind ")?;
        name.extend_from_slice(found.place.as_slice())?;
    }
    Ok(name)
}

// Puts the name of the finding that stands there, if one does.
fn push_at(
    names: &mut Vec<Vec<u8>>,
    alloc: Global,
    list: &[Found],
    at: usize,
) -> Result<(), AllocError>
    ensures { OnOk result (texts names.new.items ≡ option_map_or
        (λ f. texts names.old.items ++ spec.finding_name (odd.placed f) ∷ []) (slice_get list.now at) (texts names.old.items)) }
{
    match list.get(at) {
        Some(found) => push_name(names, finding_name(alloc, found)?),
        None => Ok(()),
    }
}

fn finding_names(alloc: Global, list: &[Found]) -> Result<Vec<Vec<u8>>, AllocError>
    ensures { IfOk result (λ names. texts names.items ≡ map spec.finding_name (map odd.placed list.now)) }
{
    let mut names = Vec::new(alloc);
    for at in 0..list.len() {
        push_at(&mut names, alloc, list, at)?;
    }
    Ok(names)
}

// What watches a stream's lines.
type Watched = Both<Both<Sites, TimedSites>, Diagnosis>;

// The histograms of places, which are shown.
fn times_now(
    alloc: Global,
    client: &Client,
    watched: &TimedSites,
) -> Result<Limited<SiteTimes>, AllocError>
    ensures { (seen : List Timed) → FollowsTimes true seen watched.now
        → IfOk result (λ times. times ≡ timed_sites seen client.now.start.tables client.now.start.times) }
{
    match watched.times(client.tables(), client.times())? {
        Some(times) => Ok(times),
        None => Ok(Limited::new(alloc, 0)),
    }
}

// What a client's tables come to, whose lines were watched.
fn recorded_now(alloc: Global, client: &Client, watched: &Watched) -> Result<Recorded, AllocError>
    ensures span { IfOk result (λ r. r.span ≡ client.now.start.tables.now) }
    ensures sites { (shown : List TablesView) → Follows shown watched.now.first.first
        → IfOk result (λ r. r.sites ≡ sites_of shown client.now.start.tables []) }
    ensures times { (seen : List Timed) → FollowsTimes true seen watched.now.first.second
        → IfOk result (λ r. r.times ≡ timed_sites seen client.now.start.tables client.now.start.times) }
    ensures held { (shown : List TablesView) → FollowsOdd shown watched.now.second
        → IfOk result (λ r. r.held ≡ (standing_of watched.now.second.limits shown).places.0) }
    ensures findings { (shown : List TablesView) → FollowsOdd shown watched.now.second
        → IfOk result (λ r. spec.names_kept r
        ≡ map spec.finding_name (odd.findings_of watched.now.second.limits (standing_of watched.now.second.limits shown) client.now.start.tables)) }
{
    let tables = client.tables();
    let list = watched.second.findings(alloc, tables)?;
    let findings = finding_names(alloc, list.as_slice())?;
    let sites = watched.first.first.sums(tables, &[])?;
    let times = times_now(alloc, client, &watched.first.second)?;
    let held = watched.second.held().copy()?;
    Ok(Recorded {
        span: tables.now(),
        sites,
        times,
        held,
        findings,
    })
}

// What `read_recorded` does by a new client and what watches its lines.
fn read_by<R: Read>(
    client: &mut Client,
    watched: &mut Watched,
    alloc: Global,
    reader: &mut R,
) -> Result<Recorded, AppFault>
    requires client { client.old ≡ first }
    requires sites { Follows [] watched.old.first.first }
    requires times { FollowsTimes true [] watched.old.first.second }
    requires findings { FollowsOdd [] watched.old.second }
    ensures { spec.Records watched.old.second.limits (R.remaining reader.old) (R.remaining reader.new) result }
{
    read_stream(client, watched, reader)?;
    match recorded_now(alloc, client, watched) {
        Ok(recorded) => Ok(recorded),
        Err(_) => Err(AppFault::Memory),
    }
}

/// Reads a stream to its end, and keeps what is compared of it. By these limits something is odd.
///
/// A last line without its line end is ignored.
///
/// - `Memory`: there was no memory for the tables, the places or what is odd.
/// - `Read`: the reader failed, or gave no end within 2^32 reads.
/// - `Stream`: a line has a fault, or more than 268,435,456 bytes.
pub fn read_recorded<R: Read>(
    alloc: Global,
    reader: &mut R,
    limits: Limits,
) -> Result<Recorded, AppFault>
    ensures { spec.Records limits (R.remaining reader.old) (R.remaining reader.new) result }
{
    let Ok(diagnosis) = Diagnosis::new(alloc, limits) else {
        return Err(AppFault::Memory);
    };
    let places = Both {
        first: Sites::new(alloc),
        second: TimedSites::new(alloc, true),
    };
    let mut watched = Both {
        first: places,
        second: diagnosis,
    };
    match Client::new(alloc, MAX_LINE) {
        Ok(mut client) => read_by(&mut client, &mut watched, alloc, reader),
        Err(_) => Err(AppFault::Memory),
    }
}
