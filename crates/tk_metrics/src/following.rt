//! The numbers of a stream whose lines were followed.
ghost use Rattle.std.specs.Prelude.{◌≡◌, List, [], IfOk};
ghost use Rattle.tk_stream.specs.Tables.{TablesView};
ghost use Rattle.tk_metrics.specs.Following.{Notes, Sees};
ghost use Rattle.tk_client.specs.Changes.{Timed, untimed};
ghost use Rattle.tk_reading.specs.Shown.{last_timed};
ghost use Rattle.tk_metrics.specs.Histograms.{times_families};
ghost use Rattle.tk_metrics.specs.Keys.{keys_after};
ghost use Rattle.tk_metrics.specs.Streams.{numbers_after, usual};
ghost use Rattle.tk_metrics.specs.declared.apart.Apart.{Apart as Told};

use crate::apart::Apart;
use crate::follower::Follower;
use crate::leavers::Leavers;
use crate::numbers::metrics_with;
use crate::times::put_histograms;
use std::alloc::{AllocError, Global};
use tk_client::{Client, Lints};
use tk_found::limits_by;
use tk_odd::Diagnosis;
use tk_stream::Tables;

/// What follows a stream, before its first line.
pub(crate) fn before_all(alloc: Global, by: Apart, lints: &Lints) -> Result<Follower, AllocError>
    ensures { IfOk result (Sees by (usual lints.now) [] []) }
{
    let leavers = Leavers::new(alloc, by);
    let diagnosis = Diagnosis::new(alloc, limits_by(*lints, None))?;
    Ok(Follower { leavers, diagnosis })
}

// The families of the histograms of a stream whose lines were followed.
fn histogram_text(alloc: Global, leavers: &Leavers, tables: &Tables) -> Result<Vec<u8>, AllocError>
    ensures { (by : Told) (shown : List TablesView) (timed : List Timed) → tables.now ≡ (last_timed untimed timed).0 → Notes by shown timed leavers.now
        → IfOk result (λ text. text.items ≡ times_families (keys_after by shown) timed) }
{
    let all = leavers.histograms(tables)?;
    let mut text = Vec::new(alloc);
    put_histograms(&mut text, &all)?;
    Ok(text)
}

/// The numbers of what a client has come to, whose lines were followed.
pub(crate) fn numbers_now(
    alloc: Global,
    client: &Client,
    seen: &Follower,
    lints: &Lints,
) -> Result<Vec<u8>, AllocError>
    ensures { (by : Told) (shown : List TablesView) (timed : List Timed) → client.now.start.tables ≡ (last_timed untimed timed).0
        → Sees by (usual lints.now) shown timed seen.now
        → IfOk result (λ text. text.items ≡ numbers_after by lints.now shown timed client.now.start.tables) }
{
    let Ok(list) = client.warnings(lints) else {
        return Err(AllocError);
    };
    let leavers = &seen.leavers;
    let left = leavers.left()?;
    let more = histogram_text(alloc, leavers, client.tables())?;
    metrics_with(
        alloc,
        leavers.keys(),
        client.tables(),
        list.as_slice(),
        left,
        &seen.diagnosis,
        leavers.lines(),
        more.as_slice(),
    )
}
