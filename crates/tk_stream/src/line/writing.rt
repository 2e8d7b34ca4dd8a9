//! The text of a line.
ghost use Rattle.std.specs.Prelude.{◌≡◌, ◌++◌, true, codes, IfOk, OnOk};
ghost use Rattle.serde_json.specs.Written.{compact_text};
ghost use Rattle.tk_stream.specs.Pieces.{Puts};
ghost use Rattle.tk_stream.specs.Spelling as spec;

use super::Line;
use crate::error::LineError;
use crate::line::gone::put_gone;
use crate::text::write::pieces::put_text;
use crate::text::write::short::{ROOM, flag_before, number_before, put_short, text_before};
use crate::text::write::times::put_times;
use crate::text::write::written::{put_items, put_open};
use std::alloc::AllocError;
use tk_ids::Dropped;

// So many bytes most texts have at most: the keys of a line, an info, the poll counts of a resource, and a row.
const KEYS_ROOM: usize = 256;

const INFO_ROOM: usize = 256;

const COUNTS_ROOM: usize = 48;

const ROW_ROOM: usize = 384;

impl Line {
    ghost use Rattle.std.specs.Prelude.{IfErr, Ok};
    ghost use Rattle.tk_stream.specs.Reading.{line_of_text};

    /// The text of the line: one JSON object, compact, with its keys in byte order and without a line end.
    ///
    /// It reads back as this line. Its one error is `Memory`.
    pub fn write(&self) -> Result<Vec<u8>, LineError>
        ensures text { IfOk result (λ text. text.items ≡ spec.line_text self.now) }
        ensures one_line { IfOk result (λ text. spec.is_one_line text.items ≡ true) }
        ensures memory { IfErr result (λ e. e ≡ LineError.Memory) }
        ensures reads_back { IfOk result (λ text. line_of_text text.items ≡ Ok self.now) }
    {
        let mut out = Vec::with_capacity(*self.new_tasks.allocator(), self.room())?;
        self.put(&mut out)?;
        Ok(out)
    }

    // Room for the texts of most lines, so that few of them grow while they are written.
    fn room(&self) -> usize {
        let infos = (self.new_ops.len())
            .saturating_add(self.new_resources.len())
            .saturating_add(self.new_tasks.len());
        let rows = (self.op_stats.len())
            .saturating_add(self.resource_stats.len())
            .saturating_add(self.task_stats.len());
        KEYS_ROOM
            .saturating_add(infos.saturating_mul(INFO_ROOM))
            .saturating_add(self.poll_counts.len().saturating_mul(COUNTS_ROOM))
            .saturating_add(rows.saturating_mul(ROW_ROOM))
    }

    fn put(&self, out: &mut Vec<u8>) -> Result<(), AllocError>
        ensures { OnOk result (Puts out.old.items out.new.items (spec.line_text self.now)) }
    {
        let scratch = &mut [0; ROOM];
        put_dropped(out, scratch, self.dropped)?;
        put_gone(out, scratch, &self.gone)?;
        put_open(out, scratch, b",\"new_ops\":[", self.new_ops.as_slice())?;
        put_open(
            out,
            scratch,
            b"],\"new_resources\":[",
            self.new_resources.as_slice(),
        )?;
        put_open(
            out,
            scratch,
            b"],\"new_tasks\":[",
            self.new_tasks.as_slice(),
        )?;
        let at = text_before(scratch, ROOM, b",\"op_stats\":[");
        let at = number_before(scratch, at, b"],\"now\":", self.moment);
        put_short(out, scratch, at)?;
        put_items(out, scratch, self.op_stats.as_slice())?;
        put_open(
            out,
            scratch,
            b"],\"poll_counts\":[",
            self.poll_counts.as_slice(),
        )?;
        put_open(
            out,
            scratch,
            b"],\"resource_stats\":[",
            self.resource_stats.as_slice(),
        )?;
        let at = text_before(scratch, ROOM, b",\"task_stats\":[");
        let at = flag_before(scratch, at, b",\"snapshot\":", self.snapshot);
        let at = number_before(scratch, at, b"],\"seq\":", self.seq);
        put_short(out, scratch, at)?;
        put_items(out, scratch, self.task_stats.as_slice())?;
        put_text(out, b"]")?;
        put_times(out, scratch, &self.task_times)?;
        let at = text_before(scratch, ROOM, b"}");
        let at = number_before(scratch, at, b",\"v\":", self.version());
        put_short(out, scratch, at)?;
        Ok(())
    }
}

// What a line begins with: its first member.
fn put_dropped(
    out: &mut Vec<u8>,
    scratch: &mut [u8; ROOM],
    dropped: Dropped,
) -> Result<(), AllocError>
    ensures { OnOk result (Puts out.old.items out.new.items
        (codes "{\"dropped\":" ++ compact_text (spec.dropped_data dropped))) }
{
    let at = text_before(scratch, ROOM, b"]");
    let at = number_before(scratch, at, b",", dropped.ops);
    let at = number_before(scratch, at, b",", dropped.resources);
    let at = number_before(scratch, at, b"{\"dropped\":[", dropped.tasks);
    put_short(out, scratch, at)?;
    Ok(())
}
