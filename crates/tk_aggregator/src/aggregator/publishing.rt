//! How lines are made of the tables, and what stands after one that was written, or was cut off.
ghost use Rattle.std.specs.Prelude.{◌≡◌, ◌<◌, ◌+◌, ◌^◌, ◌++◌, ℕ, List, unwrap_or, false, true, OnOk, IfOk, IfErr};
ghost use Rattle.std.specs.Io.KnownBytes.{Appends};
ghost use Rattle.tk_aggregator.specs.Absorbing.{infos_of};
ghost use Rattle.tk_aggregator.specs.Finished.{HoldKept};
ghost use Rattle.tk_aggregator.specs.Aggregates.{leaving_at, untimed_at, TookMore, FollowsTaker, without, line_at, sending_at, having_told, after_line, MayGoOn, IsDue, Refuses};
ghost use Rattle.tk_aggregator.specs.Publishing.{Publishes, StopsBefore, IsTimedStreamTo};
ghost use Rattle.tk_events.specs.Handles.{Taking};
ghost use Rattle.tk_stream.specs.Lines.{none_gone};
ghost use Rattle.tk_stream.specs.Spelling.{sent_text};
ghost use Rattle.tk_stream.specs.Streams.{IsStreamTo, MaySend};
ghost use Rattle.tk_aggregator.specs.declared.stream_error.StreamError.TheVariants.{Memory};

use super::Aggregator;
use crate::published::Published;
use crate::removal::remove;
use crate::stream_error::StreamError;
use std::io::Write;
use std::sync::Wait;
use tk_events::Taker;
use tk_stream::{Leaving, Line, LineError, ToldTables, send};

// A line's text and its line end.
fn text_of(line: &Line) -> Result<Vec<u8>, LineError>
    ensures { IfOk result (λ text. text.items ≡ sent_text line.now) }
{
    let mut text = line.write()?;
    text.push(b'\n')?;
    Ok(text)
}

impl Aggregator {
    // The snapshot of this moment, without histograms.
    fn whole_line(&self, now: u64) -> Result<Line, LineError>
        requires { self.now.last < 2 ^ 63 }
        ensures { IfOk result (λ line. line ≡ untimed_at true self.now now) }
    {
        let alloc = *self.tasks.allocator();
        let nothing = ToldTables::new(alloc);
        let line = Line::since(alloc, &nothing, &self.tables, now, self.last + 1, true)?;
        match self.retention {
            Some(_) => Ok(line.removing_nothing()),
            None => Ok(line),
        }
    }

    // The line of this moment without histograms, and what leaves with it, if anything may.
    fn untimed_line(&self, now: u64, snapshot: bool) -> Result<(Line, Option<Leaving>), LineError>
        requires { self.now.last < 2 ^ 63 }
        ensures line { IfOk result (λ made. made.0 ≡ untimed_at snapshot self.now now) }
        ensures leaving { IfOk result (λ made. unwrap_or made.1 none_gone ≡ leaving_at snapshot self.now now) }
    {
        if snapshot {
            let line = self.whole_line(now)?;
            return Ok((line, None));
        }
        let alloc = *self.tasks.allocator();
        let seq = self.last + 1;
        match self.retention {
            Some(retention) => {
                let (line, leaving) = Line::pruned(
                    alloc,
                    &self.told,
                    &self.tables,
                    now,
                    seq,
                    retention,
                )?;
                Ok((line, Some(leaving)))
            }
            None => {
                let line = Line::since(alloc, &self.told, &self.tables, now, seq, false)?;
                Ok((line, None))
            }
        }
    }

    // The line of this moment, and what leaves with it, if anything may.
    fn next_line(&self, now: u64, snapshot: bool) -> Result<(Line, Option<Leaving>), LineError>
        requires { self.now.last < 2 ^ 63 }
        ensures line { IfOk result (λ made. made.0 ≡ line_at snapshot self.now now) }
        ensures leaving { IfOk result (λ made. unwrap_or made.1 none_gone ≡ leaving_at snapshot self.now now) }
    {
        let (line, leaving) = self.untimed_line(now, snapshot)?;
        let line = self.timing.line(line, leaving.as_ref(), snapshot)?;
        Ok((line, leaving))
    }

    // Its text and a line end, and what leaves with it.
    fn next_text(&self, now: u64, snapshot: bool) -> Result<(Vec<u8>, Option<Leaving>), LineError>
        requires { self.now.last < 2 ^ 63 }
        ensures text { IfOk result (λ made. made.0.items ≡ sent_text (line_at snapshot self.now now)) }
        ensures leaving { IfOk result (λ made. unwrap_or made.1 none_gone ≡ leaving_at snapshot self.now now) }
    {
        let (line, leaving) = self.next_line(now, snapshot)?;
        let text = text_of(&line)?;
        Ok((text, leaving))
    }

    // A whole line of this moment went out, and this leaves with it.
    fn tell(&mut self, now: u64, leaving: &Option<Leaving>)
        requires { self.old.last < 2 ^ 63 }
        ensures { self.new ≡ having_told (without self.old (unwrap_or leaving.now none_gone)) now }
    {
        remove(
            leaving,
            &mut self.tables,
            &mut self.tasks,
            &mut self.resources,
            &mut self.ops,
        );
        let dropped = self.tables.dropped();
        self.tables.set_totals(dropped, now);
        self.told.tell(&self.tables);
        self.timing.tell(leaving);
        self.last += 1;
        self.broken = false;
    }

    // Writes the line of this moment. It goes on, or is a snapshot.
    fn send_line<W: Write>(
        &mut self,
        now: u64,
        writer: &mut W,
        snapshot: bool,
    ) -> Result<u64, StreamError>
        requires { MayGoOn snapshot self.old }
        ensures number { IfOk result (λ n. n ≡ self.old.last + 1) }
        ensures state { OnOk result (self.new ≡ after_line snapshot self.old now) }
        ensures due { OnOk result (IsDue snapshot self.old now) }
        ensures sent { OnOk result (Appends (W.contents writer.old) (W.contents writer.new) (sent_text (line_at snapshot self.old now))) }
        ensures refused { IfErr result (λ e. Refuses e snapshot self.old now self.new (W.contents writer.old) (W.contents writer.new)) }
    {
        if now < self.tables.now() {
            return Err(StreamError::Clock);
        }
        if self.last == 1 << 63 {
            return Err(StreamError::NumbersSpent);
        }
        let Ok((text, leaving)) = self.next_text(now, snapshot) else {
            return Err(StreamError::Memory);
        };
        match send(writer, text.as_slice()) {
            Ok(()) => {
                self.tell(now, &leaving);
                Ok(self.last)
            }
            Err(_) => {
                self.broken = true;
                Err(StreamError::WriteFault)
            }
        }
    }

    /// Writes the next line, which tells what differs from the last whole one, and a line end, and answers its number. `now`
    /// is the line's moment, in nanoseconds.
    ///
    /// With a retention the line says which items are gone: those that the last whole line's tables show as closed, the retention
    /// before the moment or more. Once it is whole they leave the tables, the others keep their order, and the handles of those
    /// that left are let go. A row that was read since then doesn't count, so each closed item was told as closed before it
    /// leaves. Poll counts stay.
    ///
    /// The first of these that applies; at none an item leaves, and after the first four nothing has changed and nothing was
    /// written.
    /// - `Broken`: the last line was cut off, and only a snapshot goes on.
    /// - `Clock`: the moment is below the last whole line's.
    /// - `NumbersSpent`: the last line had number 2^63.
    /// - `Memory`: there is none for the line.
    /// - `WriteFault`: the writer gave an error or took nothing. A proper front of line and line end went out; tables, number
    ///   and moment stay, and the stream is broken.
    pub fn publish<W: Write>(&mut self, now: u64, writer: &mut W) -> Result<u64, StreamError>
        ensures number { IfOk result (λ n. n ≡ self.old.last + 1) }
        ensures state { OnOk result (self.new ≡ after_line false self.old now) }
        ensures due { OnOk result (IsDue false self.old now) }
        ensures sent { OnOk result (Appends (W.contents writer.old) (W.contents writer.new) (sent_text (line_at false self.old now))) }
        ensures refused { IfErr result (λ e. Refuses e false self.old now self.new (W.contents writer.old) (W.contents writer.new)) }
        ensures may_send { IsDue false self.old now → MaySend self.old.told (sending_at false self.old now) }
        ensures stream { OnOk result ((bytes : List ℕ) → IsStreamTo bytes self.old.told self.old.last
            → IsStreamTo (bytes ++ sent_text (line_at false self.old now)) self.new.told self.new.last) }
        ensures timed_stream { OnOk result ((bytes : List ℕ) → IsTimedStreamTo bytes self.old.told self.old.timing.told self.old.last
            → IsTimedStreamTo (bytes ++ sent_text (line_at false self.old now)) self.new.told self.new.timing.told self.new.last) }
        ensures follows { (t : Taking) → FollowsTaker self.old t → FollowsTaker self.new t }
    {
        self.tables();
        if self.broken {
            return Err(StreamError::Broken);
        }
        let number = self.send_line(now, writer, false)?;
        Ok(number)
    }

    /// Takes events in as [`Aggregator::collect`] does, up to `limit`, then reads each ledger as [`Aggregator::refresh`] does, and
    /// then writes the next line as [`Aggregator::publish`] does, at the moment `now`: always in this order, so that each new item
    /// is read before its line, and the line has all that was taken in. Fewer events than the limit were taken in only where the
    /// buffer was empty at a moment of the call.
    ///
    /// The first of these that applies:
    /// - `Memory` of `collect`: an event found none and is held, and those before it stand in the tables. No ledger was read, and
    ///   nothing was written.
    /// - a refusal of `publish`: the events stand in the tables, and each ledger was read. What else stays, `publish` says.
    pub fn collect_and_publish<R: Wait, W: Write>(
        &mut self,
        rt: &R,
        taker: &mut Taker,
        limit: u64,
        now: u64,
        writer: &mut W,
    ) -> Result<Published, StreamError>
        ensures ok { IfOk result (λ done. Publishes self.old taker.old limit now done self.new taker.new (W.contents writer.old) (W.contents writer.new)) }
        ensures err { IfErr result (λ e. StopsBefore e self.old taker.old limit now self.new taker.new (W.contents writer.old) (W.contents writer.new)) }
        ensures took { TookMore taker.old taker.new }
        ensures follows { FollowsTaker self.old taker.old → FollowsTaker self.new taker.new }
        ensures kept { IfOk result (λ done. FollowsTaker self.old taker.old → taker.old.finished ≡ true → done.events < limit
            → HoldKept self.new.retention (infos_of self.new.tables) taker.new.known) }
    {
        let events = match self.collect(rt, taker, limit) {
            Ok(events) => events,
            Err(why) => return Err(why),
        };
        self.refresh(rt);
        match self.publish(now, writer) {
            Ok(number) => Ok(Published { events, number }),
            Err(why) => Err(why),
        }
    }

    /// Writes the next line as one that tells of the tables as a whole, and a line end, and answers its number. After a line
    /// that was cut off the writer has to be that of a new stream; the stream is broken no more. No item leaves.
    ///
    /// The refusals are those of `publish` but for `Broken`.
    pub fn snapshot<W: Write>(&mut self, now: u64, writer: &mut W) -> Result<u64, StreamError>
        ensures number { IfOk result (λ n. n ≡ self.old.last + 1) }
        ensures state { OnOk result (self.new ≡ after_line true self.old now) }
        ensures due { OnOk result (IsDue true self.old now) }
        ensures sent { OnOk result (Appends (W.contents writer.old) (W.contents writer.new) (sent_text (line_at true self.old now))) }
        ensures refused { IfErr result (λ e. Refuses e true self.old now self.new (W.contents writer.old) (W.contents writer.new)) }
        ensures may_send { IsDue true self.old now → MaySend self.old.told (sending_at true self.old now) }
        ensures stream { OnOk result ((bytes : List ℕ) → IsStreamTo bytes self.old.told self.old.last
            → IsStreamTo (bytes ++ sent_text (line_at true self.old now)) self.new.told self.new.last) }
        ensures timed_stream { OnOk result ((bytes : List ℕ) → IsTimedStreamTo bytes self.old.told self.old.timing.told self.old.last
            → IsTimedStreamTo (bytes ++ sent_text (line_at true self.old now)) self.new.told self.new.timing.told self.new.last) }
        ensures opens { OnOk result (IsStreamTo (sent_text (line_at true self.old now)) self.new.told self.new.last) }
        ensures timed_opens { OnOk result (IsTimedStreamTo (sent_text (line_at true self.old now)) self.new.told self.new.timing.told self.new.last) }
        ensures follows { (t : Taking) → FollowsTaker self.old t → FollowsTaker self.new t }
    {
        self.tables();
        let number = self.send_line(now, writer, true)?;
        Ok(number)
    }
}
