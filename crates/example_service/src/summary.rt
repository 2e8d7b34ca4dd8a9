//! What a client makes of the service's stream.

use crate::stop::Stop;
use std::alloc::Global;
use std::fmt;
use std::fmt::{Display, Formatter, Write};
use tk_client::Client;
use tk_stream::Tables;

/// A line of the stream has at most so many bytes.
const MAX_LINE: usize = 1 << 20;

/// The sums over all connections, which are the same whatever the two threads' order is.
#[derive(Drop)]
pub struct Summary {
    connections: usize,
    closed: u64,
    polls: u64,
    self_wakes: u64,
    dropped: u64,
}

impl Summary {
    fn of_tables(tables: &Tables) -> Summary {
        let mut summary = Summary {
            connections: tables.task_count(),
            closed: 0,
            polls: 0,
            self_wakes: 0,
            dropped: tables.dropped().tasks,
        };
        for place in 0..tables.task_count() {
            if let Some(task) = tables.task_at(place) {
                summary.closed = summary
                    .closed
                    .saturating_add(u64::from(task.row.dropped.is_some()));
                summary.polls = summary.polls.saturating_add(task.row.polls);
                summary.self_wakes = summary.self_wakes.saturating_add(task.row.self_wakes);
            }
        }
        summary
    }

    /// What a client makes of the stream, or `Unreadable` where it has a fault.
    pub fn of(alloc: Global, stream: &[u8]) -> Result<Summary, Stop> {
        let mut client = Client::new(alloc, MAX_LINE).map_err(|_| Stop::Memory)?;
        match client.feed(stream) {
            Ok(_) => Ok(Summary::of_tables(client.tables())),
            Err(_) => Err(Stop::Unreadable),
        }
    }
}

impl Display for Summary {
    fn fmt<W: Write>(&self, f: &mut Formatter<W>) -> fmt::Result {
        write!(
            f,
            "{} connections, {} closed: {} polls, {} wakes by themselves, {} not recorded",
            self.connections, self.closed, self.polls, self.self_wakes, self.dropped
        )
    }
}
