//! Ids and infos, rows and their calls, and cells that threads share.

mod cells;
mod ids;
mod printed;
mod rows;
