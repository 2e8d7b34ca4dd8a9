//! The numbers of a stream as the text that Prometheus reads: families of samples, in the form of OpenMetrics.
//!
//! - [`metrics_stream`]: reads a stream to its end, and writes its numbers.
//! - [`keep_metrics`]: keeps its numbers in a [`Place`] while it comes.
//! - [`metrics`]: the numbers of tables, of what has left them ([`Left`]), and of what is odd.
//! - [`By`]: whether tasks are added up by their names or their places, or shown each by itself; [`Apart`] has it with how many labels stand by themselves.
#![tactic(auto)]

mod apart;
mod blame;
mod by;
mod counted;
mod family;
mod follower;
mod following;
mod histograms;
mod keeping;
mod keys;
mod latest;
pub mod laws;
mod leavers;
mod left;
mod numbers;
mod place;
mod reading;
mod stream;
mod sums;
mod text;
mod times;
mod writing;

pub use apart::Apart;
pub use by::By;
pub use keeping::keep_metrics;
pub use left::Left;
pub use numbers::metrics;
pub use place::Place;
pub use stream::metrics_stream;
pub use tk_fault::AppFault;
