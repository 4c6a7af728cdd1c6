//! What an operator's monitoring is told of a day that is served: metrics, drawn in memory of what is on the board.
//!
//! Source: Prometheus text format 0.0.4.
#![tactic(auto)]

mod client_metric;
mod metrics;
mod port_metric;

pub use metrics::metrics_of;
