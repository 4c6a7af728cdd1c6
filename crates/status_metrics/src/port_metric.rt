//! The numbers of ports.

ghost use Rattle.std.specs.Prelude.{◌≡◌};
ghost use Rattle.status_metrics.specs.Numbers as spec;

use crate::client_metric::one_where;
use gate_core::PortRow;
use soup_session::PortState;

/// A number of each port.
#[derive(Clone, Copy)]
pub(crate) enum PortMetric {
    Up,
    Faulted,
    Next,
}

impl PortMetric {
    /// Its name.
    pub(crate) fn name(self) -> &'static [u8]
        ensures { result.now ≡ spec.port_metric_name self }
    {
        match self {
            PortMetric::Up => b"gateway_port_up",
            PortMetric::Faulted => b"gateway_port_faulted",
            PortMetric::Next => b"gateway_port_next",
        }
    }

    /// What it says.
    pub(crate) fn help(self) -> &'static [u8]
        ensures { result.now ≡ spec.port_metric_help self }
    {
        match self {
            PortMetric::Up => b"1 where a port is logged in at the market.",
            PortMetric::Faulted => b"1 where a port is faulted: new orders are refused.",
            PortMetric::Next => b"The number of the next payload that is wanted of the market.",
        }
    }

    /// Of a port.
    pub(crate) fn of(self, row: &PortRow) -> u64
        ensures { result ≡ spec.port_number self row.now }
    {
        match self {
            PortMetric::Up => one_where(row.state.is_up()),
            PortMetric::Faulted => one_where(is_faulted(row.state)),
            PortMetric::Next => row.next,
        }
    }
}

/// Whether a port is faulted.
fn is_faulted(state: PortState) -> bool
    ensures { result ≡ spec.is_faulted state }
{
    matches!(state, PortState::Faulted(_))
}
