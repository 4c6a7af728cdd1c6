//! The numbers of clients.

ghost use Rattle.std.specs.Prelude.{◌≡◌};
ghost use Rattle.status_metrics.specs.Numbers as spec;

use gate_core::ClientRow;

/// A number of each client.
#[derive(Clone, Copy)]
pub(crate) enum ClientMetric {
    Up,
    NextIn,
    NextOut,
    OpenOrders,
    ExecutedShares,
    ExecutedValue,
}

impl ClientMetric {
    /// Its name.
    pub(crate) fn name(self) -> &'static [u8]
        ensures { result.now ≡ spec.client_metric_name self }
    {
        match self {
            ClientMetric::Up => b"gateway_client_up",
            ClientMetric::NextIn => b"gateway_client_next_in",
            ClientMetric::NextOut => b"gateway_client_next_out",
            ClientMetric::OpenOrders => b"gateway_open_orders",
            ClientMetric::ExecutedShares => b"gateway_executed_shares",
            ClientMetric::ExecutedValue => b"gateway_executed_value",
        }
    }

    /// What it says.
    pub(crate) fn help(self) -> &'static [u8]
        ensures { result.now ≡ spec.client_metric_help self }
    {
        match self {
            ClientMetric::Up => b"1 where a client is logged on.",
            ClientMetric::NextIn => b"The number that is expected of a client's next frame.",
            ClientMetric::NextOut => b"The number of the next frame that a client is sent.",
            ClientMetric::OpenOrders =>
                b"Orders of a client that aren't closed, by its own reports.",
            ClientMetric::ExecutedShares => b"Executed shares of a client, without broken trades.",
            ClientMetric::ExecutedValue =>
                b"Their value in 1/10,000: shares times price of each trade that stands.",
        }
    }

    /// Of a client.
    pub(crate) fn of(self, row: &ClientRow) -> u128
        ensures { result ≡ spec.client_number self row.now }
    {
        match self {
            ClientMetric::Up => u128::from(one_where(row.is_logged_on)),
            ClientMetric::NextIn => u128::from(row.next_in),
            ClientMetric::NextOut => u128::from(row.next_out),
            ClientMetric::OpenOrders => row.open_orders as u128,
            ClientMetric::ExecutedShares => row.executed_shares,
            ClientMetric::ExecutedValue => row.value,
        }
    }
}

/// 1 where something is so, else 0.
pub(crate) fn one_where(is_so: bool) -> u64
    ensures { result ≡ spec.one_where is_so }
{
    if is_so { 1 } else { 0 }
}
