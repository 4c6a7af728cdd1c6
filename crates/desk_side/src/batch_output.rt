//! The output of a batch, to be queued.

ghost use Rattle.gate_events.specs.Seen.{batch_seen};
ghost use Rattle.desk_side.specs.BatchOutput.{IsOutputOf};

use gate_events::{Batch, ClientNumber, Output, PortNumber};

/// The output of a batch: the list for its client and the list for its port.
#[derive(Drop)]
pub struct BatchOutput {
    pub client: Option<ClientNumber>,
    pub client_output: Output,
    pub port: Option<PortNumber>,
    pub port_output: Output,
}

impl BatchOutput {
    /// The output of a batch, moved out of it. Takes no memory.
    pub fn of(batch: Batch) -> BatchOutput
        ensures { IsOutputOf (batch_seen batch) result }
    {
        let (client, port) = (batch.client, batch.port);
        let (client_output, port_output) = batch.into_outputs();
        BatchOutput {
            client,
            client_output,
            port,
            port_output,
        }
    }
}
