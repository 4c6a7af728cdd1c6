//! How all stood at one moment.

use gate_core::{Board, ClientRow, PortRow};
use std::marker::Model;

/// How all clients and ports stood at one moment, for whoever shows it. Contracts see the board.
///
/// Its type keeps that its rows are those of one history of which all that is promised holds, whoever had it since.
#[derive(Drop)]
pub struct Status {
    board: Board,
}

impl Model for Status {
    ghost use Rattle.gate_core.specs.declared.board.Board.{Board};
    ghost use Rattle.desk_steps.specs.Status.{IsStatus};

    ghost Value = { Board };

    ghost view = { λ s. s.board };

    ghost invariant = { λ s. IsStatus s.board };
}

impl Status {
    ghost use Rattle.std.specs.Prelude.{◌≡◌};
    ghost use Rattle.desk_steps.specs.Status.{IsStatus};

    /// The status of a board. Takes no memory.
    pub(crate) fn new(board: Board) -> Status
        requires day { IsStatus board }
        ensures { result ≡ board }
    {
        Status { board }
    }

    /// How many events were stepped.
    pub fn events(&self) -> u64
        ensures { result ≡ self.now.events }
    {
        self.board.events
    }

    /// How each client stands, in the order of the settings.
    pub fn clients(&self) -> &[ClientRow]
        ensures { result.now ≡ self.now.clients.items }
    {
        self.board.clients.as_slice()
    }

    /// How each port stands, in the order of the settings.
    pub fn ports(&self) -> &[PortRow]
        ensures { result.now ≡ self.now.ports.items }
    {
        self.board.ports.as_slice()
    }
}
