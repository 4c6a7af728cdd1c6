//! The output of one batch to one link, as a list.

ghost use Rattle.std.specs.Prelude.{◌≡◌, IfOk, map};
ghost use Rattle.gate_events.specs.Seen.{link_out_seen};

use crate::batch::LinkOut;
use crate::short_list::ShortList;
use std::alloc::{AllocError, Global};
use std::marker::Model;

/// Outputs to one link, in order. Contracts see the list.
#[derive(Debug, Drop)]
pub struct Output {
    outs: ShortList<LinkOut>,
}

impl Model for Output {
    ghost use Rattle.std.specs.Prelude.{List, map};
    ghost use Rattle.gate_law.specs.Events.{LinkOut};
    ghost use Rattle.gate_events.specs.Seen.{link_out_seen};

    ghost Value = { List LinkOut };

    ghost view = { λ output. map link_out_seen output.outs.items };
}

impl Output {
    /// This list. Takes no memory.
    pub fn of(outs: ShortList<LinkOut>) -> Output
        ensures { result ≡ map link_out_seen outs.items }
    {
        Output { outs }
    }

    /// The same list once more.
    pub fn copied(alloc: Global, outs: &[LinkOut]) -> Result<Output, AllocError>
        ensures { IfOk result (λ output. output ≡ map link_out_seen outs.now) }
    {
        let mut output = ShortList::new();
        for out in outs {
            output.push(alloc, out.copied(alloc)?)?;
        }
        Ok(Output { outs: output })
    }

    /// The list. Takes no memory.
    pub fn as_slice(&self) -> &[LinkOut]
        ensures { map link_out_seen result.now ≡ self.now }
    {
        &self.outs
    }

    /// The list, moved out. Takes no memory.
    pub fn into_outs(self) -> ShortList<LinkOut>
        ensures { map link_out_seen result.items ≡ self }
    {
        self.outs
    }
}
