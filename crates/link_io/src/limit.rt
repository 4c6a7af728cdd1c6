//! How many steps an engine may still make, and the fault that ended its link.

ghost use Rattle.std.specs.Prelude.{◌≡◌, ◌≤◌, ◌-◌, None, is_some};
ghost use Rattle.link_io.specs.Limits.{Begins, end_by, refusal};

use crate::link_fault::LinkFault;

/// How many steps an engine may still make, and the fault that ended its link.
#[derive(Clone, Copy)]
pub struct Limit {
    /// How many steps remain before the one that answers `StepLimit`.
    left: u64,
    over: Option<LinkFault>,
}

impl Limit {
    /// For this many steps, the last of which answers `StepLimit`.
    pub(crate) fn new(steps: u64) -> Limit
        requires from_one { 1 ≤ steps }
        ensures left { result.left ≡ steps - 1 }
        ensures over { result.over ≡ None }
    {
        Limit {
            left: steps - 1,
            over: None,
        }
    }

    /// Counts a step. The fault that ended the link, or `StepLimit`.
    pub(crate) fn begin(&mut self) -> Result<(), LinkFault>
        ensures { Begins result self.old self.new }
    {
        if let Some(fault) = self.over {
            return Err(fault);
        }
        if self.left == 0 {
            self.over = Some(LinkFault::StepLimit);
            return Err(LinkFault::StepLimit);
        }
        self.left -= 1;
        Ok(())
    }

    /// Whether no further step is made.
    pub(crate) fn is_over(&self) -> bool
        ensures { result ≡ is_some (refusal self.now) }
    {
        self.over.is_some() || self.left == 0
    }

    /// Notes that the step failed: the link is over, unless memory ran out.
    pub(crate) fn fail(&mut self, fault: LinkFault)
        requires { self.old.over ≡ None }
        ensures left { self.new.left ≡ self.old.left }
        ensures over { self.new.over ≡ end_by fault }
    {
        if fault != LinkFault::NoMemory {
            self.over = Some(fault);
        }
    }
}
