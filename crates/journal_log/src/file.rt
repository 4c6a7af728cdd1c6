//! The file of a log.

ghost use Rattle.std.specs.Prelude.{◌≡◌, ◌<◌, ◌≤◌, ◌++◌, List, ℕ, OnErr, OnOk};
ghost use Rattle.journal_log.specs.Crash.{Follows, Only, StandsBefore};

use crate::fault::WriteFault;

/// A file that is only added to, as a log sees it.
///
/// Its one premise is `durable`: what a sync that answered well leaves is what every crash leaves. A file in memory
/// meets it by what it does; of a file of the system it is trusted.
pub trait LogFile {
    /// The bytes that a read returns.
    ghost seen: { Self → List ℕ };

    /// What a crash at this moment may leave.
    ghost may_leave: { Self → List ℕ → Type 0 };

    /// How often a call has failed.
    ghost faults: { Self → ℕ };

    /// Adds bytes. Until a sync a crash may leave any bytes in their place, or none.
    fn append(&mut self, bytes: &[u8]) -> Result<(), WriteFault>
        ensures added { OnOk result (seen self.new ≡ seen self.old ++ bytes.now) }
        ensures crash { Follows StandsBefore (may_leave self.old) (may_leave self.new) }
        ensures earlier { faults self.old ≤ faults self.new }
        ensures cause { OnErr result (faults self.old < faults self.new) };

    /// After it a crash leaves what a read returns.
    fn sync(&mut self) -> Result<(), WriteFault>
        ensures durable { OnOk result (Only (seen self.old) (may_leave self.new)) }
        ensures seen { seen self.new ≡ seen self.old }
        ensures crash { (c : List ℕ) → may_leave self.new c → may_leave self.old c }
        ensures earlier { faults self.old ≤ faults self.new }
        ensures cause { OnErr result (faults self.old < faults self.new) };
}
