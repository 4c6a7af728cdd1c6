//! A day's file, read page by page for its audit.

ghost use Rattle.std.specs.Prelude.{IfOk, MatchResult};
ghost use Rattle.gate_lines.specs.gate_law.Events.{History};
ghost use Rattle.gate_lines.specs.gate_law.Settings as law;
ghost use Rattle.gate_audit.specs.Auditing.{IsAuditing};
ghost use Rattle.gate_audit.specs.gate_journal.Kept.{turns_onto};
ghost use Rattle.journal_audit.specs.Audits.{Audits, IsUnread};
ghost use Rattle.journal_file.specs.Inputs.{IsReadTo};

use gate_audit::DayAudit;
use gate_journal::TurnPages;
use gate_settings::Settings;
use journal_file::{DayReader, Ending, NextTurns, ReadFault};
use order_accounts::ReadingFault;
use std::alloc::Global;
use std::io::{Error, ErrorKind, Read};

/// How often turns are read at most.
const MOST_PARTS: u64 = 1_000_000_000_000;

/// A day whose file was read to its end: its audit, and how the file ends.
#[derive(Drop)]
pub(crate) struct ReadDay {
    pub(crate) audit: DayAudit,
    pub(crate) ending: Ending,
}

/// Why a file wasn't read to its end.
#[derive(Drop)]
pub(crate) enum Unread {
    File(ReadFault),
    /// An order's account can't be read.
    Account(ReadingFault),
}

/// Reads a day's file to its end, and takes its turns into an audit, a few at a time.
pub(crate) fn read_day<R: Read>(
    alloc: Global,
    input: &mut R,
    settings: &Settings,
) -> Result<ReadDay, Unread>
    ensures { MatchResult result
        (λ read. IsReadTo (R.remaining input.old) (R.remaining input.new)
        (λ file. Audits settings.now file read.audit read.ending))
        (λ why. IsUnread (R.remaining input.old) (R.remaining input.new) why) }
{
    let mut reader = DayReader::new(alloc);
    let Ok(mut audit) = DayAudit::new(alloc, settings) else {
        return Err(Unread::Account(ReadingFault::NoMemory));
    };
    for _ in 0..MOST_PARTS {
        match reader.next(alloc, input) {
            Ok(NextTurns::End(ending)) => return Ok(ReadDay { audit, ending }),
            Ok(NextTurns::Turns(part)) => {
                if let Err(fault) = take_turns(alloc, &mut audit, &part) {
                    return Err(Unread::Account(fault));
                }
            }
            Err(fault) => return Err(Unread::File(fault)),
        }
    }
    Err(Unread::File(ReadFault::Read(Error::from(ErrorKind::Other))))
}

/// Takes turns into an audit, one by one.
fn take_turns(alloc: Global, audit: &mut DayAudit, part: &TurnPages) -> Result<(), ReadingFault>
    ensures { IfOk result (λ nothing. (s : law.Settings) (h : History) → IsAuditing s h audit.old
        → IsAuditing s (turns_onto part.now.events part.now.batches h) audit.new) }
{
    let mut ahead = part.turns();
    while let Some((event, batch, behind)) = ahead.split_first(alloc)? {
        audit.take(alloc, &event, &batch)?;
        ahead = behind;
    }
    Ok(())
}
