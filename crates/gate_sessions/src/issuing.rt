//! Issuing several bodies to a client, one after another.

ghost use Rattle.std.specs.Prelude.{◌≡◌, ◌<◌, ◌+◌, ℕ, List, ◌++◌, Option, IfOk, OnOk, length, map};
ghost use Rattle.fix_types.specs.Application.{body_fields};
ghost use Rattle.gate_law.specs.session_law.Runs.{Timed};
ghost use Rattle.gate_law.specs.session_law.Frames.{told_of_out};
ghost use Rattle.fix_session.specs.session_writing.Written.{told_frame};
ghost use Rattle.gate_law.specs.order_law.Messages.{body_of};
ghost use Rattle.gate_law.specs.Settings.{Settings, client_name};
ghost use Rattle.gate_law.specs.Sessions.{client_answer, client_outs, client_reports, issues, report_issued};
ghost use Rattle.gate_law.specs.Sessions.{to_link};
ghost use Rattle.gate_sessions.specs.Leaving.{issue_call};
ghost use Rattle.gate_sessions.specs.Lines.{ClientsCalled, ClientsStayLinked, ClientsStaySettled, ClientsLeave};
ghost use Rattle.gate_sessions.specs.Lines.{ClientLinks, called_all};
ghost use Rattle.gate_events.specs.Seen.{link_out_seen};
ghost use Rattle.gate_sessions.specs.Links.{outs_told_on};

use crate::client_lines::Clients;
use fix_session::IssuedTurn;
use fix_types::AppBody;
use gate_events::{LinkOut, ShortList};
use session_law::IssuedReport;
use std::alloc::{AllocError, Global};

/// The result of issuing bodies to one client.
#[derive(Drop)]
pub struct Issues {
    /// Each body, in order, as it was issued, whether its frame was written or not: the fields from MsgType (35) on.
    pub reports: ShortList<IssuedReport>,
    /// The output to the client's link, in order.
    pub outs: ShortList<LinkOut>,
}

/// Issues bodies, in their order, each once, and gives the report of each and the output to the current link.
///
/// `AllocError` leaves every link and the number of lines as they were; how many of the bodies were issued isn't said.
pub fn client_issue_all(
    clients: &mut Clients,
    alloc: Global,
    place: usize,
    bodies: &[AppBody],
    at: u64,
) -> Result<Issues, AllocError>
    requires place { place < length clients.old.lines.items }
    ensures leave { OnOk result ((s : Settings) (calls : ℕ → List Timed) → ClientsLeave s calls clients.old.lines.items
        → ClientsLeave s (called_all (place + 1) (issues at (map body_fields bodies.now)) calls)
        clients.new.lines.items) }
    ensures outs { IfOk result (λ all. (s : Settings) (calls : ℕ → List Timed) (links : ℕ → Option ℕ)
        → ClientsLeave s calls clients.old.lines.items → ClientLinks links clients.old.lines.items
        → map link_out_seen all.outs.items ≡ outs_told_on (links (place + 1))
        (map (told_of_out s.comp (client_name s (place + 1)))
        (client_outs s (place + 1) (calls (place + 1)) (issues at (map body_fields bodies.now))))) }
    ensures reports { IfOk result (λ all. (s : Settings) (calls : ℕ → List Timed)
        → ClientsLeave s calls clients.old.lines.items
        → all.reports.items ≡ client_reports s (place + 1) (calls (place + 1))
        (issues at (map body_fields bodies.now))) }
    ensures bodies { IfOk result (λ all. (s : Settings) (calls : ℕ → List Timed)
        → ClientsLeave s calls clients.old.lines.items
        → map body_of all.reports.items ≡ map body_fields bodies.now) }
    ensures links { ClientsStayLinked clients.old clients.new }
    ensures settled { ClientsStaySettled clients.old clients.new }
    ensures length { length clients.new.lines.items ≡ length clients.old.lines.items }
{
    let link = clients.lines[place].link;
    let mut all = Issues {
        reports: ShortList::new(),
        outs: ShortList::new(),
    };
    for body in bodies {
        issue_one(clients, alloc, place, link, body, at, &mut all)?;
    }
    Ok(all)
}

/// Issues a body, and adds its report and its output.
fn issue_one(
    clients: &mut Clients,
    alloc: Global,
    place: usize,
    link: Option<u64>,
    body: &AppBody,
    at: u64,
    all: &mut Issues,
) -> Result<(), AllocError>
    requires place { place < length clients.old.lines.items }
    ensures leave { OnOk result (ClientsCalled place (issue_call at body.now) clients.old clients.new) }
    ensures outs { OnOk result ((s : Settings) (calls : ℕ → List Timed) → ClientsLeave s calls clients.old.lines.items
        → map link_out_seen all.new.outs.items ≡ map link_out_seen all.old.outs.items
        ++ outs_told_on link (map (told_of_out s.comp (client_name s (place + 1)))
        (client_answer s (place + 1) (calls (place + 1)) (issue_call at body.now)).outs)) }
    ensures reports { OnOk result ((s : Settings) (calls : ℕ → List Timed)
        → ClientsLeave s calls clients.old.lines.items
        → all.new.reports.items ≡ all.old.reports.items
        ++ report_issued s (place + 1) (calls (place + 1)) (issue_call at body.now)) }
    ensures links { ClientsStayLinked clients.old clients.new }
    ensures settled { ClientsStaySettled clients.old clients.new }
    ensures length { length clients.new.lines.items ≡ length clients.old.lines.items }
{
    let IssuedTurn { frame, report } = clients.issue(alloc, place, body, at)?;
    all.reports.push(alloc, report)?;
    tell_frame(alloc, link, frame, &mut all.outs)
}

/// Adds a frame for this link, if there are both.
fn tell_frame(
    alloc: Global,
    link: Option<u64>,
    frame: Option<Vec<u8>>,
    outs: &mut ShortList<LinkOut>,
) -> Result<(), AllocError>
    ensures { OnOk result (map link_out_seen outs.new.items
        ≡ map link_out_seen outs.old.items ++ outs_told_on link (told_frame frame)) }
{
    match link {
        None => Ok(()),
        Some(link) => write_frame(alloc, link, frame, outs),
    }
}

/// A frame as output to a link, if there is one.
fn write_frame(
    alloc: Global,
    link: u64,
    frame: Option<Vec<u8>>,
    outs: &mut ShortList<LinkOut>,
) -> Result<(), AllocError>
    ensures { OnOk result (map link_out_seen outs.new.items
        ≡ map link_out_seen outs.old.items ++ map (to_link link) (told_frame frame)) }
{
    if let Some(bytes) = frame {
        outs.push(alloc, LinkOut::Write { link, bytes })?;
    }
    Ok(())
}
