//! Laws of issued bodies, for those who reason about batches.

ghost use Rattle.std.specs.Prelude.{◌≡◌, ℕ, List, [], ◌∷◌, map};
ghost use Rattle.fix_types.specs.declared.application.AppBody.{AppBody};
ghost use Rattle.fix_types.specs.Application.{body_fields};
ghost use Rattle.gate_law.specs.session_law.Runs.{Timed};
ghost use Rattle.gate_law.specs.order_law.Messages.{body_of};
ghost use Rattle.gate_law.specs.Settings.{Settings};
ghost use Rattle.gate_law.specs.Sessions.{issue, report_issued};
ghost use Rattle.gate_sessions.specs.Leaving.{issue_call};

/// A body that is issued is the one that its report says: the call as it is read off a body's fields is the call that
/// issues the body, and its report, without what a session writes round it, has just the body's fields. It does
/// nothing: its contract is the law.
pub fn issues_are_what_is_reported()
    ensures call { (at : ℕ) (body : AppBody) → issue at (body_fields body) ≡ issue_call at body }
    ensures body { (s : Settings) (c : ℕ) (calls : List Timed) (at : ℕ) (body : AppBody)
        → map body_of (report_issued s c calls (issue_call at body)) ≡ body_fields body ∷ [] }
{}
