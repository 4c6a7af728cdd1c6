//! Bodies of the application, as they are issued.

ghost use Rattle.std.specs.Prelude.{◌≡◌};
ghost use Rattle.fix_session.specs.Issues as law;

use fix_types::AppBody;
use session_law::Kind;

/// The type of the frame of a body.
pub fn kind_of(body: &AppBody) -> Kind
    ensures { result ≡ law.issued_kind body.now }
{
    match body {
        AppBody::Report(_) => Kind::Report,
        AppBody::CancelReject(_) => Kind::CancelReject,
    }
}
