//! Application messages: their required tags and formats, before anybody judges their values.

ghost use Rattle.std.specs.Prelude.{◌≡◌, ◌||◌, IfOk, None, bytes_eq, codes};
ghost use Rattle.session_law.specs.Formats as formats;
ghost use Rattle.session_law.specs.Formats.{application_refusal};

use crate::message::is_type;
use crate::words::is_byte;
use fix_types::{
    AppMsg, Fields, SessionRefusal, cancel_refusal, new_order_refusal, read_cancel_request,
    read_new_order, read_replace_request, replace_refusal,
};
use std::alloc::{AllocError, Global};

/// Whether a type is the application's: NewOrderSingle, OrderCancelRequest, OrderCancelReplaceRequest.
pub fn is_app_type(kind: &[u8]) -> bool
    ensures { result ≡ (bytes_eq kind.now (codes "D")
        || (bytes_eq kind.now (codes "F") || bytes_eq kind.now (codes "G"))) }
{
    is_byte(kind, b'D') || (is_byte(kind, b'F') || is_byte(kind, b'G'))
}

/// What an application message is refused with: a required tag is missing, or a value has another format.
pub fn refusal_of(m: &Fields) -> Option<SessionRefusal>
    ensures { result ≡ application_refusal m.now }
{
    if is_type(m, b'D') {
        new_order_refusal(m)
    } else if is_type(m, b'F') {
        cancel_refusal(m)
    } else {
        replace_refusal(m)
    }
}

/// An application message as a type. Nothing refuses it, so it isn't judged again.
pub fn application_of(alloc: Global, m: &Fields) -> Result<AppMsg, AllocError>
    requires { application_refusal m.now ≡ None }
    ensures { IfOk result (λ said. said ≡ formats.application_of m.now) }
{
    if is_type(m, b'D') {
        let order = read_new_order(alloc, m)?;
        Ok(AppMsg::New(order))
    } else if is_type(m, b'F') {
        let request = read_cancel_request(alloc, m)?;
        Ok(AppMsg::Cancel(request))
    } else {
        let request = read_replace_request(alloc, m)?;
        Ok(AppMsg::Replace(request))
    }
}
