//! BusinessMessageReject: 35=j.

ghost use Rattle.std.specs.Prelude.{◌≡◌, None, IfOk, OnOk};
ghost use Rattle.fix_types.specs.BusinessReject.{business_reject_body_slots, business_reject_of};
ghost use Rattle.fix_types.specs.BusinessReject.{business_reject_refusal, IsBusinessReject};
ghost use Rattle.fix_values.specs.Slots.{appended};

use fix_fields::{Fields, Text};
use fix_printing::PrintedFields;
use fix_values::reading::{number_in, text_at};
use fix_values::writing::{push_letter, push_number, push_text};
use fix_values::{Format, Row, TextFault, first_refusal};
use std::alloc::{AllocError, Global};
use wire_law::TextWire;

/// Why the gateway doesn't serve a message that is well formed.
///
/// Source: FIX 4.4 Volume 2, "Business Message Reject", with the fields that this gateway writes, in this order.
pub struct BusinessReject {
    /// RefSeqNum (45): the number of the message.
    pub ref_seq_num: u64,
    /// RefMsgType (372): its type.
    pub ref_msg_type: Text,
    /// BusinessRejectReason (380): 3 is "unsupported message type".
    pub reason: u64,
    /// Text (58).
    pub text: Text,
}

// Not derived: then each way out drops it in one call (docs/DECISIONS.md, "Drops").
impl Drop for BusinessReject {
    fn drop(self) {
        let BusinessReject {
            ref_seq_num: _,
            ref_msg_type: _,
            reason: _,
            text: _,
        } = self;
    }
}

/// The tags that have to be there, in the order in which they are judged.
const REQUIRED: [u32; 4] = [45, 372, 380, 58];

/// What values have to be, in the order in which they are judged.
#[rattlefmt::skip]
const ROWS: [Row; 2] = [
    Row { tag: 45, format: Format::Number },
    Row { tag: 380, format: Format::Number },
];

impl TextWire<Fields, TextFault> for BusinessReject {
    ghost use Rattle.fix_values.specs.declared.refusal.TextFault.TheVariants.{NoMemory};
    ghost use Rattle.std.specs.Prelude.{◌≡◌, None, IfOk, IfErr, MatchResult};
    ghost use Rattle.fix_types.specs.declared.business_reject.BusinessReject.{BusinessReject};
    ghost use Rattle.fix_values.specs.Formats.{TellsFault};
    ghost use Rattle.fix_types.specs.BusinessReject.{business_reject_fields, business_reject_refusal};
    ghost use Rattle.fix_types.specs.BusinessReject.{business_reject_of, IsBusinessReject};

    ghost text = { business_reject_fields };

    ghost is_value = { IsBusinessReject };

    ghost is_no_memory = { λ fault. fault ≡ NoMemory };

    fn put(&self, alloc: Global) -> Result<Fields, AllocError> {
        let mut fields = PrintedFields::with_capacity(alloc, 64)?;
        push_letter(&mut fields, 35, b'j')?;
        push_body(&mut fields, self)?;
        fields.to_fields(alloc)
    }

    fn get(alloc: Global, fields: &Fields) -> Result<Self, TextFault>
        ensures read { (value : BusinessReject) → IsBusinessReject value → fields.now ≡ business_reject_fields value
            → MatchResult result (λ read. read ≡ value) (λ fault. fault ≡ NoMemory) }
        ensures kept { IfOk result IsBusinessReject }
        ensures said { IfOk result (λ said. (business_reject_refusal fields.now ≡ None)
            × (said ≡ business_reject_of fields.now)) }
        ensures refused { IfErr result (TellsFault (business_reject_refusal fields.now)) }
    {
        match first_refusal(fields, &REQUIRED, &ROWS) {
            Some(refusal) => Err(TextFault::Refused(refusal)),
            None => Ok(read_business_reject(alloc, fields)?),
        }
    }
}

/// Adds what is refused, and why.
fn push_body(fields: &mut PrintedFields, reject: &BusinessReject) -> Result<(), AllocError>
    ensures written { OnOk result (fields.new ≡ appended fields.old (business_reject_body_slots reject.now)) }
    ensures kept { OnOk result (IsBusinessReject reject.now) }
{
    push_number(fields, 45, reject.ref_seq_num)?;
    push_text(fields, 372, &reject.ref_msg_type)?;
    push_number(fields, 380, reject.reason)?;
    push_text(fields, 58, &reject.text)
}

/// The business reject that fields say, which meet no refusal.
fn read_business_reject(alloc: Global, fields: &Fields) -> Result<BusinessReject, AllocError>
    requires { business_reject_refusal fields.now ≡ None }
    ensures said { IfOk result (λ reject. reject ≡ business_reject_of fields.now) }
    ensures kept { IfOk result IsBusinessReject }
{
    Ok(BusinessReject {
        ref_seq_num: number_in(fields, 45),
        ref_msg_type: text_at(alloc, fields, 372)?,
        reason: number_in(fields, 380),
        text: text_at(alloc, fields, 58)?,
    })
}
