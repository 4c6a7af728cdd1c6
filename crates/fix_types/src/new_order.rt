//! NewOrderSingle: 35=D.

ghost use Rattle.std.specs.Prelude.{◌≡◌, OnOk};
ghost use Rattle.fix_values.specs.Slots.{appended};
ghost use Rattle.fix_types.specs.NewOrder.{new_order_slots, IsNewOrder};

use crate::new_order_reading::read_new_order;
use crate::requests::new_order_refusal;
use crate::terms::copied_terms;
use fix_fields::{Fields, Text};
use fix_printing::PrintedFields;
use fix_values::writing::{
    push_char, push_float, push_id, push_letter, push_optional_char, push_optional_float,
    push_optional_text, push_text,
};
use fix_values::{Character, ClOrdId, FloatText, TextFault};
use std::alloc::{AllocError, Global};
use wire_law::TextWire;

/// What a client asks with a new order: the texts of its fields, which are judged elsewhere.
///
/// Source: FIX 4.4 Volume 4, "New Order - Single"; tags that it doesn't name here are passed over.
#[derive(Debug)]
pub struct NewOrder {
    /// ClOrdID (11).
    pub cl_ord_id: ClOrdId,
    /// Side (54).
    pub side: Character,
    /// Symbol (55).
    pub symbol: Text,
    /// OrderQty (38).
    pub order_qty: FloatText,
    /// OrdType (40).
    pub ord_type: Character,
    /// Price (44).
    pub price: Option<FloatText>,
    /// TimeInForce (59).
    pub time_in_force: Option<Character>,
    /// ExecInst (18).
    pub exec_inst: Option<Text>,
    /// OrderCapacity (528).
    pub order_capacity: Option<Character>,
    /// MinQty (110).
    pub min_qty: Option<FloatText>,
}

// Not derived: then each way out drops it in one call (docs/DECISIONS.md, "Drops").
impl Drop for NewOrder {
    fn drop(self) {
        let NewOrder {
            cl_ord_id: _,
            side: _,
            symbol: _,
            order_qty: _,
            ord_type: _,
            price: _,
            time_in_force: _,
            exec_inst: _,
            order_capacity: _,
            min_qty: _,
        } = self;
    }
}

impl NewOrder {
    ghost use Rattle.std.specs.Prelude.{◌≡◌, IfOk};

    /// The same order again, in memory of its own. A growth for each long text.
    pub fn copied(&self, alloc: Global) -> Result<NewOrder, AllocError>
        ensures { IfOk result (λ copy. copy ≡ self.now) }
    {
        let cl_ord_id = ClOrdId::copied(alloc, self.cl_ord_id.as_slice())?;
        let symbol = Text::copied(alloc, self.symbol.as_slice())?;
        let terms = copied_terms(
            alloc,
            &self.order_qty,
            &self.price,
            &self.exec_inst,
            &self.min_qty,
        )?;
        Ok(NewOrder {
            cl_ord_id,
            side: self.side,
            symbol,
            order_qty: terms.order_qty,
            ord_type: self.ord_type,
            price: terms.price,
            time_in_force: self.time_in_force,
            exec_inst: terms.exec_inst,
            order_capacity: self.order_capacity,
            min_qty: terms.min_qty,
        })
    }
}

impl TextWire<Fields, TextFault> for NewOrder {
    ghost use Rattle.fix_values.specs.declared.refusal.TextFault.TheVariants.{NoMemory};
    ghost use Rattle.std.specs.Prelude.{◌≡◌, None, IfOk, IfErr, MatchResult};
    ghost use Rattle.fix_types.specs.declared.new_order.NewOrder.{NewOrder};
    ghost use Rattle.fix_values.specs.Formats.{TellsFault};
    ghost use Rattle.fix_types.specs.NewOrder.{new_order_fields, new_order_of, IsNewOrder};
    ghost use Rattle.fix_types.specs.Requests as requests;

    ghost text = { new_order_fields };

    ghost is_value = { IsNewOrder };

    ghost is_no_memory = { λ fault. fault ≡ NoMemory };

    fn put(&self, alloc: Global) -> Result<Fields, AllocError> {
        let mut fields = PrintedFields::with_capacity(alloc, 128)?;
        push_fields(&mut fields, self)?;
        fields.to_fields(alloc)
    }

    fn get(alloc: Global, fields: &Fields) -> Result<Self, TextFault>
        ensures read { (value : NewOrder) → IsNewOrder value → fields.now ≡ new_order_fields value
            → MatchResult result (λ read. read ≡ value) (λ fault. fault ≡ NoMemory) }
        ensures kept { IfOk result IsNewOrder }
        ensures said { IfOk result (λ said. (requests.new_order_refusal fields.now ≡ None)
            × (said ≡ new_order_of fields.now)) }
        ensures refused { IfErr result (TellsFault (requests.new_order_refusal fields.now)) }
    {
        match new_order_refusal(fields) {
            Some(refusal) => Err(TextFault::Refused(refusal)),
            None => Ok(read_new_order(alloc, fields)?),
        }
    }
}

/// Adds the fields of a new order, its type (35) first. `AllocError` leaves the first of them.
fn push_fields(fields: &mut PrintedFields, order: &NewOrder) -> Result<(), AllocError>
    ensures written { OnOk result (fields.new ≡ appended fields.old (new_order_slots order.now)) }
    ensures kept { OnOk result (IsNewOrder order.now) }
{
    push_letter(fields, 35, b'D')?;
    push_id(fields, 11, &order.cl_ord_id)?;
    push_char(fields, 54, order.side)?;
    push_text(fields, 55, &order.symbol)?;
    push_float(fields, 38, &order.order_qty)?;
    push_char(fields, 40, order.ord_type)?;
    push_optional_float(fields, 44, &order.price)?;
    push_optional_char(fields, 59, order.time_in_force)?;
    push_optional_text(fields, 18, &order.exec_inst)?;
    push_optional_char(fields, 528, order.order_capacity)?;
    push_optional_float(fields, 110, &order.min_qty)
}
