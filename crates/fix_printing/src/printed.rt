//! Fields as they are printed.

ghost use Rattle.std.specs.Prelude.{◌≡◌, ◌≤◌, ◌++◌, ◌∷◌, [], IfOk, OnOk, OnErr, decimal, length, take};
ghost use Rattle.fix_fields.specs.Field.{AreFields, IsTag, IsValue, fields_text, field};
ghost use Rattle.fix_fields.specs.Printed.{PrintsFields, fields_in};

use crate::placed::{
    ROUND_A_VALUE, grow, put, put_array, put_byte, put_decimal, put_few, put_field, put_number,
    reserve,
};
use fix_fields::{Fields, FieldsView, Text, TextBytes};
use std::alloc::{AllocError, Global};
use std::marker::Model;

/// Fields as they are printed: their text alone, without the places of their values. What is written once and kept
/// needs no more. Contracts see the list of tags and values.
#[derive(Debug, Drop)]
pub struct PrintedFields {
    /// The text, and zeros or what was written over behind it.
    text: Vec<u8>,
    /// How many bytes the text has.
    size: usize,
}

impl Model for PrintedFields {
    ghost use Rattle.std.specs.Prelude.{◌≤◌, List, length, take};
    ghost use Rattle.fix_fields.specs.Field.{Field};
    ghost use Rattle.fix_fields.specs.Printed.{PrintsFields, fields_in};

    ghost Value = { List Field };

    ghost view = { λ p. fields_in (take p.size p.text.items) };

    ghost invariant = { λ p. (p.size ≤ length p.text.items) × PrintsFields (take p.size p.text.items) };
}

impl PrintedFields {
    /// No fields, and room for so many bytes of text. One growth.
    pub fn with_capacity(alloc: Global, bytes: usize) -> Result<PrintedFields, AllocError>
        ensures { IfOk result (λ made. made ≡ []) }
    {
        let mut text = Vec::new(alloc);
        grow(&mut text, bytes)?;
        Ok(PrintedFields { text, size: 0 })
    }

    /// No fields are left; the room stays. Takes no memory.
    pub fn clear(&mut self)
        ensures { self.new ≡ [] }
    {
        self.size = 0;
    }

    /// Adds a field at the end: a tag from 1 to 999,999,999, and a value without SOH. `AllocError` leaves the fields
    /// as they were. One growth at most.
    pub fn push(&mut self, tag: u32, value: &[u8]) -> Result<(), AllocError>
        requires tag { IsTag tag }
        requires value { IsValue value.now }
        ensures ok { OnOk result (self.new ≡ self.old ++ field tag value.now ∷ []) }
        ensures err { OnErr result (self.new ≡ self.old) }
    {
        let Some(more) = value.len().checked_add(ROUND_A_VALUE) else {
            return Err(AllocError);
        };
        reserve(&mut self.text, self.size, more)?;
        self.size = put_field(self.text.as_mut_slice(), self.size, tag, value);
        Ok(())
    }

    /// Adds a value of so many bytes, without SOH. `AllocError` leaves the fields as they were. One growth at most.
    pub fn push_array<const N: usize>(
        &mut self,
        tag: u32,
        value: &[u8; N],
    ) -> Result<(), AllocError>
        requires tag { IsTag tag }
        requires value { IsValue value.now }
        ensures ok { OnOk result (self.new ≡ self.old ++ field tag value.now ∷ []) }
        ensures err { OnErr result (self.new ≡ self.old) }
    {
        let Some(more) = N.checked_add(ROUND_A_VALUE) else {
            return Err(AllocError);
        };
        reserve(&mut self.text, self.size, more)?;
        self.size = put_array(self.text.as_mut_slice(), self.size, tag, value);
        Ok(())
    }

    /// Adds a value of one byte, which is not SOH. `AllocError` leaves the fields as they were. One growth at most.
    #[inline(always)]
    pub fn push_byte(&mut self, tag: u32, value: u8) -> Result<(), AllocError>
        requires tag { IsTag tag }
        requires value { IsValue (value ∷ []) }
        ensures ok { OnOk result (self.new ≡ self.old ++ field tag (value ∷ []) ∷ []) }
        ensures err { OnErr result (self.new ≡ self.old) }
    {
        reserve(&mut self.text, self.size, 16)?;
        self.size = put_byte(self.text.as_mut_slice(), self.size, tag, value);
        Ok(())
    }

    /// Adds a text as a value. `AllocError` leaves the fields as they were. One growth at most.
    pub fn push_text(&mut self, tag: u32, value: &Text) -> Result<(), AllocError>
        requires tag { IsTag tag }
        ensures ok { OnOk result (self.new ≡ self.old ++ field tag value.now ∷ []) }
        ensures err { OnErr result (self.new ≡ self.old) }
    {
        match value.bytes() {
            TextBytes::Few { count, bytes } => self.push_few(tag, bytes, *count),
            TextBytes::Many(bytes) => self.push(tag, bytes.as_slice()),
        }
    }

    /// Adds a number in decimal. `AllocError` leaves the fields as they were. One growth at most.
    #[inline(always)]
    pub fn push_number(&mut self, tag: u32, number: u64) -> Result<(), AllocError>
        requires tag { IsTag tag }
        ensures ok { OnOk result (self.new ≡ self.old ++ field tag (decimal number) ∷ []) }
        ensures err { OnErr result (self.new ≡ self.old) }
    {
        reserve(&mut self.text, self.size, 40)?;
        self.size = put_number(self.text.as_mut_slice(), self.size, tag, number);
        Ok(())
    }

    /// Adds a number in decimal, a point, and the first of these digits behind it, so many. `AllocError` leaves the
    /// fields as they were. One growth at most.
    pub fn push_decimal(
        &mut self,
        tag: u32,
        whole: u64,
        fraction: &[u8; 4],
        count: usize,
    ) -> Result<(), AllocError>
        requires tag { IsTag tag }
        requires count { count ≤ 4 }
        requires value { IsValue (decimal whole ++ 46 ∷ take count fraction.now) }
        ensures ok { OnOk result (self.new
            ≡ self.old ++ field tag (decimal whole ++ 46 ∷ take count fraction.now) ∷ []) }
        ensures err { OnErr result (self.new ≡ self.old) }
    {
        reserve(&mut self.text, self.size, 40)?;
        self.size = put_decimal(
            self.text.as_mut_slice(),
            self.size,
            tag,
            whole,
            fraction,
            count,
        );
        Ok(())
    }

    /// Adds the first of these bytes, so many, as a value.
    fn push_few(&mut self, tag: u32, bytes: &[u8; 16], count: usize) -> Result<(), AllocError>
        requires tag { IsTag tag }
        requires count { count ≤ 16 }
        requires value { IsValue (take count bytes.now) }
        ensures ok { OnOk result (self.new ≡ self.old ++ field tag (take count bytes.now) ∷ []) }
        ensures err { OnErr result (self.new ≡ self.old) }
    {
        reserve(&mut self.text, self.size, 32)?;
        self.size = put_few(self.text.as_mut_slice(), self.size, tag, bytes, count);
        Ok(())
    }

    /// Adds the fields that this text is. `AllocError` leaves the fields as they were. One growth at most.
    pub fn append_text(&mut self, text: &[u8]) -> Result<(), AllocError>
        requires { PrintsFields text.now }
        ensures ok { OnOk result (self.new ≡ self.old ++ fields_in text.now) }
        ensures err { OnErr result (self.new ≡ self.old) }
    {
        reserve(&mut self.text, self.size, text.len())?;
        put(self.text.as_mut_slice(), self.size, text);
        self.size += text.len();
        Ok(())
    }

    /// The text of all fields, as it is written. Takes no memory.
    pub fn text(&self) -> &[u8]
        ensures text { result.now ≡ fields_text self.now }
        ensures fields { AreFields self.now }
        ensures prints { PrintsFields result.now }
        ensures same { fields_in result.now ≡ self.now }
    {
        &self.text[..self.size]
    }

    /// The fields, with the places of their values. Two growths.
    pub fn to_fields(&self, alloc: Global) -> Result<Fields, AllocError>
        ensures { IfOk result (λ fields. fields ≡ self.now) }
    {
        let fields = FieldsView::known(self.text()).to_fields(alloc)?;
        Ok(fields)
    }
}

/// The text of fields, which is these fields. Takes no memory.
pub fn printed_fields(fields: &Fields) -> &[u8]
    ensures text { result.now ≡ fields_text fields.now }
    ensures prints { PrintsFields result.now }
    ensures same { fields_in result.now ≡ fields.now }
{
    fields.text()
}
