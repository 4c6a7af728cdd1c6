//! The calls on values: prices and quantities, tokens, messages as fields and as types.

mod decimals;
mod field_lists;
mod messages;
mod order_tokens;

use crate::wire;
use messages::Part;
use std::alloc::{AllocError, Global};

/// What a call on a value answers, or any other one on the wire.
pub fn answer(alloc: Global, call: &str, asked: &str) -> Result<String, AllocError> {
    match call {
        "price" => decimals::price(alloc, asked),
        "quantity" => decimals::quantity(alloc, asked),
        "worth" => decimals::worth(alloc, asked),
        "printed" => decimals::printed(alloc, asked),
        "average" => decimals::averaged(alloc, asked),
        "units" => decimals::units(alloc, asked),
        "shares" => decimals::shares(alloc, asked),
        "token" => order_tokens::token(alloc, asked),
        "number" => order_tokens::number(alloc, asked),
        "fields" => field_lists::fields(alloc, asked),
        "first" => field_lists::first(alloc, asked),
        "message" => messages::message(alloc, Part::Whole, asked),
        "body" => messages::message(alloc, Part::Body, asked),
        _ => wire::answer(alloc, call, asked),
    }
}
