//! Why an operator's settings are refused.

ghost use Rattle.std.specs.Prelude.{◌≡◌, ◌++◌, codes, IfOk, string_bytes};
ghost use Rattle.operator_settings.specs.Judged.{IsRefusalOf};
ghost use Rattle.operator_settings.specs.Rules as rules;
ghost use Rattle.operator_settings.specs.declared.fault.OperatorFault.TheVariants.{NoMemory};

use std::alloc::{AllocError, AllocFailed, Global};

/// Why an operator's settings are refused.
#[derive(Debug, Drop)]
pub enum OperatorFault {
    /// The key that is wrong, with its table: `day.ends`, `control.token`, `client[2].from`; `toml` where the text
    /// isn't TOML.
    Refused(String),
    /// Memory ran out: it says nothing of the text.
    NoMemory,
}

impl From<AllocError> for OperatorFault {
    ghost from_gives = { λ _ fault. fault ≡ NoMemory };

    fn from(_error: AllocError) -> OperatorFault {
        OperatorFault::NoMemory
    }
}

impl<T: Drop> From<AllocFailed<T>> for OperatorFault {
    ghost from_gives = { λ _ fault. fault ≡ NoMemory };

    fn from(_error: AllocFailed<T>) -> OperatorFault {
        OperatorFault::NoMemory
    }
}

/// The refusal of a key in a table.
pub(crate) fn refused(alloc: Global, table: &str, key: &str) -> OperatorFault
    ensures { IsRefusalOf (rules.named table.now key.now) result }
{
    match name_of(alloc, table, key) {
        Ok(name) => OperatorFault::Refused(name),
        Err(_) => OperatorFault::NoMemory,
    }
}

/// A key with its table's name.
fn name_of(alloc: Global, table: &str, key: &str) -> Result<String, AllocError>
    ensures { IfOk result (λ name. string_bytes name ≡ rules.named table.now key.now) }
{
    let mut name = String::from_str(alloc, table)?;
    name.push_str(".")?;
    name.push_str(key)?;
    Ok(name)
}
