//! Why a settings file is refused.

ghost use Rattle.std.specs.Prelude.{◌≡◌, ⊤, Some, string_bytes};
ghost use Rattle.settings_file.specs.Judged.{IsRefusalOf};
ghost use Rattle.settings_file.specs.declared.fault.SettingsFault.TheVariants.{NoMemory};

use std::alloc::{AllocError, AllocFailed, Global};
use std::fmt;

/// Why a settings file is refused.
#[derive(Debug, Drop)]
pub enum SettingsFault {
    /// A key is missing or wrong.
    Refused(Refusal),
    /// The text isn't TOML, as is seen on this line, from 1.
    NotToml(usize),
    /// Memory ran out: it says nothing of the text.
    NoMemory,
}

/// A key of a settings file that is missing or wrong. It is displayed with its table: `comp`, `port[2].address`.
#[derive(Debug, Drop)]
pub struct Refusal {
    /// The table in which it is.
    pub table: SettingsTable,
    /// The bare key; `port` or `client` of the top where tables are missing or too many.
    pub key: String,
}

/// A table of a settings file. Those of ports, and those of clients, are numbered from 1 in the order of the file.
#[derive(Clone, Copy, Debug, PartialEq, Eq)]
pub enum SettingsTable {
    /// What stands in front of all tables.
    Top,
    /// A `[[port]]`.
    Port(usize),
    /// A `[[client]]`.
    Client(usize),
}

impl fmt::Display for Refusal {
    fn fmt<W: fmt::Write>(&self, f: &mut fmt::Formatter<W>) -> fmt::Result {
        let key = self.key.as_str();
        match self.table {
            SettingsTable::Top => write!(f, "{key}"),
            SettingsTable::Port(number) => write!(f, "port[{number}].{key}"),
            SettingsTable::Client(number) => write!(f, "client[{number}].{key}"),
        }
    }
}

impl From<AllocError> for SettingsFault {
    ghost from_gives = { λ _ fault. fault ≡ NoMemory };

    fn from(_error: AllocError) -> SettingsFault {
        SettingsFault::NoMemory
    }
}

impl<T: Drop> From<AllocFailed<T>> for SettingsFault {
    ghost from_gives = { λ _ fault. fault ≡ NoMemory };

    fn from(_error: AllocFailed<T>) -> SettingsFault {
        SettingsFault::NoMemory
    }
}

/// The refusal of this key of this table. One growth.
pub fn refusal_of(alloc: Global, table: SettingsTable, key: &str) -> SettingsFault
    ensures { IsRefusalOf table key.now result }
{
    match String::from_str(alloc, key) {
        Ok(key) => SettingsFault::Refused(Refusal { table, key }),
        Err(_) => SettingsFault::NoMemory,
    }
}
