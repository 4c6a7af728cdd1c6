//! What an endpoint is over.

use control_guard::Rules;
use status_page::DayNames;

/// Who may use an endpoint, and what the day is called that it shows.
#[derive(Drop)]
pub(crate) struct Served {
    pub(crate) rules: Rules,
    pub(crate) names: DayNames,
}
