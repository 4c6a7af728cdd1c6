//! What the tables of an operator say.

ghost use Rattle.std.specs.Option.{ForSome};
ghost use Rattle.std.specs.Prelude.{◌≡◌, ◌<◌, ◌≤◌};

/// When a day ends.
#[derive(Clone, Copy)]
pub struct DaySettings {
    /// At which time of day it ends, in milliseconds since midnight, UTC. `None`: where it is told to.
    pub ends: Option<u64>,
    /// For how many seconds the market's answers are awaited before clients' links are closed: 0 to 3,600.
    pub linger: u64,
    ghost of_day: { ForSome ends (λ time. time < 86400000) },
    ghost bounded: { linger ≤ 3600 },
}

impl DaySettings {
    /// Of a day that ends where it is told to, ten seconds after. Takes no memory.
    pub(crate) fn usual() -> DaySettings
        ensures ends { result.ends ≡ None }
        ensures linger { result.linger ≡ 10 }
    {
        DaySettings {
            ends: None,
            linger: 10,
        }
    }
}

/// Where the control endpoint listens, and who may use it.
#[derive(Drop)]
pub struct ControlSettings {
    /// A host and a TCP port.
    pub listen: String,
    /// What each request has to give, where it is set: 16 to 64 characters.
    pub token: Option<String>,
    /// A further name under which a browser may call it, a host and a TCP port.
    pub host: Option<String>,
}
