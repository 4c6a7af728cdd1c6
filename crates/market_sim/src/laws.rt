//! What holds of every run of the market's session.

ghost use Rattle.std.specs.Prelude.{List};
ghost use Rattle.market_sim.specs.Runs.{IsServed, SimMove, sim_run};

/// Whatever comes, and whatever is said: on a link with a login every message from its number on was sent, once and in
/// order. It does nothing: its contract is the law.
pub fn messages_are_sent_from_the_number_asked()
    ensures { (moves : List SimMove) → IsServed (sim_run moves) }
{}
