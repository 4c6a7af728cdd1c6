//! What is computed of an exchange is the headline.

ghost use Rattle.std.specs.Prelude.{◌<◌, ◌^◌, length};
ghost use Rattle.order_law.specs.Headline.{Headline};
ghost use Rattle.order_law.specs.History.{OrderHistory};
ghost use Rattle.order_law.specs.Told.{reports_in};
ghost use Rattle.order_examples.specs.Computed.{IsLawful};
ghost use Rattle.order_examples.specs.Transcript.{fixed_terms};

/// An exchange whose turns tell what is told, have the faults that are judged and send what is asked has the
/// headline. It does nothing: its contract is the law.
pub fn computed_exchanges_have_the_headline()
    ensures { (h : OrderHistory) → length h < 2 ^ 59 → reports_in h < 10 ^ 64 → IsLawful h → Headline fixed_terms h }
{}
