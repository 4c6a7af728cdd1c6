//! The name of a desk.

use std::marker::Brand;

/// Names the queues of one desk, by position: of each inlet its queue and its source, of each outlet its queue and its
/// recipient. Whoever opens a desk picks the name.
pub trait DeskName {
    ghost use Rattle.std.specs.Prelude.{List};
    ghost use Rattle.desk_rings.specs.Rings.{NamedInlet, NamedOutlet};

    ghost inlets: { List NamedInlet };

    ghost outlets: { List NamedOutlet };
}

impl DeskName for Brand {
    ghost use Rattle.std.specs.Prelude.{[]};

    ghost inlets = { [] };

    ghost outlets = { [] };
}
