//! What is kept of the numbers that a session gave, and how it is put back.

ghost use Rattle.std.specs.Prelude.{◌≡◌, ◌++◌, ◌∷◌, [], Some, OnOk, OnErr, if◌then◌else◌};
ghost use Rattle.fix_framing.specs.fix_fields.Printed.{PrintsFields, fields_in};

use crate::kept::KeptBodies;
use session_law::Kind;
use std::alloc::{AllocError, Global};
use std::marker::Model;

/// What each number from 1 was given to, now and when it was settled last.
///
/// Before the first `settle` it counts as settled with no numbers. What was settled is no second copy: it is the first
/// numbers of the list, or of the list from before numbers began anew.
pub struct UndoBodies {
    given: KeptBodies,
    /// How many numbers were given when it was settled.
    count: usize,
    /// What stood when numbers began anew, the first time since it was settled.
    before: Option<KeptBodies>,
}

// Not derived: then each way out drops it in one call (docs/DECISIONS.md, "Drops").
impl Drop for UndoBodies {
    fn drop(self) {
        let UndoBodies {
            given: _,
            count: _,
            before: _,
        } = self;
    }
}

impl Model for UndoBodies {
    ghost use Rattle.std.specs.Prelude.{◌≤◌, length, take, unwrap_or};
    ghost use Rattle.session_writing.specs.Undoing.{BodiesHeld};

    ghost Value = { BodiesHeld };

    ghost view = { λ b. record { given = b.given; settled = take b.count (unwrap_or b.before b.given) } };

    ghost invariant = { λ b. b.count ≤ length (unwrap_or b.before b.given) };
}

impl UndoBodies {
    /// No number was given. Takes no memory.
    pub fn new(alloc: Global) -> UndoBodies
        ensures given { result.given ≡ [] }
        ensures settled { result.settled ≡ [] }
    {
        UndoBodies {
            given: KeptBodies::new(alloc),
            count: 0,
            before: None,
        }
    }

    /// What the numbers were given to.
    pub fn given(&self) -> &KeptBodies
        ensures { result.now ≡ self.now.given }
    {
        &self.given
    }

    /// The next number was given to the body whose fields are this text, which was first sent, or issued, at this
    /// moment. `AllocError` leaves all as it was. Two growths at most.
    pub fn keep(&mut self, kind: Kind, body: &[u8], at: u64) -> Result<(), AllocError>
        requires { PrintsFields body.now }
        ensures given { OnOk result (self.new.given
            ≡ self.old.given ++ Some (record { kind = kind; body = fields_in body.now; at = at }) ∷ []) }
        ensures settled { self.new.settled ≡ self.old.settled }
        ensures err { OnErr result (self.new ≡ self.old) }
    {
        self.given.keep(kind, body, at)
    }

    /// The next numbers were given to these; they are the first ones where numbers begin anew. `AllocError` leaves all
    /// as it was. Three growths at most.
    pub fn give(&mut self, alloc: Global, begins: bool, more: KeptBodies) -> Result<(), AllocError>
        ensures given { OnOk result (self.new.given ≡ (if begins then [] else self.old.given) ++ more) }
        ensures settled { self.new.settled ≡ self.old.settled }
        ensures err { OnErr result (self.new ≡ self.old) }
    {
        if begins {
            self.begin(more);
            return Ok(());
        }
        self.given.append(alloc, &more)
    }

    /// Numbers begin anew, with these. What stood is still there to be put back.
    fn begin(&mut self, first: KeptBodies)
        ensures given { self.new.given ≡ first }
        ensures settled { self.new.settled ≡ self.old.settled }
    {
        let was = std::mem::replace(&mut self.given, first);
        if self.before.is_none() {
            self.before = Some(was);
        }
    }

    /// From now on it is put back to how it is now. Takes no memory.
    pub fn settle(&mut self)
        ensures { self.new ≡ record self.old { settled = self.old.given } }
    {
        self.count = self.given.len();
        self.before = None;
    }

    /// It is as it was when it was settled last. Takes no memory.
    pub fn undo(&mut self)
        ensures { self.new ≡ record self.old { given = self.old.settled } }
    {
        if let Some(was) = self.before.take() {
            self.given = was;
        }
        self.given.cut(self.count);
    }
}
