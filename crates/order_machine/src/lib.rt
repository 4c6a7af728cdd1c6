//! What holds of every history of the order level whose turns tell what the law tells: each order is true to the
//! market; and a table of orders with a step for every message, of which each run has the headline.
//!
//! It is definitions and lemmas over lists alone: there is nothing to call. Whoever meets the table's steps, or the
//! law's tellings, sends and faults, has the headline from here, by the lemmas that `proofs/Lib.antt` exports.
#![tactic(auto)]
