//! What clients read of the orders that were accepted.

ghost use Rattle.std.specs.Prelude.{◌≡◌, ◌≤◌, ◌++◌, ℕ, IfOk, OnOk, IsErrOf, List, map};
ghost use Rattle.gate_audit.specs.Kept.{AreKept};
ghost use Rattle.gate_audit.specs.Pairs as read;
ghost use Rattle.gate_audit.specs.Pairs.{SaidToClient};
ghost use Rattle.gate_audit.specs.Passes.{StayHeld, fix_in};
ghost use Rattle.gate_audit.specs.Read.{for_clients};

use crate::kept_readings::KeptReadings;
use crate::opening::Opening;
use order_accounts::ReadingFault;
use order_law::Account;
use std::alloc::Global;

/// What so many clients read of these orders, by client and then in the order of acceptance.
///
/// `TooLarge` just where, after one of its client's reports, what was read of an order has a number that is larger than
/// its integer holds; or else `NoMemory`.
pub fn fix_accounts(
    alloc: Global,
    clients: usize,
    openings: &[Opening],
    readings: KeptReadings,
) -> Result<Vec<Account>, ReadingFault>
    requires { clients ≤ 64 }
    ensures read { IfOk result (λ accounts. (all : List SaidToClient) → AreKept all readings
        → accounts.items ≡ for_clients (λ c. map (fix_in all) (read.orders_of c openings.now)) clients) }
    ensures held { OnOk result ((all : List SaidToClient) → AreKept all readings
        → (c : ℕ) → 1 ≤ c → c ≤ clients → StayHeld all (read.orders_of c openings.now)) }
    ensures large { IsErrOf result ReadingFault.TooLarge → (all : List SaidToClient) → AreKept all readings
        → ((c : ℕ) → 1 ≤ c → c ≤ clients → StayHeld all (read.orders_of c openings.now)) → ⊥ }
{
    let mut accounts = Vec::with_capacity(alloc, openings.len())?;
    for place in 0..clients {
        push_own(
            alloc,
            (place + 1) as u16,
            openings,
            &readings,
            &mut accounts,
        )?;
    }
    Ok(accounts)
}

/// What a client read of its orders, behind the accounts before.
fn push_own(
    alloc: Global,
    client: u16,
    openings: &[Opening],
    readings: &KeptReadings,
    accounts: &mut Vec<Account>,
) -> Result<(), ReadingFault>
    ensures read { IfOk result (λ u. (all : List SaidToClient) → AreKept all readings.now
        → accounts.new.items ≡ accounts.old.items ++ map (fix_in all) (read.orders_of client openings.now)) }
    ensures held { OnOk result ((all : List SaidToClient) → AreKept all readings.now
        → StayHeld all (read.orders_of client openings.now)) }
    ensures large { IsErrOf result ReadingFault.TooLarge → (all : List SaidToClient) → AreKept all readings.now
        → StayHeld all (read.orders_of client openings.now) → ⊥ }
{
    for opening in openings {
        if opening.client == client {
            accounts.push(readings.account(alloc, opening)?)?;
        }
    }
    Ok(())
}
