//! What a day is called where it is shown.

ghost use Rattle.std.specs.Prelude.{◌≡◌, IfOk, map, string_bytes};
ghost use Rattle.gateway_serve.specs.Names as spec;

use crate::ending::{end_of, now};
use gateway_run::Settings;
use operator_settings::DaySettings;
use status_page::DayNames;
use std::alloc::{AllocError, Global};
use std::time::Clock;

/// What a day of these settings is called, with its ports at these addresses, if it begins now. Neither users nor
/// passwords are in it.
pub(crate) fn names_of<R: Clock>(
    rt: &R,
    alloc: Global,
    settings: &Settings,
    addresses: &[String],
    day: DaySettings,
) -> Result<DayNames, AllocError>
    ensures gateway { IfOk result (λ names. names.gateway.items ≡ settings.now.comp) }
    ensures clients { IfOk result (λ names. map (λ v. v.items) names.clients.items ≡ spec.client_names settings.now) }
    ensures ports { IfOk result (λ names. map (λ v. v.items) names.ports.items ≡ map string_bytes addresses.now) }
{
    let clients = client_names(alloc, settings)?;
    let ports = copies_of(alloc, addresses)?;
    let gateway = Vec::from_slice(alloc, settings.comp())?;
    Ok(DayNames {
        gateway,
        clients,
        ports,
        begun: now(rt).unwrap_or(0),
        ends: end_of(rt, day),
    })
}

/// The names of the clients, in the order of the settings.
fn client_names(alloc: Global, settings: &Settings) -> Result<Vec<Vec<u8>>, AllocError>
    ensures { IfOk result (λ names. map (λ v. v.items) names.items ≡ spec.client_names settings.now) }
{
    let mut names = Vec::new(alloc);
    for client in settings.clients() {
        names.push(Vec::from_slice(alloc, client.comp.as_slice())?)?;
    }
    Ok(names)
}

/// Copies of texts, byte by byte.
fn copies_of(alloc: Global, texts: &[String]) -> Result<Vec<Vec<u8>>, AllocError>
    ensures { IfOk result (λ copies. map (λ v. v.items) copies.items ≡ map string_bytes texts.now) }
{
    let mut copies = Vec::new(alloc);
    for text in texts {
        copies.push(Vec::from_slice(alloc, text.as_bytes())?)?;
    }
    Ok(copies)
}
