//! What a file says.

use super::reading::refused;
use gate_settings::Settings;
use settings_file::{SettingsFile, read};
use std::alloc::{AllocError, Global};
use std::str;

/// What a file says, key by key, or `refused` with why.
pub fn outcome(alloc: Global, text: &[u8]) -> Result<String, AllocError> {
    match read(alloc, text) {
        Ok(file) => shown(alloc, &file),
        Err(fault) => refused(alloc, fault),
    }
}

/// What a file says, key by key; firm, capacity and customer in brackets.
fn shown(alloc: Global, file: &SettingsFile) -> Result<String, AllocError> {
    let mut text = String::from_str(alloc, text_of(file.settings.comp()))?;
    show_ports(&mut text, &file.settings)?;
    show_clients(&mut text, &file.settings)?;
    show_each(&mut text, "address", file.addresses.as_slice())?;
    show_each(&mut text, "listen", file.listens.as_slice())?;
    Ok(text)
}

/// Adds the users and passwords of ports.
fn show_ports(text: &mut String, settings: &Settings) -> Result<(), AllocError> {
    for port in settings.ports() {
        let user = text_of(port.user.as_slice());
        let password = text_of(port.password.as_slice());
        write!(text, "; port {user} [{password}]")?;
    }
    Ok(())
}

/// Adds the clients.
fn show_clients(text: &mut String, settings: &Settings) -> Result<(), AllocError> {
    for client in settings.clients() {
        let comp = text_of(client.comp.as_slice());
        let firm = text_of(&client.terms.firm);
        let capacity = char::from(client.terms.capacity);
        let customer = char::from(client.terms.customer);
        let port = client.terms.port;
        write!(
            text,
            "; client {comp} {port} [{firm}] [{capacity}] [{customer}]"
        )?;
    }
    Ok(())
}

/// Adds texts.
fn show_each(text: &mut String, word: &str, texts: &[String]) -> Result<(), AllocError> {
    for each in texts {
        write!(text, "; {word} {each}")?;
    }
    Ok(())
}

/// Bytes as a text.
fn text_of(bytes: &[u8]) -> &str {
    str::from_utf8(bytes).unwrap_or("no text")
}
