//! `serve` and `end`.

use super::days::AskedDay;
use super::journal::{journal_asked, stopped_at};
use super::{file_at, out_of_memory, refused_key};
use gateway_control::{EndReply, ask_end};
use gateway_run::{SettingsFault, SettingsFile, read};
use gateway_serve::bind_all;
use operator_settings::{ControlSettings, OperatorFault, OperatorSettings, read_operator};
use std::process::ExitCode;

/// What a settings file says, of the gateway and of its operator, or the status where it is refused.
fn all_settings_at(
    rt: &HostRuntime,
    path: &str,
) -> Result<(SettingsFile, OperatorSettings), ExitCode> {
    let text = file_at(rt, path)?;
    let file = settings_in(rt, text.as_slice())?;
    match read_operator(rt.alloc(), text.as_slice()) {
        Ok(operator) => Ok((file, operator)),
        Err(OperatorFault::NoMemory) => Err(out_of_memory(rt)),
        Err(OperatorFault::Refused(key)) => Err(refused_key(rt, key.as_str())),
    }
}

/// What a settings file says of the gateway, or the status where it is refused: by a key with its table, or by the line
/// that isn't TOML.
fn settings_in(rt: &HostRuntime, text: &[u8]) -> Result<SettingsFile, ExitCode> {
    match read(rt.alloc(), text) {
        Ok(file) => Ok(file),
        Err(SettingsFault::NoMemory) => Err(out_of_memory(rt)),
        Err(SettingsFault::Refused(refusal)) => {
            let _ = eprintln!(rt; "gateway: settings: {refusal}");
            Err(ExitCode::from(2))
        }
        Err(SettingsFault::NotToml(line)) => {
            let _ = eprintln!(rt; "gateway: settings: toml: line {line}");
            Err(ExitCode::from(2))
        }
    }
}

/// What `serve` asks for, or the status where it is refused: of settings, of a journal that can't be made new, or of an
/// address that can't be listened at. Nothing is connected before all of it is there.
pub(crate) fn asked_serve(
    rt: &HostRuntime,
    settings: &str,
    path: Option<&str>,
    sync: Option<&str>,
) -> Result<AskedDay, ExitCode> {
    let (file, operator) = all_settings_at(rt, settings)?;
    let bound = match bind_all(rt, rt.alloc(), &file.listens, &operator.control) {
        Ok(Some(bound)) => bound,
        Ok(None) => return Err(ExitCode::from(2)),
        Err(_) => return Err(out_of_memory(rt)),
    };
    let journal = journal_asked(rt, path, sync)?;
    Ok(AskedDay::Serve {
        file,
        journal,
        operator,
        bound,
    })
}

/// What `end` of a journal asks for, or the status where it is refused: of settings, or of a journal that can't be had.
pub(crate) fn asked_end(
    rt: &HostRuntime,
    settings: &str,
    path: &str,
) -> Result<AskedDay, ExitCode> {
    let text = file_at(rt, settings)?;
    let file = settings_in(rt, text.as_slice())?;
    let journal = stopped_at(rt, path)?;
    Ok(AskedDay::End { file, journal })
}

/// Tells the gateway that is served by these settings to end, and waits until it has.
pub(crate) fn end_served(rt: &HostRuntime, settings: &str, at_once: bool) -> ExitCode {
    match all_settings_at(rt, settings) {
        Ok((_, operator)) => end_of(rt, operator, at_once),
        Err(status) => status,
    }
}

/// The same by what its operator set.
fn end_of(rt: &HostRuntime, operator: OperatorSettings, at_once: bool) -> ExitCode {
    let OperatorSettings { control, .. } = operator;
    match control {
        Some(control) => end_at(rt, &control, at_once),
        None => refused_key(rt, "control"),
    }
}

/// The same at this endpoint.
fn end_at(rt: &HostRuntime, control: &ControlSettings, at_once: bool) -> ExitCode {
    let token = match &control.token {
        Some(token) => Some(token.as_bytes()),
        None => None,
    };
    let listen = control.listen.as_str();
    match ask_end(rt, rt.alloc(), listen, token, at_once) {
        Ok(told) => end_status(rt, listen, told),
        Err(_) => out_of_memory(rt),
    }
}

/// The status of what came of telling a gateway to end, and why it isn't 0.
fn end_status(rt: &HostRuntime, listen: &str, told: EndReply) -> ExitCode {
    match told {
        EndReply::Ended => ExitCode::from(0),
        EndReply::StillThere => {
            let _ = eprintln!(rt; "gateway: it was told to end, and hasn't within 60 seconds");
            ExitCode::from(1)
        }
        EndReply::Refused(status) => {
            let _ = eprintln!(rt; "gateway: it refuses to end: HTTP status {status}");
            ExitCode::from(1)
        }
        EndReply::Nobody => {
            let _ = eprintln!(rt; "gateway: nobody answers at {listen}");
            ExitCode::from(2)
        }
    }
}
