//! Ranges of addresses.

ghost use Rattle.std.specs.Prelude.{◌≡◌, ◌≤◌, ◌==◌, ◌/◌, ◌^◌, ◌-◌, true};
ghost use Rattle.operator_settings.specs.Ranges as spec;

use std::marker::Model;
use std::net::{IpAddr, Ipv4Addr, Ipv6Addr};
use std::str::FromStr;

/// All addresses that begin with so many bits of one. Contracts see both.
#[derive(Clone, Copy)]
pub struct AddressRange {
    network: IpAddr,
    bits: u32,
}

impl Model for AddressRange {
    ghost use Rattle.operator_settings.specs.Ranges.{Range};

    ghost Value = { Range };

    ghost view = { λ r. record { network = r.network; bits = r.bits } };

    ghost inverse = { λ r. record { network = r.network; bits = r.bits } };
}

impl AddressRange {
    ghost use Rattle.std.specs.Prelude.{◌≡◌};
    ghost use Rattle.std.specs.declared.net.ip_addr.IpAddr.{IpAddr};
    ghost use Rattle.operator_settings.specs.Ranges as spec;
    ghost use Rattle.operator_settings.specs.Ranges.{IsPlain, holds};

    /// Reads an address, for itself alone, or an address, a slash and a number of bits: `10.4.1.17`, `10.4.0.0/16`,
    /// `2001:db8::/32`. `None` of anything else. Takes no memory.
    pub fn read(text: &str) -> Option<AddressRange> {
        match text.split_once('/') {
            Some((address, bits)) => {
                let network = IpAddr::from_str(address).ok()?;
                let bits = bits_in(bits, width_of(&network))?;
                Some(AddressRange { network, bits })
            }
            None => {
                let network = IpAddr::from_str(text).ok()?;
                Some(AddressRange {
                    network,
                    bits: width_of(&network),
                })
            }
        }
    }

    /// Whether an address is of this range. None of IPv6 is of a range of IPv4, but one that stands for an address of
    /// IPv4.
    pub fn contains(&self, address: &IpAddr) -> bool
        ensures { (plain : IpAddr) × IsPlain address.now plain × (result ≡ holds self.now plain) }
    {
        self.holds(address.to_canonical())
    }

    /// Whether an address that stands for no other is of this range.
    fn holds(&self, address: IpAddr) -> bool
        ensures { result ≡ holds self.now address }
    {
        match (self.network, address) {
            (IpAddr::V4(network), IpAddr::V4(address)) => begin_alike4(network, address, self.bits),
            (IpAddr::V6(network), IpAddr::V6(address)) => begin_alike6(network, address, self.bits),
            _ => false,
        }
    }
}

/// Whether an address is of one of these ranges; any is where there are none.
pub fn admit(ranges: &[AddressRange], address: &IpAddr) -> bool {
    ranges.is_empty() || ranges.iter().any(|range| range.contains(address))
}

/// How many bits an address of this kind has.
fn width_of(address: &IpAddr) -> u32 {
    match address {
        IpAddr::V4(_) => 32,
        IpAddr::V6(_) => 128,
    }
}

/// Digits, for 0 to so many.
fn bits_in(digits: &str, most: u32) -> Option<u32> {
    if digits.is_empty() || !digits.bytes().all(|byte| byte.is_ascii_digit()) {
        return None;
    }
    match u32::from_str(digits) {
        Ok(bits) if bits <= most => Some(bits),
        _ => None,
    }
}

/// Whether two addresses of IPv4 begin with the same bits, so many.
fn begin_alike4(one: Ipv4Addr, other: Ipv4Addr, bits: u32) -> bool
    ensures { result ≡ spec.begin_alike4 bits one other }
{
    let rest = 32u32.saturating_sub(bits);
    u64::from(one.to_bits()) >> rest == u64::from(other.to_bits()) >> rest
}

/// The same of IPv6.
fn begin_alike6(one: Ipv6Addr, other: Ipv6Addr, bits: u32) -> bool
    ensures { result ≡ spec.begin_alike6 bits one other }
{
    let rest = 128u32.saturating_sub(bits);
    match (
        one.to_bits().checked_shr(rest),
        other.to_bits().checked_shr(rest),
    ) {
        (Some(one), Some(other)) => one == other,
        _ => true,
    }
}
