//! Which faults end a link.

ghost use Rattle.std.specs.Prelude.{◌≡◌, is_some};
ghost use Rattle.link_io.specs.Limits.{end_by};

use link_io::LinkFault;

/// Whether this fault ends a link: each does but running out of memory.
pub fn ends_link(fault: LinkFault) -> bool
    ensures { result ≡ is_some (end_by fault) }
{
    match fault {
        LinkFault::NoMemory => false,
        LinkFault::ReadFailed | LinkFault::WriteFailed => true,
        LinkFault::Malformed | LinkFault::StepLimit => true,
    }
}
