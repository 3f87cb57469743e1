//! Why a listener accepted no connection.
ghost use Rattle.std.specs.Prelude.{◌≡◌};
ghost use Rattle.std.specs.IoError.{error_kind, raw_os_error};
ghost use Rattle.sockets.specs.AcceptFaults.{accept_fault_of, lacks_room, trouble_of};

use crate::notice::Trouble;
use std::io::{Error, ErrorKind};

/// Linux: out of memory.
const ENOMEM: i32 = 12;

/// Linux: the system has no descriptor left.
const ENFILE: i32 = 23;

/// Linux: the process has no descriptor left.
const EMFILE: i32 = 24;

/// Linux: no room for a socket's buffers is left.
const ENOBUFS: i32 = 105;

/// Why a listener accepted no connection.
#[derive(Clone, Copy)]
pub(crate) enum AcceptFault {
    /// Nobody has connected.
    Nobody,
    /// A peer had connected, and is gone, as accept(2) says.
    Gone,
    /// No descriptor or no memory is left for a connection.
    NoRoom,
    /// The listener failed.
    Failed,
}

/// Whether the system has no descriptor or no memory for a connection.
fn lacks_room(code: Option<i32>) -> bool
    ensures { result ≡ lacks_room code }
{
    matches!(code, Some(ENOMEM | ENFILE | EMFILE | ENOBUFS))
}

/// What the system lacks for a connection, by the code of an error; another trouble if it lacks neither.
fn lack_of(code: Option<i32>, otherwise: Trouble) -> Trouble
    ensures { result ≡ trouble_of code otherwise }
{
    match code {
        Some(ENFILE | EMFILE) => Trouble::NoHandle,
        Some(ENOMEM | ENOBUFS) => Trouble::NoMemory,
        _ => otherwise,
    }
}

/// What the system lacks for a connection, if the error says so.
pub(crate) fn trouble_of(error: &Error, otherwise: Trouble) -> Trouble
    ensures { result ≡ trouble_of (raw_os_error error.now) otherwise }
{
    lack_of(error.raw_os_error(), otherwise)
}

/// Whether the error says that the system has no descriptor or no memory for a connection.
pub(crate) fn is_for_room(error: &Error) -> bool
    ensures { result ≡ lacks_room (raw_os_error error.now) }
{
    lacks_room(error.raw_os_error())
}

/// Why an accept failed with that error.
pub(crate) fn accept_fault(error: &Error) -> AcceptFault
    ensures { result ≡ accept_fault_of (error_kind error.now) (raw_os_error error.now) }
{
    if is_for_room(error) {
        return AcceptFault::NoRoom;
    }
    match error.kind() {
        ErrorKind::WouldBlock => AcceptFault::Nobody,
        ErrorKind::ConnectionAborted
        | ErrorKind::HostUnreachable
        | ErrorKind::Interrupted
        | ErrorKind::NetworkDown
        | ErrorKind::NetworkUnreachable
        | ErrorKind::PermissionDenied => AcceptFault::Gone,
        _ => AcceptFault::Failed,
    }
}
