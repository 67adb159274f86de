//! One of the two listeners.

use mio::net::{TcpListener, TcpStream};
use mio::{Interest, Poll, Token};
use ox_outside::Failed;
use std::io::ErrorKind;
use std::{io, net};

/// The system's numbers of the errors that don't pass: it has no such descriptor, it is no socket,
/// or nothing listens there.
const EBADF: i32 = 9;

const ENOTSOCK: i32 = 88;

const EINVAL: i32 = 22;

/// A listener, whether somebody may wait there, and who was taken while there was no place.
#[derive(Drop)]
pub(crate) struct Door {
    listener: TcpListener,
    ready: bool,
    ahead: Option<TcpStream>,
}

impl Door {
    /// Has the system tell, under this token, when somebody comes. An error where it can't.
    pub(crate) fn open(poll: &Poll, listener: net::TcpListener, token: Token) -> io::Result<Door> {
        listener.set_nonblocking(true)?;
        let mut listener = TcpListener::from_std(listener);
        poll.registry()
            .register(&mut listener, token, Interest::READABLE)?;
        Ok(Door {
            listener,
            ready: true,
            ahead: None,
        })
    }

    /// The system told that somebody came.
    pub(crate) fn knocked(&mut self) {
        self.ready = true;
    }

    /// Who waits at the door. Without a call of the system where nobody can be there. `Failed`
    /// where nobody can come any more.
    pub(crate) fn take(&mut self) -> Result<Option<TcpStream>, Failed> {
        if let Some(stream) = self.ahead.take() {
            return Ok(Some(stream));
        }
        if !self.ready {
            return Ok(None);
        }
        match self.listener.accept() {
            Ok((stream, _)) => Ok(Some(stream)),
            Err(e) if is_dead(&e) => Err(Failed),
            Err(e) => {
                // Any other error says nothing of who waits behind it, so the door is asked again.
                if e.kind() == ErrorKind::WouldBlock {
                    self.ready = false;
                }
                Ok(None)
            }
        }
    }

    /// Whether somebody waits there, who is then kept for the next `take`.
    pub(crate) fn somebody_waits(&mut self) -> bool {
        if let Ok(waiting) = self.take() {
            self.ahead = waiting;
        }
        self.ahead.is_some()
    }
}

/// Whether the error says that the listener listens no more.
fn is_dead(error: &io::Error) -> bool {
    matches!(error.raw_os_error(), Some(EBADF | ENOTSOCK | EINVAL))
}
