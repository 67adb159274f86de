//! The two doors of a server, at the addresses of the command line.

use crate::words::Addresses;
use ox_sockets::Sockets;
use std::alloc::Global;
use std::io;
use std::io::ErrorKind;
use std::net::{Net, SocketAddr, TcpListener, TcpStream};
use std::rt::Clock;

/// Listens at an address: of four numbers and a port, as in `127.0.0.1:8080`, or of the sixth
/// version, as in `[::1]:8080`.
fn listener<R: Net<Listener = TcpListener, Stream = TcpStream>>(
    rt: &R,
    address: &[u8],
) -> io::Result<TcpListener> {
    let Ok(text) = str::from_utf8(address) else {
        return Err(io::Error::from(ErrorKind::InvalidInput));
    };
    match text.parse::<SocketAddr>() {
        Ok(address) => TcpListener::bind(rt, address),
        Err(_) => Err(io::Error::from(ErrorKind::InvalidInput)),
    }
}

/// Listens at both addresses. An error where one of them can't be read or is in use, or there is no
/// memory for the links.
pub fn listen<'a, R: Net<Listener = TcpListener, Stream = TcpStream> + Clock>(
    rt: &'a R,
    alloc: Global,
    addresses: &Addresses,
) -> io::Result<Sockets<&'a R>> {
    let public = listener(rt, addresses.public.as_slice())?;
    let operator = listener(rt, addresses.operator.as_slice())?;
    Sockets::new(rt, rt, alloc, public, operator)
}
