//! Clients on loopback, and the links that they become.

ghost use Rattle.std.specs.Prelude.{◌≤◌, length};

use ox_outside::{Doorway, Failed, Heard, Shown};
use ox_sockets::Sockets;
use std::alloc::Global;
use std::io::{Read, Write};
use std::net::{Net, Shutdown, SocketAddr, TcpListener, TcpStream};
use std::process::Abort;
use std::rt::Clock;

/// How often a call may bring nothing before a test fails. Such calls wait for 10 milliseconds at
/// times, so this is some seconds.
const TRIES: usize = 4000;

/// A listener on a free port of loopback.
fn listener<R: Net<Listener = TcpListener, Stream = TcpStream> + Abort>(rt: &R) -> TcpListener {
    TcpListener::bind(rt, "127.0.0.1:0").expect(rt, "a listener")
}

/// Who listens on a port.
fn address_of(rt: &impl Abort, listener: &TcpListener) -> SocketAddr {
    listener.local_addr().expect(rt, "an address")
}

/// A client of whoever listens there.
fn client_of<R: Net<Listener = TcpListener, Stream = TcpStream> + Abort>(
    rt: &R,
    address: SocketAddr,
) -> TcpStream {
    TcpStream::connect(rt, address).expect(rt, "a client")
}

/// Two listeners and no links.
fn sockets_of<R: Net + Clock + Abort>(
    rt: &R,
    alloc: Global,
    public: TcpListener,
    operator: TcpListener,
) -> Sockets<&R> {
    Sockets::new(rt, rt, alloc, public, operator).expect(rt, "sockets")
}

/// Sends all of the bytes.
fn sends(rt: &impl Abort, client: &mut TcpStream, bytes: &[u8]) {
    client.write_all(bytes).expect(rt, "what is sent");
}

/// What the client gets until the other side ends.
fn gets(rt: &impl Abort, alloc: Global, client: &mut TcpStream) -> Vec<u8> {
    let mut got = Vec::new(alloc);
    client.read_to_end(&mut got).expect(rt, "a whole reply");
    got
}

/// The number of the next link that comes by this door, 0 where none comes.
fn comes<C: Clock + Drop>(sockets: &mut Sockets<C>, door: Doorway) -> u32 {
    for _ in 0..TRIES {
        match sockets.door(door) {
            Ok(Some(number)) => return number,
            Ok(None) => {}
            Err(Failed) => return 0,
        }
    }
    0
}

/// What the link gives into eight bytes of room, once it isn't nothing, and the room then.
fn hears<C: Clock + Drop>(sockets: &mut Sockets<C>, link: u32) -> Option<(Heard, [u8; 8])> {
    for _ in 0..TRIES {
        let mut room = [0u8; 8];
        match sockets.hear(link, &mut room[..]) {
            Ok(Heard::NotYet) => {}
            Ok(heard) => return Some((heard, room)),
            Err(Failed) => return None,
        }
    }
    None
}

/// Whether the link takes so much of a piece.
fn takes<C: Clock + Drop>(sockets: &mut Sockets<C>, link: u32, piece: &[u8]) -> bool
    requires { 1 ≤ length piece.now }
{
    for _ in 0..TRIES {
        match sockets.show(link, piece) {
            Ok(Shown::NotYet) => {}
            Ok(Shown::Took(n)) => return n == piece.len(),
            Err(Failed) => return false,
        }
    }
    false
}

#[test]
fn a_link_is_heard_and_shown(rt: HostRuntime) {
    let public = listener(&rt);
    let mut client = client_of(&rt, address_of(&rt, &public));
    let mut sockets = sockets_of(&rt, rt.alloc(), public, listener(&rt));
    assert_eq!(rt; comes(&mut sockets, Doorway::Public), 1);
    sends(&rt, &mut client, b"ping");
    assert!(rt; hears(&mut sockets, 1) == Some((Heard::Bytes(4), *b"ping\0\0\0\0")));
    assert!(rt; takes(&mut sockets, 1, b"pong!"));
    sockets.shut(1);
    assert!(rt; gets(&rt, rt.alloc(), &mut client).as_slice() == b"pong!".as_slice());
}

#[test]
fn each_door_has_its_own_links(rt: HostRuntime) {
    let operator = listener(&rt);
    let client = client_of(&rt, address_of(&rt, &operator));
    let mut sockets = sockets_of(&rt, rt.alloc(), listener(&rt), operator);
    for _ in 0..10 {
        assert!(rt; sockets.door(Doorway::Public) == Ok(None));
    }
    assert_eq!(rt; comes(&mut sockets, Doorway::Operator), 1);
    assert!(rt; client.shutdown(Shutdown::Write).is_ok());
    assert!(rt; hears(&mut sockets, 1) == Some((Heard::End, [0; 8])));
}

#[test]
fn a_silent_link_says_nothing_yet(rt: HostRuntime) {
    let public = listener(&rt);
    let client = client_of(&rt, address_of(&rt, &public));
    let mut sockets = sockets_of(&rt, rt.alloc(), public, listener(&rt));
    assert_eq!(rt; comes(&mut sockets, Doorway::Public), 1);
    for _ in 0..100 {
        let mut room = [0u8; 8];
        assert!(rt; sockets.hear(1, &mut room[..]) == Ok(Heard::NotYet));
    }
    assert!(rt; client.shutdown(Shutdown::Both).is_ok());
}

#[test]
fn a_link_that_is_shut_or_never_was_fails(rt: HostRuntime) {
    let public = listener(&rt);
    let client = client_of(&rt, address_of(&rt, &public));
    let mut sockets = sockets_of(&rt, rt.alloc(), public, listener(&rt));
    assert_eq!(rt; comes(&mut sockets, Doorway::Public), 1);
    sockets.shut(1);
    assert!(rt; sockets.show(1, b"late") == Err(Failed));
    let mut room = [0u8; 8];
    assert!(rt; sockets.hear(7, room.as_mut_slice()) == Err(Failed));
    assert!(rt; client.shutdown(Shutdown::Both).is_ok());
}

/// Without reading away what was sent and never heard, the system would answer it with a reset, and
/// the reply would be lost.
#[test]
fn a_reply_is_whole_though_more_was_sent_than_heard(rt: HostRuntime) {
    let public = listener(&rt);
    let mut client = client_of(&rt, address_of(&rt, &public));
    let mut sockets = sockets_of(&rt, rt.alloc(), public, listener(&rt));
    assert_eq!(rt; comes(&mut sockets, Doorway::Public), 1);
    sends(&rt, &mut client, &[7u8; 60_000]);
    assert!(rt; hears(&mut sockets, 1) == Some((Heard::Bytes(8), [7; 8])));
    assert!(rt; takes(&mut sockets, 1, b"413"));
    sockets.shut(1);
    sends(&rt, &mut client, &[7u8; 60_000]);
    for _ in 0..200 {
        assert!(rt; sockets.door(Doorway::Public) == Ok(None));
    }
    assert!(rt; gets(&rt, rt.alloc(), &mut client).as_slice() == b"413".as_slice());
}
