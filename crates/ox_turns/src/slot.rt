//! A slot: a link, the door that it came by, and its session.

ghost use Rattle.std.specs.Prelude.{◌≡◌, ◌≤◌};
ghost use Rattle.ox_session.specs.Link.{new_link};
ghost use Rattle.ox_links.specs.Link.{is_operator};

use ox_outside::Doorway;
use ox_session::Session;
use std::alloc::Global;

/// A link that is open.
pub(crate) struct Slot {
    /// The number of its channel.
    pub(crate) channel: u32,
    /// The door at which it came in.
    pub(crate) door: Doorway,
    pub(crate) session: Session,
    ghost link: { 1 ≤ channel },
}

/// By hand, so that whoever drops a slot makes one call, and proves nothing of its session.
impl Drop for Slot {
    fn drop(self) {
        let Slot {
            channel: _channel,
            door: _door,
            session: _session,
        } = self;
    }
}

impl Slot {
    /// A link that came in and has said nothing.
    pub(crate) fn new(alloc: Global, channel: u32, door: Doorway) -> Slot
        requires { 1 ≤ channel }
        ensures channel { result.channel ≡ channel }
        ensures door { result.door ≡ door }
        ensures session { result.session ≡ new_link }
    {
        Slot {
            channel,
            door,
            session: Session::new(alloc),
        }
    }

    /// Whether it is an operator's.
    pub(crate) fn is_operators(&self) -> bool
        ensures { result ≡ is_operator self.now.door }
    {
        match self.door {
            Doorway::Public => false,
            Doorway::Operator => true,
        }
    }
}
