//! What no clause says: that frames are heard where there is ample memory.

use ox_follow::{Frame, Position, have_front};
use ox_memsite::MemSite;
use ox_pieces::Frames;
use std::alloc::Global;
use std::process::Abort;

/// A place in a store.
const PLACE: Position = Position {
    generation: 1,
    place: 2,
};

/// A reader that has heard what stands first on a channel of these bytes.
fn heard(rt: &impl Abort, alloc: Global, bytes: &[u8]) -> Frames {
    let mut site = MemSite::new(alloc).expect(rt, "memory");
    site.input(bytes).expect(rt, "memory");
    let mut frames = Frames::new(alloc);
    frames.advance(&mut site).expect(rt, "memory");
    frames
}

/// Whether a Have of that place is in front.
fn has_have(frames: &Frames) -> bool {
    match frames.frame() {
        Ok(Some(Frame::Have { at })) => at == PLACE,
        _ => false,
    }
}

#[test]
fn a_frame_is_heard(rt: HostRuntime) {
    assert!(rt; has_have(&heard(&rt, rt.alloc(), &have_front(PLACE))));
}

#[test]
fn a_frame_that_is_cut_is_bad(rt: HostRuntime) {
    let frames = heard(&rt, rt.alloc(), have_front(PLACE).split_at(24).0);
    assert!(rt; frames.frame().is_err());
}

#[test]
fn nothing_is_in_front_at_the_end(rt: HostRuntime) {
    let mut frames = heard(&rt, rt.alloc(), &have_front(PLACE));
    frames.pass();
    assert!(rt; matches!(frames.frame(), Ok(None)));
}
