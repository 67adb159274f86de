//! What a request asks and what a reply says, as values.
#![tactic(auto)]

mod faults;
mod laws;
mod pieces;
mod reader;
mod response;
mod rows;
mod writer;

pub use faults::faults_are_the_first;
pub use laws::{heads_are_the_grammars, talks_go_on, what_is_said_stays};
use ox_bytes::Bytes;
pub use pieces::streams_are_their_requests;
pub use reader::{BODY_LIMIT, HEAD_LIMIT, HeadFound, HeadRead, Parsed, read_head, request_of};
pub use response::replies_are_responses;
pub use rows::{a_closing_request_is_the_last, requests_come_in_order};
pub use writer::{
    HEAD_ROOM, ReplyParts, UNAVAILABLE, fault_reply, put_reply, unavailable_is_503, write_parts,
    write_reply,
};

/// How a request asks.
#[derive(Clone, Copy, Debug, PartialEq, Eq)]
pub enum Method {
    Get,
    Post,
    /// Any other method.
    Other,
}

/// A request, as it is cut out of a link's bytes (RFC 9112).
#[derive(PartialEq, Eq, Drop)]
pub struct Request {
    pub method: Method,
    /// The target of the request line, byte for byte.
    pub path: Bytes,
    pub body: Bytes,
    /// Whether the link ends with the reply.
    pub close: bool,
}

/// A reply, before it is written as a link's bytes.
#[derive(PartialEq, Eq, Drop)]
pub struct Reply {
    /// The status code (RFC 9110, section 15).
    pub status: u16,
    /// The body's kind, the value of `Content-Type`.
    pub kind: Bytes,
    /// The body's encoding, the value of `Content-Encoding`, if there is one.
    pub encoding: Option<Bytes>,
    pub body: Bytes,
    /// Whether the link ends with this reply.
    pub close: bool,
}
