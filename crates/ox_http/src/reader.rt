//! The first request of a stream of bytes (RFC 9112).

ghost use Rattle.std.specs.Prelude.{◌≡◌, ◌≤◌, ◌==◌, ◌&&◌, ◌||◌, not, [], length, map, min, take};
ghost use Rattle.std.specs.Prelude.{codes, true, nat_lt};
ghost use Rattle.std.specs.Prelude.{All, IfOk, MatchOption, None};
ghost use Rattle.std.specs.List.{list_all, list_any};
ghost use Rattle.std.specs.Char.{is_ascii_digit};
ghost use Rattle.std.specs.Str.{bytes_eq, str_eq_ignore_ascii_case};
ghost use Rattle.std.specs.Str.Parse.{digits_value};
ghost use Rattle.httparse.specs.Spans.{IsHeaderWithin, IsRequestOf, IsRequestWithin, header_bytes};
ghost use Rattle.ox_http.specs.Head.{head_of};
ghost use Rattle.ox_http.specs.First.{at_head, fault_of, first_of, front_of, opens};
ghost use Rattle.ox_http.specs.First.{head_length, head_limit, is_length, method_of};
ghost use Rattle.ox_http.specs.First.{unless_at_fault, values_of, with_body};
ghost use Rattle.ox_http.specs.Read.{IsBounded, IsFirstOf, Tells, asked_in, first_in};
ghost use Rattle.ox_http.specs.Read.{front_in, head_with};

use crate::{Method, Request};
use httparse::Status;
use httparse::spans::{EMPTY_HEADER_SPAN, HeaderSpan, RequestSpans, parse_request};
use memchr::memmem;
use ox_bytes::{BLOCK_LIMIT, Bytes, Memory};
use std::alloc::Global;

/// Among so many bytes the end of a head has to stand.
pub const HEAD_LIMIT: usize = 8192;

/// The most bytes that a body may have: those of a block, which a command to connect one has.
pub const BODY_LIMIT: usize = BLOCK_LIMIT;

/// A head without a fault, read. It borrows the path.
#[derive(Clone, Copy)]
pub struct HeadRead<'h> {
    /// How many bytes the head has.
    pub len: usize,
    pub method: Method,
    pub path: &'h [u8],
    /// How many bytes the body has, which stands behind the head.
    pub body_len: usize,
    /// Whether the link ends with the reply.
    pub close: bool,
}

/// What the front of a stream is, a body left aside.
#[derive(Clone, Copy)]
pub enum HeadFound<'h> {
    /// A head without a fault.
    Opens(HeadRead<'h>),
    /// There are too few bytes to say.
    Waits,
    /// A fault, by the status of its reply: 431, 400, 411 or 413.
    Fails(u16),
}

/// What a stream begins with.
#[derive(Drop)]
pub enum Parsed {
    /// A whole request, which has so many bytes of the stream.
    Whole { request: Request, used: usize },
    /// There are too few bytes to say.
    More,
    /// A fault, by the status of its reply: 431, 400, 411 or 413.
    Bad(u16),
}

/// The parts of a start line.
#[derive(Clone, Copy)]
struct StartLine<'h> {
    method: &'h [u8],
    path: &'h [u8],
    minor: u8,
}

/// What the fields say of the length of the body.
#[derive(Clone, Copy)]
enum BodyLength {
    Untold,
    /// A length, or one more than the most that a body may have, where that is less.
    Told(usize),
    /// A length that is none, or two that differ.
    Unclear,
}

fn all_digits(text: &[u8]) -> bool
    ensures { result ≡ list_all is_ascii_digit text.now }
{
    text.iter().all(|b| b.is_ascii_digit())
}

/// Whether a text is one to nineteen digits.
fn is_a_length(text: &[u8]) -> bool
    ensures { result ≡ is_length text.now }
{
    !text.is_empty() && text.len() <= 19 && all_digits(text)
}

/// The number that digits write, or one more than a body's limit where that is less.
fn capped_length(text: &[u8]) -> usize
    requires { list_all is_ascii_digit text.now ≡ true }
    ensures { result ≡ min (digits_value 10 text.now) 4000001 }
{
    let mut number = 0;
    for digit in text {
        number = (number * 10 + (*digit - b'0') as usize).min(BODY_LIMIT + 1);
    }
    number
}

/// Whether two texts are the same, in any case of letters.
fn same_letters(a: &[u8], b: &[u8]) -> bool
    ensures { result ≡ str_eq_ignore_ascii_case a.now b.now }
{
    a.eq_ignore_ascii_case(b)
}

/// Whether a field has a name and another value than a text.
fn is_other(head: &[u8], field: HeaderSpan, name: &[u8], text: &[u8]) -> bool
    requires { IsHeaderWithin (length head.now) field }
    ensures { result ≡ (str_eq_ignore_ascii_case (header_bytes head.now field).0 name.now
        && not (bytes_eq text.now (header_bytes head.now field).1)) }
{
    same_letters(field.name.of(head), name) && text != field.value.of(head)
}

/// Whether a field has a name and a value, in any case of letters.
fn is_one(head: &[u8], field: HeaderSpan, name: &[u8], text: &[u8]) -> bool
    requires { IsHeaderWithin (length head.now) field }
    ensures { result ≡ (str_eq_ignore_ascii_case (header_bytes head.now field).0 name.now
        && str_eq_ignore_ascii_case (header_bytes head.now field).1 text.now) }
{
    same_letters(field.name.of(head), name) && same_letters(field.value.of(head), text)
}

/// The first value of the fields of a name.
fn first_value<'h>(head: &'h [u8], fields: &[HeaderSpan], name: &[u8]) -> Option<&'h [u8]>
    requires { All (IsHeaderWithin (length head.now)) fields.now }
    ensures { MatchOption result
        (values_of name.now (map (header_bytes head.now) fields.now) ≡ [])
        (λ value. IsFirstOf (values_of name.now (map (header_bytes head.now) fields.now))
        value.now) }
{
    for field in fields.iter() {
        if same_letters(field.name.of(head), name) {
            return Some(field.value.of(head));
        }
    }
    None
}

/// Whether all values of the fields of a name are one text.
fn all_are(head: &[u8], fields: &[HeaderSpan], name: &[u8], text: &[u8]) -> bool
    requires { All (IsHeaderWithin (length head.now)) fields.now }
    ensures { result ≡ list_all (bytes_eq text.now)
        (values_of name.now (map (header_bytes head.now) fields.now)) }
{
    for field in fields {
        if is_other(head, *field, name, text) {
            return false;
        }
    }
    true
}

/// Whether a value of the fields of a name is a text, in any case of letters.
fn any_is(head: &[u8], fields: &[HeaderSpan], name: &[u8], text: &[u8]) -> bool
    requires { All (IsHeaderWithin (length head.now)) fields.now }
    ensures { result ≡ list_any (λ value. str_eq_ignore_ascii_case value text.now)
        (values_of name.now (map (header_bytes head.now) fields.now)) }
{
    for field in fields {
        if is_one(head, *field, name, text) {
            return true;
        }
    }
    false
}

/// The length of the body that the fields tell.
fn body_length(head: &[u8], fields: &[HeaderSpan]) -> BodyLength
    requires { All (IsHeaderWithin (length head.now)) fields.now }
    ensures { Tells result
        (values_of (codes "content-length") (map (header_bytes head.now) fields.now)) }
{
    match first_value(head, fields, b"content-length") {
        None => BodyLength::Untold,
        Some(text) => {
            if is_a_length(text) && all_are(head, fields, b"content-length", text) {
                BodyLength::Told(capped_length(text))
            } else {
                BodyLength::Unclear
            }
        }
    }
}

/// Whether fields have a name.
fn has_field(head: &[u8], fields: &[HeaderSpan], name: &[u8]) -> bool
    requires { All (IsHeaderWithin (length head.now)) fields.now }
    ensures { result ≡ nat_lt 0
        (length (values_of name.now (map (header_bytes head.now) fields.now))) }
{
    first_value(head, fields, name).is_some()
}

fn method_named(name: &[u8]) -> Method
    ensures { result ≡ method_of name.now }
{
    if name == b"GET".as_slice() {
        Method::Get
    } else if name == b"POST".as_slice() {
        Method::Post
    } else {
        Method::Other
    }
}

fn is_post_named(name: &[u8]) -> bool
    ensures { result ≡ bytes_eq name.now (codes "POST") }
{
    name == b"POST".as_slice()
}

/// Whether the link ends with the reply.
fn says_close(head: &[u8], fields: &[HeaderSpan], minor: u8) -> bool
    requires { All (IsHeaderWithin (length head.now)) fields.now }
    ensures { result ≡ (minor == 0 || list_any
        (λ value. str_eq_ignore_ascii_case value (codes "close"))
        (values_of (codes "connection") (map (header_bytes head.now) fields.now))) }
{
    minor == 0 || any_is(head, fields, b"connection", b"close")
}

/// What a head is, of which the start line and the fields are known.
fn read_fields<'h>(head: &'h [u8], start: StartLine<'h>, fields: &[HeaderSpan]) -> HeadFound<'h>
    requires { All (IsHeaderWithin (length head.now)) fields.now }
    ensures { let known = head_with start.entry (map (header_bytes head.now) fields.now) in
        front_in result ≡ unless_at_fault (length head.now) known (fault_of known) }
{
    let post = is_post_named(start.method);
    let body_len = match body_length(head, fields) {
        BodyLength::Unclear => return HeadFound::Fails(400),
        BodyLength::Untold if post => return HeadFound::Fails(411),
        BodyLength::Untold => 0,
        BodyLength::Told(n) => n,
    };
    if has_field(head, fields, b"transfer-encoding") {
        return HeadFound::Fails(411);
    }
    if body_len > BODY_LIMIT {
        return HeadFound::Fails(413);
    }
    HeadFound::Opens(HeadRead {
        len: head.len(),
        method: method_named(start.method),
        path: start.path,
        body_len,
        close: says_close(head, fields, start.minor),
    })
}

/// Spans for as many fields as a head may have.
fn no_spans() -> [HeaderSpan; 64]
    ensures { length result ≡ 64 }
{
    [EMPTY_HEADER_SPAN; 64]
}

/// What bytes are that begin with a head.
fn read_found<'h>(head: &'h [u8], found: RequestSpans, spans: &[HeaderSpan]) -> HeadFound<'h>
    requires within { IsRequestWithin head.now spans.now found }
    requires is { IsRequestOf head.now spans.now found }
    requires few { length spans.now ≤ 64 }
    ensures { front_in result ≡ at_head (length head.now) (head_of head.now) }
{
    if found.len != head.len() {
        return HeadFound::Fails(400);
    }
    let start = StartLine {
        method: found.method.of(head),
        path: found.path.of(head),
        minor: found.version,
    };
    read_fields(head, start, spans.split_at(found.headers).0)
}

/// What bytes that should be a head are.
fn read_whole(head: &[u8]) -> HeadFound<'_>
    ensures { front_in result ≡ at_head (length head.now) (head_of head.now) }
{
    let mut spans = no_spans();
    match parse_request(head, &mut spans) {
        Ok(Status::Complete(found)) => read_found(head, found, &spans),
        Ok(Status::Partial) => HeadFound::Fails(400),
        Err(_) => HeadFound::Fails(400),
    }
}

/// How many bytes there are up to and with the first blank line, of which none stands in the first
/// `looked` bytes.
fn head_end(bytes: &[u8], looked: usize) -> Option<usize>
    requires within { looked ≤ length bytes.now }
    requires none { head_length (take looked bytes.now) ≡ None }
    ensures { result ≡ head_length bytes.now }
{
    let from = looked.saturating_sub(3);
    let (_, rest) = bytes.split_at(from);
    match memmem::find(rest, b"\r\n\r\n") {
        Some(at) => Some(from + at + 4),
        None => None,
    }
}

/// The bytes among which the end of a head has to stand.
fn front(bytes: &[u8]) -> &[u8]
    ensures { result.now ≡ take head_limit bytes.now }
{
    bytes.split_at(HEAD_LIMIT.min(bytes.len())).0
}

/// What the front of a stream is, a body left aside. The first `looked` bytes hold no blank line,
/// and aren't searched again. It takes no memory.
pub fn read_head(bytes: &[u8], looked: usize) -> HeadFound<'_>
    requires within { looked ≤ length bytes.now }
    requires none { head_length (take looked bytes.now) ≡ None }
    ensures front { front_in result ≡ front_of bytes.now }
    ensures bounds { IsBounded result (length bytes.now) }
{
    let front = front(bytes);
    match head_end(front, looked.min(front.len())) {
        Some(n) => read_whole(bytes.split_at(n).0),
        None if bytes.len() < HEAD_LIMIT => HeadFound::Waits,
        None => HeadFound::Fails(431),
    }
}

/// The request of a head, once its body has come.
fn with_body_of(alloc: Global, bytes: &[u8], head: HeadRead) -> Result<Parsed, Memory>
    requires { IsBounded (HeadFound.Opens head) (length bytes.now) }
    ensures { IfOk result (λ parsed.
        first_in parsed ≡ with_body bytes.now (opens head.entry.len (asked_in head.entry))) }
{
    let (_, behind) = bytes.split_at(head.len);
    if behind.len() < head.body_len {
        return Ok(Parsed::More);
    }
    let request = Request {
        method: head.method,
        path: Bytes::copy(alloc, head.path)?,
        body: Bytes::copy(alloc, behind.split_at(head.body_len).0)?,
        close: head.close,
    };
    Ok(Parsed::Whole {
        request,
        used: head.len + head.body_len,
    })
}

/// What a stream begins with. `Memory` where there is none for the path and the body of a whole
/// request.
pub fn request_of(alloc: Global, bytes: &[u8]) -> Result<Parsed, Memory>
    ensures { IfOk result (λ parsed. first_in parsed ≡ first_of bytes.now) }
{
    match read_head(bytes, 0) {
        HeadFound::Opens(head) => with_body_of(alloc, bytes, head),
        HeadFound::Waits => Ok(Parsed::More),
        HeadFound::Fails(status) => Ok(Parsed::Bad(status)),
    }
}
