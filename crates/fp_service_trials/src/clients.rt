//! Connections to the service, and what is said on them.

use fp_server::Host;
use fp_transcript::Text;
use std::alloc::Global;
use std::io::{Read, Write};
use std::net::{Shutdown, SocketAddr, TcpStream};
use std::time::Duration;
use std::{io, thread};

// A flag that is on.
const ON: &str = r#"{"defaultVariant":"on","state":"ENABLED","variants":{"on":true}}"#;

/// A connection whose reads give up after ten seconds.
pub fn connect<R: Host>(rt: &R, at: SocketAddr) -> io::Result<TcpStream> {
    let stream = TcpStream::connect(rt, at)?;
    stream.set_read_timeout(Some(Duration::from_secs(10)))?;
    Ok(stream)
}

/// Says these bytes: whether they were taken.
pub fn say(mut stream: &TcpStream, bytes: &[u8]) -> bool {
    stream.write_all(bytes).is_ok()
}

/// The next byte. None at the end, and where none comes.
pub fn byte_of<S: Read>(stream: &mut S) -> Option<u8> {
    let mut byte = [0; 1];
    match stream.read(&mut byte) {
        Ok(1) => Some(byte[0]),
        _ => None,
    }
}

/// Whether the peer ended the connection, without one more byte.
pub fn is_closed(mut stream: &TcpStream) -> bool {
    matches!(stream.read(&mut [0; 1]), Ok(0))
}

/// Whether nothing comes within a tenth of a second.
pub fn is_quiet(stream: &TcpStream) -> bool {
    let _ = stream.set_read_timeout(Some(Duration::from_millis(100)));
    let mut reader = stream;
    let is_quiet = reader.read(&mut [0; 1]).is_err();
    let _ = stream.set_read_timeout(Some(Duration::from_secs(10)));
    is_quiet
}

/// The next line, without its end.
pub fn line_of<S: Read>(alloc: Global, stream: &mut S) -> Vec<u8> {
    let mut line = Vec::new(alloc);
    for _ in 0..u64::MAX {
        match byte_of(stream) {
            Some(byte) if byte != b'\n' => {
                let _ = line.push(byte);
            }
            _ => break,
        }
    }
    line
}

// How many bytes are read at once.
const PIECE: usize = 1_024;

/// The next bytes, as many as these if so many come.
pub fn bytes_of<S: Read>(alloc: Global, stream: &mut S, count: u64) -> Vec<u8> {
    let mut bytes = Vec::new(alloc);
    let mut piece = [0; PIECE];
    let mut left = count;
    // Each turn gives a byte or is the last one.
    for _ in 0..count {
        // A read of no bytes would wait for some.
        if left == 0 {
            break;
        }
        let most = left.min(PIECE as u64) as usize;
        let Some(room) = piece.get_mut(..most) else {
            break;
        };
        match stream.read(room) {
            Ok(given) if given > 0 => {
                let _ = bytes.extend_from_slice(piece.get(..given).unwrap_or(&[]));
                left = left.saturating_sub(given as u64);
            }
            _ => break,
        }
    }
    bytes
}

/// Says nothing more.
pub fn end(stream: &TcpStream) {
    let _ = stream.shutdown(Shutdown::Write);
}

// How many flags are turned together.
const TOGETHER: u64 = 64;

/// Says a set of changes that puts flags, all of them with one variant.
pub fn say_turn(alloc: Global, stream: &TcpStream, is_on: bool) -> bool {
    let mut line = Text::new(alloc);
    line.push("{\"edits\":[");
    for n in 0..TOGETHER {
        if n > 0 {
            line.push(",");
        }
        push_turn(n, is_on, &mut line);
    }
    line.push("],\"op\":\"set\"}\n");
    say(stream, line.as_str().as_bytes())
}

fn push_turn(n: u64, is_on: bool, line: &mut Text) {
    line.push("{\"flag\":{\"defaultVariant\":\"");
    line.push(if is_on { "on" } else { "off" });
    line.push("\",\"variants\":{\"off\":false,\"on\":true}},\"key\":\"flag-");
    line.number(n);
    line.push("\",\"op\":\"put\"}");
}

/// Whether a document or a reply shows a flag that is on beside one that is off.
pub fn is_mixed(text: &str) -> bool {
    text.contains("ariant\":\"on\"") && text.contains("ariant\":\"off\"")
}

/// The number behind this, in a line that ends there.
pub fn number_behind(line: &[u8], head: &str) -> Option<u64> {
    let text = str::from_utf8(line).ok()?;
    text.strip_prefix(head)?.trim_end().parse().ok()
}

/// The revision that the next reply tells.
pub fn told_next(alloc: Global, mut stream: &TcpStream) -> Option<u64> {
    revision_in(&line_of(alloc, &mut stream))
}

/// The revision that a reply tells.
pub fn revision_in(line: &[u8]) -> Option<u64> {
    number_behind(line.strip_suffix(b"}")?, "{\"revision\":")
}

/// Says a put of a flag that is on.
pub fn say_put(alloc: Global, stream: &TcpStream, key: &str) -> bool {
    say_flag(alloc, stream, key, ON)
}

// Says a put of a flag of this definition.
fn say_flag(alloc: Global, stream: &TcpStream, key: &str, flag: &str) -> bool {
    let mut line = Text::new(alloc);
    line.push("{\"flag\":");
    line.push(flag);
    line.push(",\"key\":\"");
    line.push(key);
    line.push("\",\"op\":\"put\"}\n");
    say(stream, line.as_str().as_bytes())
}

/// Puts so many flags of this definition, each once the one before was told, and gives the revision
/// that was told last, where each was one more than the one before.
pub fn fill(alloc: Global, stream: &TcpStream, count: u64, flag: &str) -> Option<u64> {
    let mut last = None;
    let mut key = Text::new(alloc);
    for n in 0..count {
        key.clear();
        key.push("flag-");
        key.number(n);
        let _ = say_flag(alloc, stream, key.as_str(), flag);
        last = Some(next_in_turn(alloc, stream, last)?);
    }
    last
}

/// Puts a flag so often, each time once the one before was told, and gives the revision that was
/// told last, where each was one more than the one before.
pub fn put_often(alloc: Global, stream: &TcpStream, key: &str, count: u64) -> Option<u64> {
    let mut last = None;
    for _ in 0..count {
        let _ = say_put(alloc, stream, key);
        last = Some(next_in_turn(alloc, stream, last)?);
    }
    last
}

// The revision that the next reply tells, where it is one more than the last.
fn next_in_turn(alloc: Global, stream: &TcpStream, last: Option<u64>) -> Option<u64> {
    let told = told_next(alloc, stream)?;
    match last {
        Some(last) if last.checked_add(1) != Some(told) => None,
        _ => Some(told),
    }
}

/// Says a request to evaluate a flag, or all of them where the key is empty.
pub fn say_request(alloc: Global, stream: &TcpStream, key: &str) -> bool {
    let mut request = Text::new(alloc);
    request.push("POST /ofrep/v1/evaluate/flags");
    if !key.is_empty() {
        request.push("/");
        request.push(key);
    }
    request.push(" HTTP/1.1\r\nhost: a\r\ncontent-length: 2\r\n\r\n{}");
    say(stream, request.as_str().as_bytes())
}

/// What a response says in short.
#[derive(Clone, Copy)]
pub struct Response {
    /// Whether there is one.
    pub is_there: bool,
    /// Whether it is of a flag.
    pub is_found: bool,
    /// The revision that it is of; 0 where it names none.
    pub revision: u64,
    /// Whether it has a flag that is on and one that is off.
    pub is_mixed: bool,
}

/// The next response, read to its end.
pub fn response_of(alloc: Global, mut stream: &TcpStream) -> Response {
    let status = line_of(alloc, &mut stream);
    let mut response = Response {
        is_there: !status.is_empty(),
        is_found: status.starts_with(b"HTTP/1.1 200 "),
        revision: 0,
        is_mixed: false,
    };
    let mut length = 0;
    for _ in 0..u64::MAX {
        let line = line_of(alloc, &mut stream);
        if line.len() <= 1 {
            break;
        }
        response.revision = number_behind(&line, "flag-revision: ").unwrap_or(response.revision);
        length = number_behind(&line, "content-length: ").unwrap_or(length);
    }
    let body = bytes_of(alloc, &mut stream, length);
    response.is_mixed = is_mixed(str::from_utf8(&body).unwrap_or(""));
    response
}

/// An evaluation of a flag, or of all where the key is empty.
pub fn evaluated(alloc: Global, stream: &TcpStream, key: &str) -> Response {
    let _ = say_request(alloc, stream, key);
    response_of(alloc, stream)
}

/// Whether a flag is found within ten seconds by this port.
pub fn comes<R: Host>(rt: &R, at: SocketAddr, key: &str) -> bool {
    for _ in 0..1000 {
        if is_found(rt, at, key) == Some(true) {
            return true;
        }
        thread::sleep(rt, Duration::from_millis(10));
    }
    false
}

fn is_found<R: Host>(rt: &R, at: SocketAddr, key: &str) -> Option<bool> {
    let stream = connect(rt, at).ok()?;
    Some(evaluated(rt.alloc(), &stream, key).is_found)
}

/// Whether the page at this path of this port has this line within ten seconds.
pub fn page_has<R: Host>(rt: &R, at: SocketAddr, path: &str, line: &str) -> bool {
    for _ in 0..1000 {
        if has_line(rt, at, path, line) == Some(true) {
            return true;
        }
        thread::sleep(rt, Duration::from_millis(10));
    }
    false
}

// The most bytes of a page.
const LONGEST_PAGE: u64 = 65_536;

fn has_line<R: Host>(rt: &R, at: SocketAddr, path: &str, line: &str) -> Option<bool> {
    let stream = connect(rt, at).ok()?;
    let mut request = Text::new(rt.alloc());
    request.push("GET ");
    request.push(path);
    request.push(" HTTP/1.1\r\nhost: h\r\nconnection: close\r\n\r\n");
    let _ = say(&stream, request.as_str().as_bytes());
    let page = bytes_of(rt.alloc(), &mut &stream, LONGEST_PAGE);
    let text = str::from_utf8(&page).ok()?;
    Some(text.lines().any(|it| it == line))
}
