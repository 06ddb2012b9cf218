//! The request line of HTTP/1, or the beginning of a TLS handshake, by which a connection shows that
//! it isn't an editor's.

ghost use Rattle.std.specs.Prelude.{◌≡◌, ◌∷◌, ◌++◌, [], List, ℕ};
ghost use Rattle.fp_session.specs.Requests.{is_http_line, is_left, is_request_line, is_version};
ghost use Rattle.fp_session.specs.declared.request.RequestLine.TheVariants.{Version, Method, Target};

use httparse::{is_method_token, is_uri_token};

/// What stands in front of the last digit of the version.
pub const VERSION: [u8; 7] = *b"HTTP/1.";

// With what a TLS client begins: the type of a record that shakes hands.
const HANDSHAKE: u8 = 22;

/// How far a line is the request line of HTTP/1: what came of it last. Over TLS each line is one that
/// begins a handshake.
#[derive(Debug, Drop, Clone, Copy, PartialEq, Eq)]
pub enum RequestLine {
    /// Nothing yet.
    Nothing,
    /// Some of the method.
    Method,
    /// The space behind the method.
    MethodEnd,
    /// Some of the target.
    Target,
    /// The space behind the target, and so many bytes of the version.
    Version(usize),
    /// All of it.
    Whole,
    /// All of it, and the carriage return in front of the newline.
    Return,
    /// What begins a TLS handshake, and whatever came behind it.
    Handshake,
    /// What no request line has.
    Other,
}

impl RequestLine {
    /// With these bytes behind what came.
    pub fn followed(self, bytes: &[u8]) -> RequestLine
        ensures { (rest : List ℕ) → is_left result rest ≡ is_left self (bytes.now ++ rest) }
    {
        let mut line = self;
        let mut left = bytes;
        while let [byte, more @ ..] = left {
            if line == RequestLine::Other {
                return RequestLine::Other;
            }
            line = line.with(*byte);
            left = more;
        }
        line
    }

    /// Whether it is a request line as it stands.
    pub fn is_whole(self) -> bool
        ensures { result ≡ is_left self [] }
    {
        match self {
            RequestLine::Whole | RequestLine::Return | RequestLine::Handshake => true,
            RequestLine::Nothing | RequestLine::Method | RequestLine::MethodEnd => false,
            RequestLine::Target | RequestLine::Version(_) | RequestLine::Other => false,
        }
    }

    // With this byte behind what came.
    fn with(self, byte: u8) -> RequestLine
        ensures { (rest : List ℕ) → is_left result rest ≡ is_left self (byte ∷ rest) }
    {
        match self {
            RequestLine::Nothing => first_with(byte),
            RequestLine::Method => behind_method(byte),
            RequestLine::MethodEnd => target_with(byte),
            RequestLine::Target => behind_target(byte),
            RequestLine::Version(came) => version_with(came, byte),
            RequestLine::Whole => end_with(byte),
            RequestLine::Handshake => RequestLine::Handshake,
            RequestLine::Return | RequestLine::Other => RequestLine::Other,
        }
    }
}

fn first_with(byte: u8) -> RequestLine
    ensures { (rest : List ℕ) → is_left result rest ≡ is_http_line (byte ∷ rest) }
{
    if byte == HANDSHAKE {
        RequestLine::Handshake
    } else {
        method_with(byte)
    }
}

fn method_with(byte: u8) -> RequestLine
    ensures { (rest : List ℕ) → is_left result rest ≡ is_request_line (byte ∷ rest) }
{
    if is_method_token(byte) {
        RequestLine::Method
    } else {
        RequestLine::Other
    }
}

fn behind_method(byte: u8) -> RequestLine
    ensures { (rest : List ℕ) → is_left result rest ≡ is_left Method (byte ∷ rest) }
{
    if byte == b' ' {
        RequestLine::MethodEnd
    } else {
        method_with(byte)
    }
}

fn target_with(byte: u8) -> RequestLine
    ensures { (rest : List ℕ) → is_left result rest ≡ is_left RequestLine.MethodEnd (byte ∷ rest) }
{
    if is_uri_token(byte) {
        RequestLine::Target
    } else {
        RequestLine::Other
    }
}

fn behind_target(byte: u8) -> RequestLine
    ensures { (rest : List ℕ) → is_left result rest ≡ is_left Target (byte ∷ rest) }
{
    if byte == b' ' {
        RequestLine::Version(0)
    } else {
        target_with(byte)
    }
}

#[tactic(auto, using(crate::proofs::RequestLemmas::version_next, crate::proofs::RequestLemmas::version_over))]
fn version_with(came: usize, byte: u8) -> RequestLine
    ensures { (rest : List ℕ) → is_left result rest ≡ is_left (Version came) (byte ∷ rest) }
{
    if came >= VERSION.len() {
        return digit_with(byte);
    }
    if byte == VERSION[came] {
        RequestLine::Version(came + 1)
    } else {
        RequestLine::Other
    }
}

fn digit_with(byte: u8) -> RequestLine
    ensures { (rest : List ℕ) → is_left result rest ≡ is_version [] (byte ∷ rest) }
{
    if byte.is_ascii_digit() {
        RequestLine::Whole
    } else {
        RequestLine::Other
    }
}

fn end_with(byte: u8) -> RequestLine
    ensures { (rest : List ℕ) → is_left result rest ≡ is_left RequestLine.Whole (byte ∷ rest) }
{
    if byte == b'\r' {
        RequestLine::Return
    } else {
        RequestLine::Other
    }
}
