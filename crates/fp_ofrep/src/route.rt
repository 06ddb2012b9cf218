//! What is asked for.

ghost use Rattle.std.specs.Prelude.{◌≡◌, option_map};
ghost use Rattle.fp_ofrep.specs.Route.{has_byte as has_byte_in, path_of as path_in};
ghost use Rattle.fp_ofrep.specs.Route.{route_below as route_below_by, route_of as route_by};
ghost use Rattle.fp_ofrep.specs.Seen.{route_seen};

use crate::tag::behind;

/// What a request asks for.
#[derive(Clone, Copy, Drop)]
pub enum Route<'t> {
    /// All flags.
    Bulk,
    /// One flag, by a segment of the path.
    Single(&'t [u8]),
    /// One flag, by its key itself.
    Key(&'t str),
}

/// What a target asks for, before there is anything to reply from.
pub fn route_of(target: &[u8]) -> Option<Route<'_>>
    // `None`: no path of the protocol, so that every reply is 404.
    ensures { option_map route_seen result ≡ route_by target.now }
{
    match behind(b"/ofrep/v1/evaluate/flags", path_of(target)) {
        Some(rest) => route_below(rest),
        None => None,
    }
}

// Nothing, or a slash and one segment that isn't empty.
fn route_below(rest: &[u8]) -> Option<Route<'_>>
    ensures { option_map route_seen result ≡ route_below_by rest.now }
{
    if rest.is_empty() {
        return Some(Route::Bulk);
    }
    if rest.len() < 2 || rest[0] != b'/' {
        return None;
    }
    if has_byte(b'/', &rest[1..]) {
        return None;
    }
    Some(Route::Single(&rest[1..]))
}

// The path of a target: all before the first `?`.
fn path_of(target: &[u8]) -> &[u8]
    ensures { result.now ≡ path_in target.now }
{
    for at in 0..target.len() {
        if target[at] == b'?' {
            return &target[..at];
        }
    }
    target
}

fn has_byte(byte: u8, text: &[u8]) -> bool
    ensures { result ≡ has_byte_in byte text.now }
{
    for x in text {
        if *x == byte {
            return true;
        }
    }
    false
}
