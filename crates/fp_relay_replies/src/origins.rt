//! Which texts are origins, as a browser names the one of a page.

use std::net::Ipv6Addr;

/// Whether this is an origin as a browser names it (RFC 6454, section 6.2): `null`, or SCHEME://HOST
/// in small letters, with a port where it isn't the usual one. Nothing stands behind that, not even
/// a slash.
pub fn is_origin(text: &str) -> bool {
    match text.split_once("://") {
        Some((scheme, rest)) => is_scheme(scheme) && is_host_and_port(rest, usual_port(scheme)),
        None => text == "null",
    }
}

// The port that a browser leaves out.
fn usual_port(scheme: &str) -> Option<u16> {
    match scheme {
        "http" => Some(80),
        "https" => Some(443),
        _ => None,
    }
}

// A letter, and then letters, digits and three marks (RFC 3986, section 3.1).
fn is_scheme(text: &str) -> bool {
    let is_begun = matches!(text.as_bytes().first(), Some(byte) if byte.is_ascii_lowercase());
    is_begun && text.bytes().all(is_of_scheme)
}

fn is_of_scheme(byte: u8) -> bool {
    byte.is_ascii_lowercase() || matches!(byte, b'0'..=b'9' | b'+' | b'-' | b'.')
}

// The colons of an IPv6 address are between brackets.
fn is_host_and_port(text: &str, usual: Option<u16>) -> bool {
    match text.rsplit_once(':') {
        Some((host, port)) if !port.ends_with(']') => is_host(host) && is_port(port, usual),
        _ => is_host(text),
    }
}

// A name or an IPv4 address, or an IPv6 address in brackets.
fn is_host(text: &str) -> bool {
    match bracketed(text) {
        Some(address) => {
            let is_small = !address.bytes().any(|byte| byte.is_ascii_uppercase());
            is_small && address.parse::<Ipv6Addr>().is_ok()
        }
        None => !text.is_empty() && text.bytes().all(is_of_name),
    }
}

// What brackets hold.
fn bracketed(text: &str) -> Option<&str> {
    text.strip_prefix('[')?.strip_suffix(']')
}

// What names of hosts are made of.
fn is_of_name(byte: u8) -> bool {
    byte.is_ascii_lowercase() || matches!(byte, b'0'..=b'9' | b'-' | b'.' | b'_')
}

// Digits, without a zero in front, of a port that isn't the usual one.
fn is_port(text: &str, usual: Option<u16>) -> bool {
    let is_number = text.bytes().all(|byte| byte.is_ascii_digit()) && !text.starts_with('0');
    match text.parse::<u16>() {
        Ok(port) => is_number && usual != Some(port),
        Err(_) => false,
    }
}
