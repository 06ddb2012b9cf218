//! The statuses of what is refused before a service is asked.

use http_server::Refusal;

/// The status with which a connection for requests answers this.
pub(crate) fn status_of(refusal: Refusal) -> u16 {
    match refusal {
        Refusal::Unreadable(fault) => fault.status(),
        Refusal::InvalidPart(http::Error::HeaderName | http::Error::MaxSizeReached) => 431,
        Refusal::InvalidPart(http::Error::Uri(fault)) if fault.is_too_long() => 414,
        Refusal::BodyTooLarge => 413,
        Refusal::UnknownCoding => 501,
        Refusal::InvalidResponse(_) => 500,
        _ => 400,
    }
}
