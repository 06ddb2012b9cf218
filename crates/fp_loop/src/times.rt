//! How long a connection may keep the loop waiting, and for what.

ghost use Rattle.std.specs.Prelude.{◌≡◌, ◌+◌, ◌↔◌, IsTrue};
ghost use Rattle.fp_loop.specs.Times.{limit_of, IsOver};

/// How long a connection may keep a loop waiting. All are milliseconds.
#[derive(Drop, Clone, Copy)]
pub struct Limits {
    /// Until a request begins, from its opening or its last reply on.
    pub idle: u64,
    /// Until a request, or a subscriber's hello, is whole.
    pub request: u64,
    /// Until some of a reply or a frame is taken.
    pub reply: u64,
    /// Until the peer of a connection that was ended here ends it too.
    pub leaving: u64,
}

/// What a connection waits for.
#[derive(Debug, Drop, Clone, Copy, PartialEq, Eq)]
pub enum Waiting {
    /// The first byte of a request.
    Request,
    /// The rest of one.
    Rest,
    /// That its peer takes some of what is sent.
    Taker,
    /// That its peer leaves.
    Leaving,
    /// News, for as long as it takes.
    News,
}

/// Whether what began to wait at that moment has waited for too long by now: exactly where its
/// limit of time has passed. Who waits for news has none.
pub fn is_over_time(limits: &Limits, waiting: Waiting, since: u64, now: u64) -> bool
    ensures { IsTrue result ↔ IsOver (limit_of limits.now waiting) since now }
{
    match waiting {
        Waiting::Request => is_past(limits.idle, since, now),
        Waiting::Rest => is_past(limits.request, since, now),
        Waiting::Taker => is_past(limits.reply, since, now),
        Waiting::Leaving => is_past(limits.leaving, since, now),
        Waiting::News => false,
    }
}

// Whether so much time has passed since then.
fn is_past(limit: u64, since: u64, now: u64) -> bool
    ensures { IsTrue result ↔ IsOver (Some limit) since now }
{
    since <= now && limit <= now - since
}
