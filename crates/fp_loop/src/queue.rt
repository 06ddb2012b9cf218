//! The queue of those connections whose turn comes, by their keys.

ghost use Rattle.std.specs.Prelude.{◌≡◌, ◌+◌, ◌<◌, ◌^◌, IsTrue, None};
ghost use Rattle.slab.specs.Slab.{get};

use crate::member::Member;
use fp_connections::{Counts, Role};
use fp_news::News;
use mio::event::Event;
use mio::{Events, Token};
use slab::Slab;

/// The token of the waker, which is no connection's.
pub(crate) const WAKE: usize = usize::MAX;

/// Tells each connection what its socket is ready for, and puts it into the queue. Answers whether
/// the waker was used.
pub(crate) fn mark<N: News + Drop>(
    events: &Events,
    members: &mut Slab<Member<N>>,
    queue: &mut Vec<usize>,
) -> bool {
    let mut is_woken = false;
    for event in events {
        let Token(key) = event.token();
        if key == WAKE {
            is_woken = true;
        } else {
            mark_member(members, queue, key, event);
        }
    }
    is_woken
}

// Tells a connection what its socket is ready for, and puts it into the queue.
fn mark_member<N: News + Drop>(
    members: &mut Slab<Member<N>>,
    queue: &mut Vec<usize>,
    key: usize,
    event: &Event,
) {
    let Some(member) = members.get_mut(key) else {
        return;
    };
    let is_cut = event.is_read_closed() || event.is_error() || event.is_priority();
    let writes = event.is_writable() || event.is_error();
    member.socket().mark(event.is_readable(), writes, is_cut);
    enqueue(queue, member, key);
}

// Puts a connection into the queue, once.
fn enqueue<N: News + Drop>(queue: &mut Vec<usize>, member: &mut Member<N>, key: usize) {
    if !member.is_queued && queue.push(key).is_ok() {
        member.is_queued = true;
    }
}

/// Puts each connection of this role, or of any, into the queue.
pub(crate) fn enqueue_all<N: News + Drop>(
    queue: &mut Vec<usize>,
    members: &mut Slab<Member<N>>,
    role: Option<Role>,
) {
    for key in 0..members.capacity() {
        if let Some(member) = members.get_mut(key) {
            enqueue_if(queue, member, role, key);
        }
    }
}

// Puts a connection into the queue, where it is of this role, or any will do.
fn enqueue_if<N: News + Drop>(
    queue: &mut Vec<usize>,
    member: &mut Member<N>,
    role: Option<Role>,
    key: usize,
) {
    if let Some(role) = role
        && role != member.role()
    {
        return;
    }
    enqueue(queue, member, key);
}

/// Puts a key at this place of the queue, where its connection could go on. Gives how many stand
/// there then.
pub(crate) fn keep_if(queue: &mut Vec<usize>, goes: bool, kept: usize, key: usize) -> usize
    ensures { IsTrue goes → kept + 1 < 2 ^ 64 → result ≡ kept + 1 }
{
    if !goes {
        return kept;
    }
    if let Some(place) = queue.get_mut(kept) {
        *place = key;
    }
    kept.saturating_add(1)
}

/// Ends a connection, where there is one.
pub(crate) fn remove<N: News + Drop>(members: &mut Slab<Member<N>>, counts: &Counts, key: usize)
    ensures { get members.new key ≡ None }
{
    if let Some(member) = members.try_remove(key) {
        counts.left(member.role());
    }
}
