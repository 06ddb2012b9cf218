//! A conversation over HTTP, as single reads and writes.

ghost use Rattle.std.specs.Prelude.{◌≡◌, IsTrue, OnOk};
ghost use Rattle.http_server.specs.Connection.{config_of, history};
ghost use Rattle.http_server.specs.History.{Rests, new_history};
ghost use Rattle.fp_loop.specs.Talks.{Serves, Hears, Rested, Says};
ghost use Rattle.fp_loop.specs.declared.talk.TheConstants.{MOST_REQUEST};

use crate::counting::Counting;
use crate::socket::turn_after;
use crate::turn::Turn;
use http_server::{Config, Connection, Reason, Service, State};
use http1::Limits as HeadLimits;
use std::alloc::Global;
use std::hash::RandomState;
use std::io::{Read, Write};

/// The longest body of a request, in bytes. A longer one is refused.
pub const MOST_REQUEST: usize = 65_536;

// The longest head of a request, in bytes. A longer one is refused.
const MOST_HEAD: usize = 65_536;

// Where more bytes than this wait to be sent, no further request is answered: so a read or a write
// answers one.
const MOST_PENDING: usize = 0;

// The least room for a read.
const READ_SIZE: usize = 1024;

/// What conversations begin with.
#[derive(Clone, Copy)]
pub(crate) struct Beginning {
    pub(crate) alloc: Global,
    pub(crate) keys: RandomState,
    pub(crate) config: Config,
}

impl Beginning {
    /// By these keys, and within the limits of a relay.
    pub(crate) fn new(alloc: Global, keys: RandomState) -> Beginning
        ensures body { result.config.max_body_len ≡ MOST_REQUEST }
    {
        let limits = HeadLimits {
            max_head_len: MOST_HEAD,
            ..HeadLimits::default()
        };
        let config = Config {
            limits,
            max_body_len: MOST_REQUEST,
            max_pending: MOST_PENDING,
            read_size: READ_SIZE,
        };
        Beginning {
            alloc,
            keys,
            config,
        }
    }

    /// A connection of which nothing was read yet.
    pub(crate) fn connection(&self) -> Connection
        ensures config { config_of result ≡ self.now.config }
        ensures history { history result ≡ new_history }
    {
        Connection::new(self.alloc, self.keys, self.config)
    }
}

/// Writes once, and answers what could not be answered before for what waited to be sent.
pub(crate) fn say<S: Service + Drop, W: Write>(
    connection: &mut Connection,
    service: &mut Counting<S>,
    writer: &mut W,
) -> Turn
    ensures said { Says S.answers (config_of connection.old)
        service.old.service service.new.service (history connection.old) (history connection.new)
        (W.contents writer.old) (W.contents writer.new) }
    ensures config { config_of connection.new ≡ config_of connection.old }
{
    let paused = !connection.wants_read();
    let turn = match connection.write_to(writer) {
        Ok(count) => after_write(count),
        Err(fault) => return turn_after(fault),
    };
    if paused {
        connection.advance(service);
    }
    turn
}

// A writer that takes nothing has ended.
fn after_write(count: usize) -> Turn {
    if count == 0 { Turn::Over } else { Turn::Goes }
}

/// Reads once, and answers what came. Gives how many bytes came.
pub(crate) fn hear<S: Service + Drop, R: Read>(
    connection: &mut Connection,
    service: &mut Counting<S>,
    reader: &mut R,
) -> Result<usize, Turn>
    ensures heard { Hears S.answers (config_of connection.old)
        service.old.service service.new.service (history connection.old) (history connection.new)
        (R.remaining reader.old) (R.remaining reader.new) }
    ensures rests { OnOk result (Rests (config_of connection.old) (history connection.new)) }
    ensures config { config_of connection.new ≡ config_of connection.old }
{
    match connection.read_from(reader) {
        Ok(count) => {
            connection.advance(service);
            Ok(count)
        }
        Err(fault) => Err(turn_after(fault)),
    }
}

/// Has the input of a connection end there. Answers whether all that came was answered and sent; if
/// not, it can't go on.
pub(crate) fn is_at_rest<S: Service + Drop>(
    connection: &mut Connection,
    service: &mut Counting<S>,
) -> bool
    ensures serves { Serves S.answers service.old.service service.new.service }
    ensures rested { IsTrue result → ∥ Rested S.answers service.old.service service.new.service
        (config_of connection.old) (history connection.old) ∥₁ }
{
    let mut end: &[u8] = &[];
    let Ok(_none) = connection.read_from(&mut end) else {
        return false;
    };
    connection.advance(service);
    match connection.state() {
        State::Closing(Reason::EndOfInput) => connection.is_done(),
        _ => false,
    }
}
