//! A subscriber of a service elsewhere.

ghost use Rattle.std.specs.Prelude.{◌≡◌, ◌+◌};
ghost use Rattle.std.specs.Io.KnownBytes.{Appends};
ghost use Rattle.fp_stream.specs.Hellos.{hello_bytes};
ghost use Rattle.fp_stream.specs.Watching.{BlamesStreams, Watches};
ghost use Rattle.fp_stream.specs.declared.hello.Hello.TheVariants.{Nothing};
ghost use Rattle.fp_server.specs.Attends.{BlamesWriter, ShowsFrames};

use fp_connections::{Host, probe_peers};
use fp_log::{Event, Reported, Source, tell_failure};
use fp_stream::{Hello, WatchFault, watch_loop, write_hello};
use fp_streams::FailureCounted;
use std::alloc::Global;
use std::io::{Read, Write};
use std::net::{SocketAddrV4, TcpStream};

/// Says hello with nothing to the service at this address, and shows each snapshot that it sends on
/// a line, until it ends the stream. A service that vanishes is found by TCP keep-alive.
pub fn watch<R, O>(
    rt: &R,
    address: SocketAddrV4,
    w: &mut FailureCounted<O>,
) -> Result<(), WatchFault>
where
    R: Host,
    O: Write,
    // However it ended, unless the writer failed: some bytes came to who has nothing, and each
    // frame in them was shown, in order, and nothing else: up to a fault, or up to less than a
    // whole frame.
    ensures shown { w.new.failures ≡ w.old.failures
        → ShowsFrames (O.contents w.old.inner) (O.contents w.new.inner) result }
    // The writer failed only where the fault is `Device`.
    ensures device { BlamesWriter w.old.failures w.new.failures result }
{
    let stream = match TcpStream::connect(rt, address) {
        Ok(stream) => stream,
        Err(reason) => {
            tell_failure(rt, &Event::NotConnected { address }, &reason);
            return Err(WatchFault::Device);
        }
    };
    probe_peers(&stream);
    show_service(
        rt.alloc(),
        &mut FailureCounted::new(Reported::new(*rt, Source::Connection, &stream)),
        &mut FailureCounted::new(Reported::new(*rt, Source::Connection, &stream)),
        w,
    )
}

// Says hello with nothing to a service, and shows each snapshot that it sends.
fn show_service<S, I, O>(
    alloc: Global,
    service: &mut FailureCounted<S>,
    r: &mut FailureCounted<I>,
    w: &mut FailureCounted<O>,
) -> Result<(), WatchFault>
where
    S: Write,
    I: Read,
    O: Write,
    ensures greeted { service.new.failures ≡ service.old.failures
        → Appends (S.contents service.old.inner) (S.contents service.new.inner)
        (hello_bytes Nothing) }
    ensures watched { service.new.failures ≡ service.old.failures
        → w.new.failures ≡ w.old.failures
        → Watches Nothing (I.remaining r.old.inner) (I.remaining r.new.inner)
        (O.contents w.old.inner) (O.contents w.new.inner) result }
    ensures shown { w.new.failures ≡ w.old.failures
        → ShowsFrames (O.contents w.old.inner) (O.contents w.new.inner) result }
    ensures device { BlamesStreams
        (service.old.failures + (r.old.failures + w.old.failures))
        (service.new.failures + (r.new.failures + w.new.failures)) result }
{
    write_hello(service, Hello::Nothing)?;
    watch_loop(alloc, r, w, Hello::Nothing)
}
