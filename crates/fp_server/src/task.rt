//! What the program's words ask of the service.

ghost use Rattle.std.specs.Prelude.{MatchOption, map, string_bytes};
ghost use Rattle.fp_server.specs.Tasks.{AsksFor};
ghost use Rattle.fp_server.specs.declared.task.Task.{Task};

use crate::services::Addresses;
use std::net::SocketAddrV4;

/// What is asked of the service.
#[derive(Debug, Drop)]
pub enum Task<'w> {
    /// To serve the file at this path.
    Serve(&'w str, Addresses),
    /// To show what is served there.
    Watch(SocketAddrV4),
}

/// What the words ask of the service, exactly, be it by `serve`, a path and the texts of three
/// addresses in their order, or by `watch` and the text of one. `None` where they ask for neither,
/// or an address is no four numbers and a port.
pub fn task_of(words: &[String]) -> Option<Task<'_>>
    ensures { MatchOption result ((task : Task) → ¬ AsksFor (map string_bytes words.now) task)
        (AsksFor (map string_bytes words.now)) }
{
    match words {
        [word, path, ofrep, edit, stream] if word.as_str() == "serve" => {
            let addresses = Addresses {
                ofrep: ofrep.as_str().parse().ok()?,
                edit: edit.as_str().parse().ok()?,
                stream: stream.as_str().parse().ok()?,
            };
            Some(Task::Serve(path.as_str(), addresses))
        }
        [word, address] if word.as_str() == "watch" => {
            Some(Task::Watch(address.as_str().parse().ok()?))
        }
        _ => None,
    }
}
