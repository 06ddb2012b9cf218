//! Services that answer by what the connections of a loop are shown.

ghost use Rattle.std.specs.Prelude.{⊤};
ghost use Rattle.std.specs.Arc.{arc_value};

use http_server::Service;
use std::alloc::Global;
use std::sync::Arc;

/// A service that answers by the newest news.
pub trait Informed<N>: Service {
    // From the first state these news lead to the second.
    ghost informs: { Self → N → Self → Type 0 } = { λ _ _ _. ⊤ };

    /// From now on the service answers by these news. A loop calls it for each news that it takes.
    fn inform(&mut self, news: Arc<N, Global>)
        // These news lead from the state before to the state after, by `informs`; where that is
        // left out, nothing is said.
        ensures { Self.informs self.old (arc_value news) self.new };

    /// A request was refused with this status, and the service not asked: its head or its body was
    /// broken or too long.
    fn refused(&self, _status: u16) {}
}
