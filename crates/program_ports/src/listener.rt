//! Listeners, which give the links that others dial.
ghost use Rattle.outside.specs.Causes.{HasCause};
ghost use Rattle.program_ports.specs.Listeners.{Waits, Accepts};

use outside::{Failed, Link};

/// What an accept came to.
#[derive(Drop)]
pub enum Accept<L> {
    /// A link that another dialed.
    Came(L),
    /// No link is there at this moment.
    Idle,
    /// No link comes any more.
    Ended,
}

/// What links are accepted from.
pub trait Listener: Drop {
    ghost use Rattle.program_ports.specs.Listeners.{ListenerView};

    /// The links that it gives.
    type Link: Link;

    // The links left, where they are told, whether its end was met, and how often a call failed.
    ghost seen: { Self → ListenerView Self.Link };

    /// Listens at a port.
    fn attach(&mut self, port: u16) -> Result<(), Failed>
        ensures waits { Waits (seen self.old) (seen self.new) }
        ensures cause { HasCause (seen self.old).faults (seen self.new).faults result };

    /// The next link, if one came. It does not wait.
    fn accept(&mut self) -> Result<Accept<Self::Link>, Failed>
        ensures accepts { Accepts (seen self.old) (seen self.new) result }
        ensures cause { HasCause (seen self.old).faults (seen self.new).faults result };
}
