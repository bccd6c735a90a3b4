//! A listener over TCP.
ghost use Rattle.std.specs.Prelude.{◌≡◌};

use crate::tcp::TcpLink;
use outside::Failed;
use program_ports::{Accept, Listener};
use std::io::{self, ErrorKind};
use std::marker::Model;
use std::net::{Net, OpenListener, TcpListener};

/// The numbers of the errors that tell that no descriptor or no buffer is free at the moment.
const FULL: [i32; 3] = [23, 24, 105];

/// Listens at a port, on all addresses of the machine. Before `attach` it has no port, and every accept fails.
/// It never ends.
#[derive(Drop)]
pub struct TcpPort<R: Net> {
    net: R,
    listener: Option<R::Listener>,
    faults: u64,
}

impl<R: Net> Model for TcpPort<R> {
    ghost use Rattle.std.specs.Prelude.{ℕ};
    ghost use Rattle.std.specs.Coded.{coded_ℕ};

    // How often it failed.
    ghost Value = { ℕ };

    ghost coded = { coded_ℕ };

    ghost view = { λ s. s.faults };
}

impl<R: Net> TcpPort<R> {
    /// A listener of no port yet.
    pub fn new(net: R) -> TcpPort<R>
        ensures { result ≡ 0 }
    {
        TcpPort {
            net,
            listener: None,
            faults: 0,
        }
    }
}

/// Opens a port, whose accepts do not wait.
fn open_port<R: Net>(net: &R, port: u16) -> io::Result<R::Listener> {
    let listener = TcpListener::bind(net, ("0.0.0.0", port))?;
    listener.set_nonblocking(true)?;
    Ok(listener)
}

/// Whether an accept failed only for now: no connection is there, its peer went away, or memory or
/// descriptors ran out.
fn is_passing(error: &io::Error) -> bool {
    if let Some(number) = error.raw_os_error() {
        if FULL.contains(&number) {
            return true;
        }
    }
    matches!(
        error.kind(),
        ErrorKind::WouldBlock
            | ErrorKind::Interrupted
            | ErrorKind::ConnectionAborted
            | ErrorKind::ConnectionReset
            | ErrorKind::TimedOut
            | ErrorKind::OutOfMemory
    )
}

/// The next connection, if one is there. A connection that can't be set up is let go.
fn next_link<L: OpenListener>(listener: &L) -> Result<Option<L::Stream>, Failed> {
    match listener.accept() {
        Ok((stream, _)) => Ok(Some(stream)),
        Err(error) => {
            if is_passing(&error) {
                Ok(None)
            } else {
                Err(Failed)
            }
        }
    }
}

impl<R: Net + Drop> Listener for TcpPort<R> {
    type Link = TcpLink<R::Stream>;

    ghost use Rattle.std.specs.Prelude.{None, false};

    // The links that come are not told.
    ghost seen = { λ s. record { left = None; met = false; faults = s } };

    fn attach(&mut self, port: u16) -> Result<(), Failed> {
        match open_port(&self.net, port) {
            Ok(listener) => {
                self.listener = Some(listener);
                Ok(())
            }
            Err(_) => {
                self.faults = self.faults.saturating_add(1);
                Err(Failed)
            }
        }
    }

    fn accept(&mut self) -> Result<Accept<TcpLink<R::Stream>>, Failed> {
        if let Some(listener) = &self.listener {
            match next_link(listener) {
                Ok(Some(stream)) => {
                    return match TcpLink::of(stream) {
                        Ok(link) => Ok(Accept::Came(link)),
                        Err(Failed) => Ok(Accept::Idle),
                    };
                }
                Ok(None) => return Ok(Accept::Idle),
                Err(Failed) => {}
            }
        }
        self.faults = self.faults.saturating_add(1);
        Err(Failed)
    }
}
