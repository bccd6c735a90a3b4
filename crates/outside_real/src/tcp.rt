//! Links over TCP, and the dialer that connects them. They tell no bytes and no dials, since a read says
//! nothing of what was written; that each call does what its stream tells is said by `stream`, and to which
//! host and port a link was dialed by `to`.
ghost use Rattle.std.specs.Prelude.{◌≡◌, ◌||◌, ◌<◌, None, Some, false, length, IfOk, is_err};
ghost use Rattle.std.specs.Io.{ReadsAtMost, WritesAtMost};
ghost use Rattle.std.specs.Io.KnownBytes.{ReadConsumes, WriteAppends};
ghost use Rattle.outside.specs.Causes.{HasCause, Rose};
ghost use Rattle.outside.specs.Links.{meets_end};
ghost use Rattle.outside.specs.Dials.{dial_of, AddsDial, IsFresh};

use job_values::{NoMemory, Text};
use outside::{Dialer, Failed, Link};
use std::alloc::Global;
use std::io::{self, Read, Write};
use std::marker::Model;
use std::net::{Net, OpenStream, TcpStream};
use std::time::Duration;

/// How long a read or a write waits for a byte, in seconds, before it fails.
const PATIENCE: u64 = 30;

/// A host and a port.
#[derive(Drop)]
pub struct TcpAddress {
    pub host: Text,
    pub port: u16,
}

/// A link over a stream, as a TCP connection.
#[derive(Drop)]
pub struct TcpLink<S> {
    stream: S,
    to: Option<TcpAddress>,
    met: bool,
    faults: u64,
}

impl<S> Model for TcpLink<S> {
    ghost use Rattle.outside_real.specs.Tcp.{TcpView};

    ghost Value = { TcpView S };

    ghost view = { λ s. record { stream = s.stream; to = s.to; met = s.met; faults = s.faults } };
}

impl<S: OpenStream + Drop> TcpLink<S> {
    /// A link over a connection, which sends each write at once, and whose reads and writes fail after 30
    /// seconds without a byte. An `Err` where the connection can't be set so.
    pub fn of(stream: S) -> Result<TcpLink<S>, Failed>
        ensures { IfOk result (λ l. l ≡ record { stream = stream; to = None; met = false; faults = 0 }) }
    {
        match set_up(&stream) {
            Ok(()) => Ok(TcpLink {
                stream,
                to: None,
                met: false,
                faults: 0,
            }),
            Err(_) => Err(Failed),
        }
    }
}

/// Sets the connection to send at once and to wait no longer than the patience.
fn set_up<S: OpenStream>(stream: &S) -> io::Result<()> {
    stream.set_nodelay(true)?;
    stream.set_read_timeout(Some(Duration::from_secs(PATIENCE)))?;
    stream.set_write_timeout(Some(Duration::from_secs(PATIENCE)))
}

impl<S: Read + Write + Drop> Link for TcpLink<S> {
    ghost met = { λ s. s.met };

    ghost dial = { λ _. 0 };

    ghost faults = { λ s. s.faults };

    fn read(&mut self, into: &mut [u8]) -> Result<usize, Failed>
        ensures bound { ReadsAtMost result into.new }
        ensures stream { ReadConsumes (S.remaining self.old.stream) (S.remaining self.new.stream) result into.new }
        ensures end { self.new.met ≡ (self.old.met || meets_end into.new result) }
        ensures cause { HasCause self.old.faults self.new.faults result }
    {
        match self.stream.read(into) {
            Ok(count) => {
                self.met = self.met || (count == 0 && !into.is_empty());
                Ok(count)
            }
            Err(_) => {
                self.faults = self.faults.saturating_add(1);
                Err(Failed)
            }
        }
    }

    fn write(&mut self, bytes: &[u8]) -> Result<usize, Failed>
        ensures bound { WritesAtMost result bytes.now }
        ensures stream { WriteAppends (S.contents self.old.stream) (S.contents self.new.stream) result bytes.now }
        ensures end { self.new.met ≡ self.old.met }
        ensures none { IfOk result (λ n. n ≡ 0 → 0 < length bytes.now → Rose self.old.faults self.new.faults) }
        ensures cause { HasCause self.old.faults self.new.faults result }
    {
        match self.stream.write(bytes) {
            Ok(count) => {
                if count == 0 && !bytes.is_empty() {
                    self.faults = self.faults.saturating_add(1);
                }
                Ok(count)
            }
            Err(_) => {
                self.faults = self.faults.saturating_add(1);
                Err(Failed)
            }
        }
    }
}

/// Connects to an address, which the link tells.
fn connect_to<R: Net>(net: &R, to: TcpAddress) -> Result<TcpLink<R::Stream>, Failed>
    ensures { IfOk result (λ l. (l.to ≡ Some to) × (l.met ≡ false) × (l.faults ≡ 0)) }
{
    match TcpStream::connect(net, (to.host.as_str(), to.port)) {
        Ok(stream) => {
            let mut link = TcpLink::of(stream)?;
            link.to = Some(to);
            Ok(link)
        }
        Err(_) => Err(Failed),
    }
}

/// Dials over TCP. Want of memory in a dial is counted as a fault.
#[derive(Drop)]
pub struct TcpDialer<R> {
    net: R,
    alloc: Global,
    faults: u64,
}

impl<R> Model for TcpDialer<R> {
    ghost use Rattle.std.specs.Prelude.{ℕ};
    ghost use Rattle.std.specs.Coded.{coded_ℕ};

    // How often it failed.
    ghost Value = { ℕ };

    ghost coded = { coded_ℕ };

    ghost view = { λ s. s.faults };
}

impl<R> TcpDialer<R> {
    /// A dialer over this network.
    pub fn new(alloc: Global, net: R) -> TcpDialer<R>
        ensures { result ≡ 0 }
    {
        TcpDialer {
            net,
            alloc,
            faults: 0,
        }
    }
}

impl<R: Net> TcpDialer<R> {
    /// A link to this host and port.
    fn connected(&self, host: &str, port: u16) -> Result<TcpLink<R::Stream>, Failed>
        ensures { IfOk result (λ l. (l.to ≡ Some (record { host = host.now; port = port })) × (l.met ≡ false) × (l.faults ≡ 0)) }
    {
        match Text::copied(self.alloc, host) {
            Ok(host) => connect_to(&self.net, TcpAddress { host, port }),
            Err(NoMemory) => Err(Failed),
        }
    }
}

impl<R: Net + Copy + Drop> Dialer for TcpDialer<R> {
    type Link = TcpLink<R::Stream>;

    ghost use Rattle.std.specs.Prelude.{None};

    ghost dials = { λ _. None };

    ghost faults = { λ s. s };

    fn dial(&mut self, host: &str, port: u16) -> Result<TcpLink<R::Stream>, Failed>
        ensures dialed { AddsDial None None (dial_of host.now port (is_err result)) }
        ensures fresh { IfOk result (λ l. IsFresh None 0 None None l.met l.faults) }
        ensures cause { HasCause self.old self.new result }
        ensures to { IfOk result (λ l. l.to ≡ Some (record { host = host.now; port = port })) }
    {
        match self.connected(host, port) {
            Ok(link) => Ok(link),
            Err(Failed) => {
                self.faults = self.faults.saturating_add(1);
                Err(Failed)
            }
        }
    }

    fn hang_up(&mut self, link: TcpLink<R::Stream>) {
        self.faults = self.faults.saturating_add(link.faults);
    }

    fn another(&mut self) -> Result<TcpDialer<R>, NoMemory> {
        Ok(TcpDialer::new(self.alloc, self.net))
    }
}
