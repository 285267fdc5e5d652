//! A connection over TCP as a wire.

use ft_orb::{Wire, WireError};
use std::io::{Read, Write};
use std::net::TcpStream;
use std::time::Duration;

/// A connection that was accepted. No contract knows what the system did with it.
#[derive(Drop)]
pub struct Socket(TcpStream);

impl Socket {
    /// The connection, whose answers go out at once (TCP_NODELAY). With a timeout, which is not 0, a read or a write
    /// that takes longer fails, as one of a connection that was reset does. Where either can't be set the connection
    /// is served all the same.
    pub fn new(stream: TcpStream, timeout: Option<Duration>) -> Socket {
        let _ = stream.set_nodelay(true);
        let _ = stream.set_read_timeout(timeout);
        let _ = stream.set_write_timeout(timeout);
        Socket(stream)
    }
}

impl Wire for Socket {
    ghost use Rattle.std.specs.Prelude.{None};

    ghost traffic = { λ _. None };

    fn read(&mut self, buffer: &mut [u8]) -> Result<usize, WireError> {
        match self.0.read(buffer) {
            Ok(n) => Ok(n),
            Err(_) => Err(WireError),
        }
    }

    fn write(&mut self, octets: &[u8]) -> Result<usize, WireError> {
        match self.0.write(octets) {
            Ok(n) => Ok(n),
            Err(_) => Err(WireError),
        }
    }
}
