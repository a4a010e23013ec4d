// A connection that waits for a worker.
use crate::moment::Millis;
use mio::net::TcpStream;
use mio::{Interest, Registry, Token};
use std::io;

/// A connection that no worker has.
#[derive(Drop)]
pub struct Guest {
    stream: TcpStream,
    // How long a read of it waits, if it was served before.
    still: Option<Millis>,
    moment: Millis,
}

impl Guest {
    /// A connection that is new at this moment.
    pub fn new(stream: TcpStream, moment: Millis) -> Guest {
        Guest {
            stream,
            still: None,
            moment,
        }
    }

    /// One that was served, whose reads wait for so long, and that is idle since this moment.
    pub fn served(stream: std::net::TcpStream, still: Millis, moment: Millis) -> Guest {
        Guest {
            stream: TcpStream::from_std(stream),
            still: Some(still),
            moment,
        }
    }

    /// Whether it has sent nothing yet, which is told without waiting. It is false where that can't be told.
    pub fn is_silent(&self) -> bool {
        match self.stream.peek(&mut [0]) {
            Ok(_) => false,
            Err(fault) => fault.kind() == io::ErrorKind::WouldBlock,
        }
    }

    /// Since when it has sent nothing, or when its bytes came.
    pub fn moment(&self) -> Millis {
        self.moment
    }

    /// Its bytes came at this moment.
    pub fn woke(&mut self, moment: Millis) {
        self.moment = moment;
    }

    /// Has a poll tell under this token that bytes have come, or its end. What came before is told too.
    pub fn watch(&mut self, registry: &Registry, token: usize) -> io::Result<()> {
        registry.register(&mut self.stream, Token(token), Interest::READABLE)
    }

    /// Ends that.
    pub fn leave_alone(&mut self, registry: &Registry) {
        let _ = registry.deregister(&mut self.stream);
    }

    /// The connection; how long a read of it waits, if it was served before; and its moment. It doesn't block where it is new.
    pub fn leave(self) -> (std::net::TcpStream, Option<Millis>, Millis) {
        let Guest {
            stream,
            still,
            moment,
        } = self;
        (std::net::TcpStream::from(stream), still, moment)
    }
}
