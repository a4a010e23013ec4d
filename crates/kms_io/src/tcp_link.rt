// A connection over TCP. It tells nothing of its bytes.
use crate::timed::TimedStream;
use crate::{Link, Put, Took};
use std::io::Input;
use std::rt;
use std::sync::Wait;

/// A connection over TCP. It counts as ended where it is idle for 75 seconds, and where a message takes 10 seconds to
/// come, or 2 where another connection waits for a worker. At a door that parks it counts as ended too where it is to wait
/// again, once it was answered; at another door, where another waits, between two messages: after 50 milliseconds without
/// a further byte, or once it was served for 250 milliseconds, or for less where many wait. A write that waits as long as
/// a message may take is a fault. What is written goes out at once (TCP_NODELAY). It counts the stream's errors, a
/// write of no bytes among them, and tells nothing of its bytes. A call that a signal cuts short is made again.
#[derive(Drop)]
pub struct TcpLink<'a, R> {
    stream: TimedStream<'a, R>,
    read_faults: u64,
    write_faults: u64,
}

impl<'a, R> TcpLink<'a, R> {
    ghost use Rattle.std.specs.Prelude.{◌≡◌, None};
    ghost use Rattle.kms_io.specs.TcpLink.{counts_of};

    // The connection over this stream.
    pub(crate) fn new(stream: TimedStream<'a, R>) -> TcpLink<'a, R>
        ensures { counts_of result ≡ record {
          taken = None;
          written = None;
          left = None;
          moves = None;
          read_faults = 0;
          write_faults = 0;
        } }
    {
        TcpLink {
            stream,
            read_faults: 0,
            write_faults: 0,
        }
    }

    // Its stream.
    pub(crate) fn into_stream(self) -> TimedStream<'a, R> {
        self.stream
    }
}

impl<R: Wait + rt::Clock + Eprint + Input> Link for TcpLink<'_, R> {
    ghost use Rattle.kms_io.specs.TcpLink.{counts_of};

    ghost shows = { counts_of };

    fn read_some(&mut self, room: &mut [u8]) -> Took {
        match self.stream.read(room) {
            Ok(0) => Took::End,
            Ok(n) => Took::Got(n),
            Err(_) => {
                self.read_faults = self.read_faults.saturating_add(1);
                Took::Failed
            }
        }
    }

    fn write_some(&mut self, piece: &[u8]) -> Put {
        match self.stream.write(piece) {
            Ok(n) if n > 0 => Put::Wrote(n),
            _ => {
                self.write_faults = self.write_faults.saturating_add(1);
                Put::Failed
            }
        }
    }
}
