// An ear at a TCP address.
ghost use Rattle.std.specs.Prelude.{◌≡◌, true, false};

use crate::hall::Hall;
use crate::lobby::Heard;
use crate::timed::TimedStream;
use crate::{Ear, Next, TcpLink};
use std::alloc::{AllocError, Global};
use std::io::Input;
use std::rt;
use std::sync::{Arc, Wait};

/// An ear at a TCP address. It gives a connection once that has bytes or is at its end. It counts a failure where it
/// couldn't take one for a minute, and at each call once standard input has ended, where its door watches that. It tells
/// nothing of those given back, which it ends, or has wait again and gives again.
#[derive(Drop)]
pub struct TcpEar<'a, R> {
    rt: &'a R,
    hall: Arc<Hall, Global>,
    was_asked: bool,
    is_out: bool,
    faults: u64,
}

impl<'a, R> TcpEar<'a, R> {
    ghost use Rattle.std.specs.Prelude.{◌≡◌, None, false, IfOk};
    ghost use Rattle.kms_io.specs.TcpEar.{counts_of};

    // An ear of this hall.
    pub(crate) fn new(rt: &'a R, hall: &Arc<Hall, Global>) -> Result<TcpEar<'a, R>, AllocError>
        ensures { IfOk result (λ ear. counts_of ear ≡ record {
          faults = 0;
          is_out = false;
          given_back = None;
        }) }
    {
        let hall = Arc::try_clone(hall)?;
        Ok(TcpEar {
            rt,
            hall,
            was_asked: false,
            is_out: false,
            faults: 0,
        })
    }

    // What it shares with the other ears.
    pub(crate) fn hall(&self) -> &Hall {
        &self.hall
    }

    // Notes that it is asked for connections.
    fn begin(&mut self)
        ensures { counts_of self.new ≡ counts_of self.old }
    {
        if !self.was_asked {
            self.was_asked = true;
            self.hall.begin();
        }
    }
}

// The next connection of a hall, or none where none could be taken for a minute.
fn next_stream<'a, R: Wait + rt::Clock + Eprint + Input>(
    rt: &'a R,
    hall: &Arc<Hall, Global>,
) -> Option<TimedStream<'a, R>> {
    for _ in rt.forever() {
        match hall.next(rt) {
            Heard::Guest(guest, waiting) => match TimedStream::new(rt, hall, guest, waiting) {
                Ok(stream) => return Some(stream),
                Err(_) => hall.lose(),
            },
            Heard::Nobody => {}
            Heard::Failed => return None,
        }
    }
    unreachable!()
}

impl<'a, R: Wait + rt::Clock + Eprint + Input> Ear for TcpEar<'a, R> {
    ghost use Rattle.kms_io.specs.TcpEar.{counts_of};

    type Conn = TcpLink<'a, R>;

    ghost shows = { counts_of };

    fn next(&mut self) -> Next<TcpLink<'a, R>> {
        self.begin();
        match next_stream(self.rt, &self.hall) {
            Some(stream) => {
                self.is_out = true;
                Next::Conn(TcpLink::new(stream))
            }
            None => {
                self.faults = self.faults.saturating_add(1);
                Next::Failed
            }
        }
    }

    fn done(&mut self, conn: TcpLink<'a, R>) {
        self.is_out = false;
        conn.into_stream().give_back();
    }
}
