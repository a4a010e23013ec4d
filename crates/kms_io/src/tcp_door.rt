// A door at TCP addresses.
ghost use Rattle.std.specs.Prelude.{◌≡◌, ◌≤◌, length, All, IfOk};
ghost use Rattle.kms_io.specs.Door.{IsNewEar};
ghost use Rattle.kms_io.specs.TcpEar.{counts_of as ear_counts};

use crate::crowd::Crowd;
use crate::hall::Hall;
use crate::lobby::Lobby;
use crate::{Door, Opened, TcpEar};
use mio::net::TcpListener;
use std::alloc::{AllocError, Global};
use std::io::{ErrorKind, Input};
use std::net::{Net, ToSocketAddrs};
use std::sync::{Arc, Wait};
use std::{io, rt};

/// A door at TCP addresses: an IP address, of version 6 in brackets, or a host's name, and a port, of which 0 is any
/// that is free. Of a name with several addresses the first is taken that can be. The ears of an opening wait on one
/// listener, and each connection goes to one of them. It says on standard error, once an opening, which address it
/// listens on, or why it can't; and at the end what became of the connections. It counts the openings that fail, and
/// tells nothing of what was asked. The ears that it takes back listen no longer.
#[derive(Drop)]
pub struct TcpDoor<'a, R> {
    rt: &'a R,
    ends_with_input: bool,
    parks: bool,
    faults: u64,
}

impl<'a, R> TcpDoor<'a, R> {
    ghost use Rattle.std.specs.Prelude.{◌≡◌, None};
    ghost use Rattle.kms_io.specs.TcpDoor.{counts_of};

    /// The door of this runtime, at which nothing is open yet.
    pub fn new(rt: &'a R) -> TcpDoor<'a, R>
        ensures { counts_of result ≡ record {
          faults = 0;
          asked = None;
          is_open = None;
          given_back = None;
        } }
    {
        TcpDoor {
            rt,
            ends_with_input: false,
            parks: false,
            faults: 0,
        }
    }

    /// The same, whose ears give no more connections once standard input has ended, and fail. Whatever else comes there
    /// is thrown away, and nothing else may read it. Where it can't be watched, as a regular file and the null device,
    /// it is left alone.
    pub fn until_input_ends(rt: &'a R) -> TcpDoor<'a, R>
        ensures { counts_of result ≡ record {
          faults = 0;
          asked = None;
          is_open = None;
          given_back = None;
        } }
    {
        TcpDoor {
            rt,
            ends_with_input: true,
            parks: false,
            faults: 0,
        }
    }

    /// The same, whose ears give a connection again: one that has had its reply, and from which nothing comes while more
    /// connections are there than ears, counts as ended for its session, and stays open. Once more comes of it, or its
    /// end, an ear gives it as a connection again. This wants a session whose reads have a room as long as its first one
    /// exactly where it holds nothing of a message that isn't answered.
    pub fn that_parks(self) -> TcpDoor<'a, R>
        ensures { counts_of result ≡ counts_of self.entry }
    {
        TcpDoor {
            parks: true,
            ..self
        }
    }
}

impl<'a, R: Net + Wait + rt::Clock + Eprint + Input + Sync> Door for TcpDoor<'a, R> {
    ghost use Rattle.std.specs.Prelude.{map};
    ghost use Rattle.kms_io.specs.Door.{Opens, Closes};
    ghost use Rattle.kms_io.specs.TcpDoor.{counts_of};

    type Listener = TcpEar<'a, R>;

    ghost shows = { counts_of };

    fn open(&mut self, address: &str, n: u16, ears: &mut Vec<TcpEar<'a, R>>) -> Opened
        ensures { Opens ear_counts (counts_of self.old) address.now n ears.old.items result (counts_of self.new) ears.new.items }
    {
        match new_ears(self, *ears.allocator(), address, n) {
            Ok(mut fresh) => match ears.append(&mut fresh) {
                Ok(()) => Opened::Open,
                Err(_) => Opened::NoMemory,
            },
            Err(fault) if fault.kind() == ErrorKind::OutOfMemory => Opened::NoMemory,
            Err(fault) => {
                let _ = eprintln!(self.rt; "can't listen on {address}: {fault}");
                self.faults = self.faults.saturating_add(1);
                Opened::Failed
            }
        }
    }

    fn close(&mut self, ears: Vec<TcpEar<'a, R>>)
        ensures { Closes (counts_of self.old) (map ear_counts ears.entry.items) (counts_of self.new) }
    {
        end(self.rt, ears);
    }
}

// Ends the ears, and tells what was counted.
fn end<R: Eprint>(rt: &R, ears: Vec<TcpEar<'_, R>>) {
    if let Some(ear) = ears.first() {
        ear.hall().tell(rt);
    }
}

// A listener at the first of the addresses that can be bound.
fn listener_at<R: Net>(rt: &R, address: &str) -> io::Result<TcpListener> {
    let mut last = io::Error::from(ErrorKind::AddrNotAvailable);
    for at in address.to_socket_addrs(rt)? {
        match TcpListener::bind(rt, at) {
            Ok(listener) => return Ok(listener),
            Err(fault) => last = fault,
        }
    }
    Err(last)
}

// So many ears of a hall.
fn ears_of<'a, R>(
    rt: &'a R,
    alloc: Global,
    hall: &Arc<Hall, Global>,
    n: u16,
) -> Result<Vec<TcpEar<'a, R>>, AllocError>
    ensures number { IfOk result (λ ears. length ears.items ≡ n) }
    ensures each { IfOk result (λ ears. All (λ ear. IsNewEar (ear_counts ear)) ears.items) }
{
    let count = usize::from(n);
    let mut ears = Vec::with_capacity(alloc, count)?;
    for _made in 0..count {
        ears.push(TcpEar::new(rt, hall)?)?;
    }
    Ok(ears)
}

// So many ears on one listener at the address, which standard error is told.
fn new_ears<'a, R: Net + rt::Clock + Eprint>(
    door: &TcpDoor<'a, R>,
    alloc: Global,
    address: &str,
    n: u16,
) -> io::Result<Vec<TcpEar<'a, R>>>
    ensures number { IfOk result (λ ears. length ears.items ≡ n) }
    ensures each { IfOk result (λ ears. All (λ ear. IsNewEar (ear_counts ear)) ears.items) }
{
    let rt = door.rt;
    let listener = listener_at(rt, address)?;
    let at = listener.local_addr()?;
    let crowd = Arc::new(alloc, Crowd::new())?;
    let mut lobby = Lobby::new(rt, alloc, listener, Arc::try_clone(&crowd)?)?;
    if door.ends_with_input {
        lobby.watch_input();
    }
    let hall = Hall::new(rt, alloc, lobby, crowd, n, door.parks)?;
    let hall = Arc::new(alloc, hall)?;
    let ears = ears_of(rt, alloc, &hall, n)?;
    let _ = eprintln!(rt; "listening on {at}");
    Ok(ears)
}
