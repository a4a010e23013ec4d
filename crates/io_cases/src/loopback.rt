// Connections over loopback.
ghost use Rattle.std.specs.Prelude.{◌≡◌, false, All};
ghost use Rattle.kms_io.specs.TcpEar.{counts_of};

use crate::lines::Lines;
use kms_io::{Door, Ear, Link, Next, Opened, Put, TcpDoor, TcpEar, TcpLink, Took};
use std::alloc::Global;
use std::io::{Input, Read, Write};
use std::net::{Net, Shutdown, SocketAddr, TcpListener, TcpStream};
use std::sync::Wait;
use std::{io, rt};

// How often a client asks at most, and how many bytes go out at once to one that doesn't read.
const ROUNDS: u32 = 1_000_000;

const PIECE: usize = 65_536;

// How many clients wait beside another, whose turn is then shorter than so many milliseconds. It is a second long where
// one client waits.
const CROWD: usize = 40;

const SHORT: u128 = 500;

// How a connection is served.
#[derive(Clone, Copy)]
enum Talk {
    // A read.
    Read,
    // Two reads.
    Reads,
    // A read, a write, and a read.
    Answer,
    // The same of a session that holds a byte of the next message, so that the room of its last read is shorter.
    Part,
    // A read, a write, and a read once the client has asked again.
    Stay,
    // Reads and writes until it ends, of a client that asks again at once.
    Steady,
    // Writes until one fails.
    Writes,
}

// A client that has sent these bytes.
fn client<R: Net<Stream = TcpStream>>(
    rt: &R,
    at: SocketAddr,
    bytes: &[u8],
) -> io::Result<TcpStream> {
    let mut client = TcpStream::connect(rt, at)?;
    client.write_all(bytes)?;
    Ok(client)
}

// Reads and answers until a read gives no bytes, and tells what it gives. The client asks before each read.
fn say_steady<R: Wait + rt::Clock + Eprint + Input>(
    client: &mut TcpStream,
    conn: &mut TcpLink<'_, R>,
    lines: &mut Lines,
) {
    for _ in 0..ROUNDS {
        let took = conn.read_some(&mut [0; 4]);
        if !matches!(took, Took::Got(_)) {
            lines.say_took(took);
            return;
        }
        let _ = conn.write_some(b"pong");
        let _ = client.read_exact(&mut [0; 4]);
        let _ = client.write_all(b"ping");
    }
    lines.say("never ended");
}

// Writes until a write fails, and tells whether one does.
fn say_writes<R: Wait + rt::Clock + Eprint + Input>(conn: &mut TcpLink<'_, R>, lines: &mut Lines) {
    for _ in 0..ROUNDS {
        let put = conn.write_some(&[7; PIECE]);
        if matches!(put, Put::Failed) {
            lines.say_put(put);
            return;
        }
    }
    lines.say("all was written");
}

// Serves a connection of the client.
fn say_talk<R: Wait + rt::Clock + Eprint + Input>(
    talk: Talk,
    client: &mut TcpStream,
    conn: &mut TcpLink<'_, R>,
    lines: &mut Lines,
) {
    let mut room = [0; 8];
    match talk {
        Talk::Read => lines.say_took(conn.read_some(&mut room)),
        Talk::Reads => {
            lines.say_took(conn.read_some(&mut room));
            lines.say(", ");
            lines.say_took(conn.read_some(&mut room));
        }
        Talk::Answer => {
            lines.say_took(conn.read_some(&mut room));
            lines.say(", ");
            lines.say_put(conn.write_some(b"pong"));
            lines.say(", ");
            lines.say_took(conn.read_some(&mut room));
        }
        Talk::Part => {
            lines.say_took(conn.read_some(&mut room));
            lines.say(", ");
            lines.say_put(conn.write_some(b"pong"));
            lines.say(", ");
            lines.say_took(conn.read_some(&mut room[1..]));
        }
        Talk::Stay => {
            lines.say_took(conn.read_some(&mut room));
            lines.say(", ");
            lines.say_put(conn.write_some(b"pong"));
            lines.say(", ");
            let _ = client.write_all(b"more");
            lines.say_took(conn.read_some(&mut room));
        }
        Talk::Steady => say_steady(client, conn, lines),
        Talk::Writes => say_writes(conn, lines),
    }
}

// Serves the next connection, which is the client's, and gives it back.
fn say_next<R: Wait + rt::Clock + Eprint + Input>(
    talk: Talk,
    client: &mut TcpStream,
    ear: &mut TcpEar<'_, R>,
    lines: &mut Lines,
)
    requires { (counts_of ear.old).is_out ≡ false }
    ensures { (counts_of ear.new).is_out ≡ false }
{
    match ear.next() {
        Next::Conn(mut conn) => {
            say_talk(talk, client, &mut conn, lines);
            ear.done(conn);
        }
        Next::Failed => lines.say("failed"),
    }
}

// What a client got until its connection ended.
fn say_told(alloc: Global, client: &mut TcpStream, lines: &mut Lines) -> io::Result<()> {
    let mut told = Vec::new(alloc);
    client.read_to_end(&mut told)?;
    lines.say(", the client has ");
    lines.say_text(&told);
    Ok(())
}

// A connection of a client that is served while another waits, and then that one.
fn show_beside<R: Net<Stream = TcpStream> + Wait + rt::Clock + Eprint + Input>(
    rt: &R,
    at: SocketAddr,
    what: &str,
    talk: Talk,
    ear: &mut TcpEar<'_, R>,
    lines: &mut Lines,
) -> io::Result<()>
    requires { (counts_of ear.old).is_out ≡ false }
    ensures { (counts_of ear.new).is_out ≡ false }
{
    let mut first = client(rt, at, b"ping")?;
    let mut other = client(rt, at, b"wait")?;
    lines.say(what);
    lines.say(" while another waits: ");
    say_next(talk, &mut first, ear, lines);
    lines.say("; the other: ");
    say_next(Talk::Read, &mut other, ear, lines);
    lines.say("\n");
    Ok(())
}

// A client that asks on and on while many others wait, and then the first of them.
fn show_crowd<R: Net<Stream = TcpStream> + Wait + rt::Clock + Eprint + Input + AllocGlobal>(
    rt: &R,
    at: SocketAddr,
    ear: &mut TcpEar<'_, R>,
    lines: &mut Lines,
) -> io::Result<()>
    requires { (counts_of ear.old).is_out ≡ false }
    ensures { (counts_of ear.new).is_out ≡ false }
{
    let mut first = client(rt, at, b"ping")?;
    let mut other = client(rt, at, b"wait")?;
    let mut others = Vec::new(rt.alloc());
    for _ in 1..CROWD {
        others.push(client(rt, at, b"wait")?)?;
    }
    lines.say("a client that asks on and on while 40 others wait: ");
    let begin = rt.monotonic()?;
    say_next(Talk::Steady, &mut first, ear, lines);
    let time = rt.monotonic()?.saturating_sub(begin);
    lines.say(", within half a second: ");
    lines.say_whether(time.as_millis() < SHORT);
    lines.say("; the first of them: ");
    say_next(Talk::Read, &mut other, ear, lines);
    lines.say("\n");
    Ok(())
}

// A client that closes its half after it has asked.
fn show_half_closed<R: Net<Stream = TcpStream> + Wait + rt::Clock + Eprint + Input + AllocGlobal>(
    rt: &R,
    at: SocketAddr,
    ear: &mut TcpEar<'_, R>,
    lines: &mut Lines,
) -> io::Result<()>
    requires { (counts_of ear.old).is_out ≡ false }
    ensures { (counts_of ear.new).is_out ≡ false }
{
    let mut client = client(rt, at, b"ping")?;
    client.shutdown(Shutdown::Write)?;
    lines.say("a client that closes its half: ");
    say_next(Talk::Answer, &mut client, ear, lines);
    say_told(rt.alloc(), &mut client, lines)?;
    lines.say("\n");
    Ok(())
}

// A client that has sent nothing, and one behind it that has.
fn show_silent<R: Net<Stream = TcpStream> + Wait + rt::Clock + Eprint + Input>(
    rt: &R,
    at: SocketAddr,
    ear: &mut TcpEar<'_, R>,
    lines: &mut Lines,
) -> io::Result<()>
    requires { (counts_of ear.old).is_out ≡ false }
    ensures { (counts_of ear.new).is_out ≡ false }
{
    let mut silent = client(rt, at, b"")?;
    let mut other = client(rt, at, b"late")?;
    lines.say("a client that has sent nothing waits, the one behind it: ");
    say_next(Talk::Read, &mut other, ear, lines);
    silent.shutdown(Shutdown::Write)?;
    lines.say("; it closes its half: ");
    say_next(Talk::Read, &mut silent, ear, lines);
    lines.say("\n");
    Ok(())
}

// What an ear does with clients of every kind.
fn show_clients<R: Net<Stream = TcpStream> + Wait + rt::Clock + Eprint + Input + AllocGlobal>(
    rt: &R,
    at: SocketAddr,
    ear: &mut TcpEar<'_, R>,
    lines: &mut Lines,
) -> io::Result<()>
    requires { (counts_of ear.old).is_out ≡ false }
    ensures { (counts_of ear.new).is_out ≡ false }
{
    show_half_closed(rt, at, ear, lines)?;
    show_silent(rt, at, ear, lines)?;
    show_beside(
        rt,
        at,
        "a client that gets a reply and is idle",
        Talk::Answer,
        ear,
        lines,
    )?;
    show_beside(
        rt,
        at,
        "a client that sends only a part",
        Talk::Reads,
        ear,
        lines,
    )?;
    show_beside(
        rt,
        at,
        "a client that asks on and on",
        Talk::Steady,
        ear,
        lines,
    )?;
    show_beside(
        rt,
        at,
        "a client that doesn't read",
        Talk::Writes,
        ear,
        lines,
    )?;
    show_crowd(rt, at, ear, lines)
}

// Two clients of one ear, each of which waits again once it has its reply. None of them sees an end.
fn show_again<R: Net<Stream = TcpStream> + Wait + rt::Clock + Eprint + Input + AllocGlobal>(
    rt: &R,
    at: SocketAddr,
    ear: &mut TcpEar<'_, R>,
    lines: &mut Lines,
) -> io::Result<()>
    requires { (counts_of ear.old).is_out ≡ false }
    ensures { (counts_of ear.new).is_out ≡ false }
{
    let mut first = client(rt, at, b"ping")?;
    let mut other = client(rt, at, b"wait")?;
    lines.say("a client that has its reply while another is there: ");
    say_next(Talk::Answer, &mut first, ear, lines);
    lines.say("; the other: ");
    say_next(Talk::Answer, &mut other, ear, lines);
    first.write_all(b"more")?;
    lines.say("; the first asks again: ");
    say_next(Talk::Answer, &mut first, ear, lines);
    first.shutdown(Shutdown::Write)?;
    lines.say("; it closes its half: ");
    say_next(Talk::Read, &mut first, ear, lines);
    say_told(rt.alloc(), &mut first, lines)?;
    other.shutdown(Shutdown::Write)?;
    lines.say("; so does the other: ");
    say_next(Talk::Read, &mut other, ear, lines);
    say_told(rt.alloc(), &mut other, lines)?;
    lines.say("\n");
    Ok(())
}

// A client that has sent a part of its next request with the first one, while another waits.
fn show_part<R: Net<Stream = TcpStream> + Wait + rt::Clock + Eprint + Input + AllocGlobal>(
    rt: &R,
    at: SocketAddr,
    ear: &mut TcpEar<'_, R>,
    lines: &mut Lines,
) -> io::Result<()>
    requires { (counts_of ear.old).is_out ≡ false }
    ensures { (counts_of ear.new).is_out ≡ false }
{
    let mut first = client(rt, at, b"pingp")?;
    let mut other = client(rt, at, b"wait")?;
    lines.say("a client that has sent more than it was answered while another waits: ");
    say_next(Talk::Part, &mut first, ear, lines);
    say_told(rt.alloc(), &mut first, lines)?;
    lines.say("; the other: ");
    say_next(Talk::Read, &mut other, ear, lines);
    lines.say("\n");
    Ok(())
}

// What an ear does that gives connections again: with one client, and with two.
fn show_parking<R: Net<Stream = TcpStream> + Wait + rt::Clock + Eprint + Input + AllocGlobal>(
    rt: &R,
    at: SocketAddr,
    ears: &mut Vec<TcpEar<'_, R>>,
    lines: &mut Lines,
) -> io::Result<()>
    requires { All (λ ear. (counts_of ear).is_out ≡ false) ears.old.items }
{
    if let Some(mut ear) = ears.pop() {
        let mut lone = client(rt, at, b"ping")?;
        lines.say("a lone client asks twice: ");
        say_next(Talk::Stay, &mut lone, &mut ear, lines);
        lines.say("\n");
        show_again(rt, at, &mut ear, lines)?;
        show_part(rt, at, &mut ear, lines)?;
        ears.push(ear)?;
    }
    Ok(())
}

// What one of these ears does with them.
fn show_ear<R: Net<Stream = TcpStream> + Wait + rt::Clock + Eprint + Input + AllocGlobal>(
    rt: &R,
    at: SocketAddr,
    ears: &mut Vec<TcpEar<'_, R>>,
    lines: &mut Lines,
) -> io::Result<()>
    requires { All (λ ear. (counts_of ear).is_out ≡ false) ears.old.items }
{
    if let Some(mut ear) = ears.pop() {
        show_clients(rt, at, &mut ear, lines)?;
        ears.push(ear)?;
    }
    Ok(())
}

// An opening that fails.
fn show_shut<R: Net + Wait + rt::Clock + Eprint + Input + AllocGlobal + Sync>(
    rt: &R,
    what: &str,
    address: &str,
    lines: &mut Lines,
) {
    lines.say(what);
    lines.say_opened(TcpDoor::new(rt).open(address, 1, &mut Vec::new(rt.alloc())));
    lines.say("\n");
}

// A door whose connections wait again.
fn show_again_door<
    R: Net<Listener = TcpListener, Stream = TcpStream>
        + Wait
        + rt::Clock
        + Eprint
        + Input
        + AllocGlobal
        + Sync,
>(rt: &R, lines: &mut Lines) -> io::Result<()> {
    let alloc = rt.alloc();
    let at = TcpListener::bind(rt, "127.0.0.1:0")?.local_addr()?;
    let address = format!(in alloc; "{at}")?;
    let mut door = TcpDoor::new(rt).that_parks();
    let mut ears = Vec::new(alloc);
    lines.say("a door whose connections wait again: ");
    let opened = door.open(&address, 1, &mut ears);
    lines.say_opened(opened);
    lines.say("\n");
    if let Opened::Open = opened {
        show_parking(rt, at, &mut ears, lines)?;
        door.close(ears);
    }
    Ok(())
}

/// Openings that fail, and two whose ears take connections.
pub fn show_loopback<
    R: Net<Listener = TcpListener, Stream = TcpStream>
        + Wait
        + rt::Clock
        + Eprint
        + Input
        + AllocGlobal
        + Sync,
>(rt: &R, lines: &mut Lines) -> io::Result<()> {
    let alloc = rt.alloc();
    let at = TcpListener::bind(rt, "127.0.0.1:0")?.local_addr()?;
    let address = format!(in alloc; "{at}")?;
    show_shut(
        rt,
        "a door of the machine, at no address: ",
        "no address",
        lines,
    );
    lines.say("a door of the machine, at a free port of loopback: ");
    let mut door = TcpDoor::new(rt);
    let mut ears = Vec::new(alloc);
    let opened = door.open(&address, 2, &mut ears);
    lines.say_opened(opened);
    lines.say("\n");
    match opened {
        Opened::Open => {
            show_shut(rt, "another at the same: ", &address, lines);
            show_ear(rt, at, &mut ears, lines)?;
            door.close(ears);
        }
        Opened::Failed | Opened::NoMemory => {}
    }
    show_again_door(rt, lines)
}
