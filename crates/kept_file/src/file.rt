// The calls of the operating system that make a file ready, and write to it.
ghost use Rattle.std.specs.Prelude.{◌≤◌, ◌^◌, length, IfOk};
ghost use Rattle.kept_file.specs.Errors.{IsOpenError, words_of};

use kept_log::MAX_LEN;
use os::RangeLock;
use std::alloc::Global;
use std::fmt;
use std::fs::{self, File, OpenOptions};
use std::io::{self, ErrorKind, Read};
use std::os::fd::AsRawFd;
use std::os::unix::fs::{FileExt, OpenOptionsExt};

const MAX_OFFSET: usize = (1 << 63) - 1;

/// Why a file wasn't opened. Nothing was written to it then, but it may have been made, empty.
#[derive(Clone, Copy, Debug)]
pub enum OpenError {
    /// Another device has its lock, of this process or of another one.
    InUse,
    /// It has more than 2,147,483,648 bytes.
    TooLong,
    /// A growth of memory was refused.
    NoMemory,
    /// The system refused a call, or what has the name is no regular file.
    Io(io::Error),
}

impl From<io::Error> for OpenError {
    ghost from_gives = { λ error e. IsOpenError error e };

    fn from(error: io::Error) -> OpenError {
        if error.kind() == ErrorKind::OutOfMemory {
            OpenError::NoMemory
        } else {
            OpenError::Io(error)
        }
    }
}

impl fmt::Display for OpenError {
    ghost output = { λ e. words_of e };

    fn fmt<W: fmt::Write>(&self, f: &mut fmt::Formatter<W>) -> fmt::Result {
        match self {
            OpenError::InUse => f.write_str("in use"),
            OpenError::TooLong => f.write_str("longer than 2 GiB"),
            OpenError::NoMemory => f.write_str("out of memory"),
            OpenError::Io(error) => write!(f, "{error}"),
        }
    }
}

// Opens a regular file to read and to write it, or makes it, for its owner alone.
fn open_or_make(rt: &HostRuntime, path: &str) -> io::Result<File> {
    let made = OpenOptions::new()
        .read(true)
        .write(true)
        .create_new(true)
        .mode(0o600)
        .open(rt, path);
    match made {
        Err(error) if error.kind() == ErrorKind::AlreadyExists => {
            if !fs::metadata(rt, path)?.is_file() {
                return Err(ErrorKind::Unsupported.into());
            }
            OpenOptions::new().read(true).write(true).open(rt, path)
        }
        made => made,
    }
}

// The same, under a descriptor that is none of the standard streams.
fn open_apart(rt: &HostRuntime, path: &str) -> io::Result<File> {
    let file = open_or_make(rt, path)?;
    if file.as_raw_fd() <= 2 {
        file.try_clone()
    } else {
        Ok(file)
    }
}

// Takes the lock of a file, which its last descriptor gives back.
fn lock(file: &File) -> Result<(), OpenError> {
    if os::try_lock_range(file.as_raw_fd(), RangeLock::Exclusive, 0, 1) == 0 {
        return Ok(());
    }
    let error = io::Error::from_raw_os_error(os::errno());
    if error.kind() == ErrorKind::WouldBlock {
        Err(OpenError::InUse)
    } else {
        Err(error.into())
    }
}

// Puts the name of a file on the disk.
pub(crate) fn sync_folder(rt: &HostRuntime, path: &str) -> io::Result<()> {
    let mut folder = fs::canonicalize(rt, path)?;
    folder.pop();
    File::open(rt, folder.as_str())?.sync_all()
}

// Puts a file on the disk, and drops the kernel's copies of its pages, which a failed sync of an
// earlier process may have left other than the disk has them.
fn settle(file: &File) -> io::Result<()> {
    file.sync_all()?;
    match libc::posix_fadvise(file.as_raw_fd(), 0, 0, libc::POSIX_FADV_DONTNEED) {
        0 => Ok(()),
        advised => Err(io::Error::from_raw_os_error(advised)),
    }
}

// Reads a file of at most 2,147,483,648 bytes.
fn read_whole(file: &mut File, alloc: Global) -> Result<Vec<u8>, OpenError>
    ensures { IfOk result (λ bytes. length bytes.items ≤ 2 ^ 31) }
{
    if file.metadata()?.len() > MAX_LEN as u64 {
        return Err(OpenError::TooLong);
    }
    let mut bytes = Vec::new(alloc);
    file.read_to_end(&mut bytes)?;
    if bytes.len() > MAX_LEN {
        return Err(OpenError::TooLong);
    }
    Ok(bytes)
}

// A file under its lock, on the disk with its name, and its bytes.
pub(crate) fn open_whole(
    rt: &HostRuntime,
    alloc: Global,
    path: &str,
) -> Result<(File, Vec<u8>), OpenError>
    ensures { IfOk result (λ r. length r.1.items ≤ 2 ^ 31) }
{
    let mut file = open_apart(rt, path)?;
    lock(&file)?;
    settle(&file)?;
    sync_folder(rt, path)?;
    let bytes = read_whole(&mut file, alloc)?;
    Ok((file, bytes))
}

// Writes all bytes from an offset on.
pub(crate) fn write_all(file: &File, at: usize, bytes: &[u8]) -> io::Result<()> {
    let mut done = 0;
    while done < bytes.len() {
        let from = at.saturating_add(done);
        if from > MAX_OFFSET {
            return Err(ErrorKind::InvalidInput.into());
        }
        let put = file.write_at(&bytes[done..], from as u64)?;
        if put == 0 {
            return Err(ErrorKind::WriteZero.into());
        }
        done += put;
    }
    Ok(())
}
