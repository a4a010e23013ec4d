// What stands behind the end of a file, in a file beside it.
use crate::file::sync_folder;
use std::alloc::Global;
use std::fs::OpenOptions;
use std::io::{self, Write};
use std::os::unix::fs::OpenOptionsExt;

/// Puts these bytes behind those of the file of this name with `.torn` behind it, which is made for
/// its owner alone where it is missing. At `Ok` they are on the disk, and the name is.
pub fn keep_torn(rt: &HostRuntime, alloc: Global, path: &str, bytes: &[u8]) -> io::Result<()> {
    let name = format!(in alloc; "{path}.torn")?;
    let mut file = OpenOptions::new()
        .append(true)
        .create(true)
        .mode(0o600)
        .open(rt, name.as_str())?;
    file.write_all(bytes)?;
    file.sync_all()?;
    sync_folder(rt, name.as_str())
}
