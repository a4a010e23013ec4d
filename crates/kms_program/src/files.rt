// The configuration's file.
ghost use Rattle.session_front.specs.Callers.{IsOfAccount};
ghost use Rattle.session_front.specs.declared.trust.Trust.TheVariants.{Signed};
ghost use Rattle.kms_program.specs.Files.{IsLoaded, Loads, OnConfig, HasIdentityPolicies};

use kms_config::{Config, ConfigFault, read_config};
use kms_io::{FileAnswer, Files};
use kms_names::Text;
use std::alloc::Global;

/// What came of a file.
#[derive(Drop)]
pub enum Loaded {
    /// Its configuration.
    Config(Config),
    /// The JSON pointer of its first fault.
    Refused(Text),
    /// It is too long.
    TooLong,
    /// It can't be read.
    Failed,
    /// A growth of memory was refused.
    NoMemory,
}

// What the bytes of a file come to.
fn read_bytes(alloc: Global, bytes: &[u8]) -> Loaded
    ensures is { IsLoaded bytes.now result }
    ensures callers { OnConfig result (λ config. IsOfAccount config.facts.account (Signed config.credentials)) }
    ensures policies { OnConfig result (λ config. HasIdentityPolicies config.facts) }
{
    match read_config(alloc, bytes) {
        Ok(config) => Loaded::Config(config),
        Err(ConfigFault::At(path)) => Loaded::Refused(path),
        Err(ConfigFault::NoMemory) => Loaded::NoMemory,
    }
}

/// The configuration that the file of a name holds. The file is asked for once.
pub fn load_config<F: Files>(alloc: Global, files: &mut F, name: &str) -> Loaded
    ensures loads { Loads (F.shows files.old) name.now result (F.shows files.new) }
    ensures callers { OnConfig result (λ config. IsOfAccount config.facts.account (Signed config.credentials)) }
    ensures policies { OnConfig result (λ config. HasIdentityPolicies config.facts) }
{
    let mut room = Vec::new(alloc);
    match files.read_whole(name, &mut room) {
        FileAnswer::Read => read_bytes(alloc, &room),
        FileAnswer::TooLong => Loaded::TooLong,
        FileAnswer::Failed => Loaded::Failed,
        FileAnswer::NoMemory => Loaded::NoMemory,
    }
}
