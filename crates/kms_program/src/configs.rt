// Configurations from files, or what is said where there is none.
ghost use Rattle.std.specs.Prelude.{◌≡◌, ℕ, List, Option, IfOk, IfErr};
ghost use Rattle.kms_io.specs.Shelf.{Shelf};
ghost use Rattle.kms_io.specs.Files.{Asks};
ghost use Rattle.session_front.specs.Callers.{IsOfAccount};
ghost use Rattle.session_front.specs.declared.trust.Trust.TheVariants.{Signed};
ghost use Rattle.kms_program.specs.Files.{IsFileOf, HasIdentityPolicies};
ghost use Rattle.kms_program.specs.Program.{around, Refuses, WithFile};

use crate::files::{Loaded, load_config};
use crate::lines::{say_refused_at, say_refused_whole};
use crate::statuses::{NO_MEMORY, REFUSED, UNREAD};
use kms_config::Config;
use kms_io::{Files, Link};
use kms_names::{NoMemory, Text};
use std::alloc::Global;

// Writes that a file is refused at a path, and gives the status.
fn refuse<L: Link>(alloc: Global, path: Text, link: &mut L) -> u8
    ensures { (clock : Option (List ℕ)) (shelf later : Shelf) → Refuses path result (around (L.shows link.old) clock shelf) (around (L.shows link.new) clock later) }
{
    match say_refused_at(alloc, link, path.as_str()) {
        Ok(()) => REFUSED,
        Err(NoMemory) => NO_MEMORY,
    }
}

/// The configuration that a file holds; else what was to be written is, and this is the status.
pub fn obtain_config<F: Files, L: Link>(
    alloc: Global,
    files: &mut F,
    link: &mut L,
    file: &str,
) -> Result<Config, u8>
    ensures config { IfOk result (λ config. IsFileOf (F.shows files.old) file.now config × Asks (F.shows files.old) file.now (F.shows files.new) × (L.shows link.new ≡ L.shows link.old)) }
    ensures callers { IfOk result (λ config. IsOfAccount config.facts.account (Signed config.credentials)) }
    ensures policies { IfOk result (λ config. HasIdentityPolicies config.facts) }
    ensures status { IfErr result (λ status. (clock : Option (List ℕ)) → WithFile file.now status (around (L.shows link.old) clock (F.shows files.old)) (around (L.shows link.new) clock (F.shows files.new)) (λ config. ⊥)) }
{
    match load_config(alloc, files, file) {
        Loaded::Config(config) => Ok(config),
        Loaded::Refused(path) => Err(refuse(alloc, path, link)),
        Loaded::TooLong => {
            say_refused_whole(link);
            Err(REFUSED)
        }
        Loaded::Failed => Err(UNREAD),
        Loaded::NoMemory => Err(NO_MEMORY),
    }
}
