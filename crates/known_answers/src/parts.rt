//! The parts whose answers are known.

use crate::cases::Case;
use crate::{
    blobs, ciphers, conditions, configs, contexts, draws, globs, groups, keys, macs, maps, names,
    packed, policies, signatures, tags, verdicts,
};

/// A part, with a file of cases.
#[derive(Clone, Copy)]
pub enum Part {
    Aes256,
    Ghash,
    Gcm,
    Hmac,
    Macs,
    Draws,
    Contexts,
    Blobs,
    Names,
    Globs,
    PackedTexts,
    Conditions,
    Policies,
    Verdicts,
    KeyStates,
    Signatures,
    Configs,
    Maps,
    Groups,
    Tags,
}

impl Part {
    /// All parts.
    pub const ALL: [Part; 20] = [
        Part::Aes256,
        Part::Ghash,
        Part::Gcm,
        Part::Hmac,
        Part::Macs,
        Part::Draws,
        Part::Contexts,
        Part::Blobs,
        Part::Names,
        Part::Globs,
        Part::PackedTexts,
        Part::Conditions,
        Part::Policies,
        Part::Verdicts,
        Part::KeyStates,
        Part::Signatures,
        Part::Configs,
        Part::Maps,
        Part::Groups,
        Part::Tags,
    ];

    /// The name of the part's file.
    pub fn file(self) -> &'static str {
        match self {
            Part::Aes256 => "aes256.txt",
            Part::Ghash => "ghash.txt",
            Part::Gcm => "gcm.txt",
            Part::Hmac => "hmac.txt",
            Part::Macs => "macs.txt",
            Part::Draws => "draws.txt",
            Part::Contexts => "contexts.txt",
            Part::Blobs => "blobs.txt",
            Part::Names => "names.txt",
            Part::Globs => "globs.txt",
            Part::PackedTexts => "packed_texts.txt",
            Part::Conditions => "conditions.txt",
            Part::Policies => "policies.txt",
            Part::Verdicts => "verdicts.txt",
            Part::KeyStates => "key_states.txt",
            Part::Signatures => "signatures.txt",
            Part::Configs => "configs.txt",
            Part::Maps => "maps.txt",
            Part::Groups => "groups.txt",
            Part::Tags => "tags.txt",
        }
    }

    /// Makes the call of a case, and writes what it answers as it stands in the last column.
    pub fn answer(self, case: &mut Case<'_>) {
        match self {
            Part::Aes256 => ciphers::aes256(case),
            Part::Ghash => ciphers::ghash(case),
            Part::Gcm => ciphers::gcm(case),
            Part::Hmac => macs::hmac(case),
            Part::Macs => macs::macs(case),
            Part::Draws => draws::draws(case),
            Part::Contexts => contexts::contexts(case),
            Part::Blobs => blobs::blobs(case),
            Part::Names => names::names(case),
            Part::Globs => globs::globs(case),
            Part::PackedTexts => packed::packed(case),
            Part::Conditions => conditions::conditions(case),
            Part::Policies => policies::policies(case),
            Part::Verdicts => verdicts::verdicts(case),
            Part::KeyStates => keys::keys(case),
            Part::Signatures => signatures::signatures(case),
            Part::Configs => configs::configs(case),
            Part::Maps => maps::maps(case),
            Part::Groups => groups::groups(case),
            Part::Tags => tags::tags(case),
        }
    }
}
