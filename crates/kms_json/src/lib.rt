//! What requests ask and what replies say: the AWS KMS API's JSON 1.1 bodies, read and written.
//!
//! A body is stated as a JSON value (`serde_json`'s), and never as bytes put together by hand.
#![tactic(auto)]

mod asks;
mod bodies;
mod building;
mod constraints;
mod exceptions;
mod fields;
mod given;
mod members;
mod objects;
mod operations;
mod refusals;
mod replies;
mod states;
mod tables;
mod tags;
mod texts;
mod threads;
mod writing;

pub use asks::{
    Ask, AskBody, Changing, CreateGrant, CreateKey, DataKey, Decrypt, Encrypt, GenerateMac,
    GrantConstraint, JsonFault, ListGrants, Page, ReEncrypt, Reading, RetiredGrant, VerifyMac,
};
pub use bodies::read_ask;
pub use fields::{are_tag_keys, are_tags, is_grant_name};
pub use refusals::{Limit, Missing, PolicyFlaw, Refusal, Unsupported};
pub use replies::{
    AliasList, AliasPage, AutomaticRotation, GrantList, GrantPage, HMAC_SHA_256, KeyIdList,
    KeyMetadata, KeyPage, ListedAlias, ListedGrant, Reply, Rotation, RotationList, RotationPage,
    SYMMETRIC_DEFAULT, TagPage,
};
pub use states::KeyState;
pub use threads::asks_and_replies_cross_threads;
pub use writing::write_reply;
