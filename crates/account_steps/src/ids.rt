// The ids of keys and grants, and the lines of passes.
ghost use Rattle.std.specs.Prelude.{◌≡◌, ◌-◌, ◌≤◌, ◌++◌, codes, length, take};
ghost use Rattle.mac_sha.specs.Hmac.{hmac_sha256};
ghost use Rattle.account_steps.specs.Ids.{be32, be48, key_id_at, grant_id_at};
ghost use Rattle.account_steps.specs.Places.{first_line};

use crate::facts::RealmFacts;
use draw_lines::DrawLine;
use kms_names::{GrantId, KeyId};
use mac_sha::Mac;

// The six low bytes of a place, the greatest first.
fn place_bytes(place: u64) -> [u8; 6]
    ensures { result ≡ be48 place }
{
    let all = place.to_be_bytes();
    let mut low = [0; 6];
    low.copy_from_slice(&all[2..]);
    low
}

// Writes a place over the last bytes of a text.
fn end_with(text: &mut [u8], place: &[u8; 6])
    requires { 6 ≤ length text.old }
    ensures { take (length text.old) text.new ≡ take (length text.old - 6) text.old ++ place.now }
{
    let first = text.len() - place.len();
    text[first..].copy_from_slice(place);
}

/// The id of the key that the entry at this place makes. It takes no memory.
pub fn key_id(facts: &RealmFacts, place: u64) -> KeyId
    ensures { result ≡ key_id_at facts.now place }
{
    key_id_of(&facts.root, facts.boot, place)
}

/// The same by the root secret and the boot number alone: ten bytes of the HMAC-SHA-256 of "key", the
/// boot and the place, and then the place.
pub fn key_id_of(root: &[u8; 32], boot: u32, place: u64) -> KeyId
    ensures { result ≡ take 10 (hmac_sha256 root.now (codes "key" ++ be32 boot ++ be48 place)) ++ be48 place }
{
    let place = place_bytes(place);
    let mut mac = Mac::new(root);
    mac.add(b"key");
    mac.add(&boot.to_be_bytes());
    mac.add(&place);
    let mut id = [0; 16];
    id.copy_from_slice(&mac.end()[..16]);
    end_with(&mut id, &place);
    KeyId::new(id)
}

/// The id of the grant that the entry at this place makes. It takes no memory.
pub fn grant_id(facts: &RealmFacts, place: u64) -> GrantId
    ensures { result ≡ grant_id_at facts.now place }
{
    let place = place_bytes(place);
    let mut mac = Mac::new(&facts.root);
    mac.add(b"grant");
    mac.add(&facts.boot.to_be_bytes());
    mac.add(&place);
    let mut id = mac.end();
    end_with(&mut id, &place);
    GrantId::new(id)
}

/// The line of draws of the pass of this number, which has drawn nothing. It takes no memory.
#[tactic(auto, unfolding(crate::specs::Ids::draw_seed))]
pub fn draw_line(facts: &RealmFacts, number: u16) -> DrawLine
    ensures { result ≡ first_line facts.now number }
{
    let mut mac = Mac::new(&facts.root);
    mac.add(b"draw");
    mac.add(&facts.boot.to_be_bytes());
    mac.add(&number.to_be_bytes());
    DrawLine::new(&mac.end(), facts.boot, number)
}
