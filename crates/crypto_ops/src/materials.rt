ghost use Rattle.std.specs.Prelude.{◌≡◌};
ghost use Rattle.crypto_ops.specs.Material.{material_of};
ghost use Rattle.crypto_ops.specs.Material as spec;

use kms_names::KeyId;
use mac_sha::Mac;

/// The label of material under the root secret.
const MATERIAL: &[u8] = b"material";

/// The label of the key of a blob under the material.
const BLOB_KEY: &[u8] = b"blob2";

/// The label of a commitment under the data key.
const COMMITMENT: &[u8] = b"commit2";

/// The material of a version of a key under a root secret: HMAC-SHA-256 (FIPS 198-1, section 4) of the
/// label `material`, the id and the version in 4 bytes, high byte first. No memory is taken.
#[tactic(auto, unfolding(crate::specs::Material::material_of))]
pub fn material(root: &[u8; 32], key: &KeyId, version: u32) -> [u8; 32]
    ensures { result ≡ material_of root.now key.now version }
{
    let mut mac = Mac::new(root);
    mac.add(MATERIAL);
    mac.add(key.as_bytes());
    mac.add(&version.to_be_bytes());
    mac.end()
}

/// The key of a blob of form 2: HMAC-SHA-256 under the material of the label `blob2` and the
/// initialization vector, which is its salt.
#[tactic(auto, unfolding(crate::specs::Material::blob_key))]
pub fn blob_key(material: &[u8; 32], iv: &[u8; 12]) -> [u8; 32]
    ensures { result ≡ spec.blob_key material.now iv.now }
{
    let mut mac = Mac::new(material);
    mac.add(BLOB_KEY);
    mac.add(iv);
    mac.end()
}

/// The commitment to a data key: HMAC-SHA-256 under it of the label `commit2`.
#[tactic(auto, unfolding(crate::specs::Material::commitment_of))]
pub fn commitment(key: &[u8; 32]) -> [u8; 32]
    ensures { result ≡ spec.commitment_of key.now }
{
    let mut mac = Mac::new(key);
    mac.add(COMMITMENT);
    mac.end()
}
