// What the operations that use keys are asked.
ghost use Rattle.std.specs.Prelude.{◌≡◌};
ghost use Rattle.kms_json.specs.Building.{held};
ghost use Rattle.kms_json.specs.CryptographyAsks as asked;

use super::next;
use crate::asks::{DataKey, Decrypt, Encrypt, ReEncrypt, Reading};
use crate::given::{
    Given, bytes_in, context_in, flag_in, is_given, number_in, text_if, text_in, texts_in,
};
use std::alloc::Global;
use std::collections::VecDeque;

/// Encrypt.
pub fn encrypt(alloc: Global, values: &mut VecDeque<Given>) -> Reading
    ensures { result ≡ asked.encrypt (held asked.encrypt_fields values.old.items) }
{
    Reading::Encrypt(Encrypt {
        key_id: text_in(alloc, next(values)),
        plaintext: bytes_in(alloc, next(values)),
        context: context_in(alloc, next(values)),
        grant_tokens: texts_in(alloc, next(values)),
        algorithm: text_if(next(values)),
        dry_run: flag_in(next(values)),
    })
}

/// Decrypt.
pub fn decrypt(alloc: Global, values: &mut VecDeque<Given>) -> Reading
    ensures { result ≡ asked.decrypt (held asked.decrypt_fields values.old.items) }
{
    Reading::Decrypt(Decrypt {
        blob: bytes_in(alloc, next(values)),
        context: context_in(alloc, next(values)),
        grant_tokens: texts_in(alloc, next(values)),
        key_id: text_if(next(values)),
        algorithm: text_if(next(values)),
        recipient: is_given(next(values)),
        dry_run: flag_in(next(values)),
    })
}

/// ReEncrypt.
pub fn re_encrypt(alloc: Global, values: &mut VecDeque<Given>) -> Reading
    ensures { result ≡ asked.re_encrypt (held asked.re_encrypt_fields values.old.items) }
{
    Reading::ReEncrypt(ReEncrypt {
        blob: bytes_in(alloc, next(values)),
        source_context: context_in(alloc, next(values)),
        source_key_id: text_if(next(values)),
        key_id: text_in(alloc, next(values)),
        context: context_in(alloc, next(values)),
        source_algorithm: text_if(next(values)),
        algorithm: text_if(next(values)),
        grant_tokens: texts_in(alloc, next(values)),
        dry_run: flag_in(next(values)),
    })
}

// The size of a data key of this spec.
fn size_of_spec(spec: &str) -> u64
    ensures { result ≡ asked.spec_size spec.now }
{
    if spec == "AES_256" { 32 } else { 16 }
}

// The size of a data key by its spec, where that is given, or by its number of bytes.
fn data_key_size(spec: Given, number: Given) -> u64
    ensures { result ≡ asked.data_key_size spec number }
{
    if spec.is_absent() {
        number_in(number)
    } else {
        size_of_spec(spec.text())
    }
}

/// GenerateDataKey: the number of bytes stands before the spec.
pub fn generate_data_key(alloc: Global, values: &mut VecDeque<Given>) -> Reading
    ensures { result ≡ asked.generate_data_key (held asked.generate_data_key_fields values.old.items) }
{
    let key_id = text_in(alloc, next(values));
    let context = context_in(alloc, next(values));
    let number = next(values);
    let size = data_key_size(next(values), number);
    let grant_tokens = texts_in(alloc, next(values));
    let recipient = is_given(next(values));
    let dry_run = flag_in(next(values));
    let key = DataKey {
        key_id,
        context,
        size,
        grant_tokens,
        dry_run,
    };
    Reading::GenerateDataKey { key, recipient }
}

/// GenerateDataKeyWithoutPlaintext: the spec stands before the number of bytes.
pub fn generate_data_key_without_plaintext(alloc: Global, values: &mut VecDeque<Given>) -> Reading
    ensures { result ≡ asked.generate_data_key_without_plaintext (held asked.generate_data_key_without_plaintext_fields values.old.items) }
{
    Reading::GenerateDataKeyWithoutPlaintext(DataKey {
        key_id: text_in(alloc, next(values)),
        context: context_in(alloc, next(values)),
        size: data_key_size(next(values), next(values)),
        grant_tokens: texts_in(alloc, next(values)),
        dry_run: flag_in(next(values)),
    })
}

/// GenerateRandom.
pub fn generate_random(values: &mut VecDeque<Given>) -> Reading
    ensures { result ≡ asked.generate_random (held asked.generate_random_fields values.old.items) }
{
    Reading::GenerateRandom {
        size: number_in(next(values)),
        custom_key_store: is_given(next(values)),
        recipient: is_given(next(values)),
    }
}
