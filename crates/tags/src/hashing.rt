//! HMAC-SHA-256.
ghost use Rattle.std.specs.Prelude.{◌≡◌, ◌≤◌, ◌++◌, length, map};
ghost use Rattle.std.specs.List.{concat};
ghost use Rattle.tags.specs.Hmac.{hmac, padded, used_key, xor_each};
ghost use Rattle.sha2.specs.Sha256.{sha256};

use sha2::{Digest, Sha256};

/// How many bytes a block of SHA-256 has.
const BLOCK: usize = 64;

/// How many bytes a digest of SHA-256 has.
const DIGEST: usize = 32;

/// The byte with which each byte of the key is combined for the inner hash: `ipad` of RFC 2104.
const INNER_PAD: u8 = 0x36;

/// The byte with which each byte of the key is combined for the outer hash: `opad` of RFC 2104.
const OUTER_PAD: u8 = 0x5c;

/// The bytes with zeros after them up to a block.
fn padded(bytes: &[u8]) -> [u8; BLOCK]
    requires { length bytes.now ≤ BLOCK }
    ensures { result ≡ padded bytes.now }
{
    let mut block = [0u8; BLOCK];
    block[..bytes.len()].copy_from_slice(bytes);
    block
}

/// The key, or the digest of one that is longer than a block, with zeros after it up to a block.
fn key_block(key: &[u8]) -> [u8; BLOCK]
    ensures { result ≡ padded (used_key key.now) }
{
    if key.len() > BLOCK {
        let digest = Sha256::digest(key);
        padded(digest.as_slice())
    } else {
        padded(key)
    }
}

/// Each byte of the block combined with that byte by exclusive or.
fn xor_each(pad: u8, block: &[u8; BLOCK]) -> [u8; BLOCK]
    ensures { result ≡ xor_each pad block.now }
{
    let mut combined = [0u8; BLOCK];
    for i in 0..BLOCK {
        combined[i] = block[i] ^ pad;
    }
    combined
}

/// The digest of the block and then the parts, one after another.
fn digest_after(block: &[u8; BLOCK], parts: &[&[u8]]) -> [u8; DIGEST]
    ensures { result ≡ sha256 (block.now ++ concat (map (λ part. part.now) parts.now)) }
{
    let mut hasher = Sha256::new_with_prefix(block.as_slice());
    for part in parts {
        hasher.update(part);
    }
    hasher.finalize()
}

/// The HMAC-SHA-256 under that key of the parts, one after another, as RFC 2104 defines it.
pub fn hmac(key: &[u8], parts: &[&[u8]]) -> [u8; 32]
    ensures { result ≡ hmac key.now (concat (map (λ part. part.now) parts.now)) }
{
    let block = key_block(key);
    let inner = digest_after(&xor_each(INNER_PAD, &block), parts);
    digest_after(&xor_each(OUTER_PAD, &block), &[inner.as_slice()])
}
