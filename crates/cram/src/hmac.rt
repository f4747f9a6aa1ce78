// HMAC over MD5 (RFC 2104).
ghost use Rattle.std.specs.Prelude.{◌≡◌, ◌≤◌, length};
ghost use Rattle.md5.specs.Md5.{Holds};
ghost use Rattle.cram.specs.Hmac.{filled, hmac_of, mac_under, padded_with};

use md5::{Digest, Md5};

const BLOCK_LEN: usize = 64;

const INNER_PAD: u8 = 0x36;

const OUTER_PAD: u8 = 0x5c;

/// Gives the 16 bytes of the HMAC of the message under the key, over MD5 (RFC 2104). A key of any length is right; one
/// of more than 64 bytes is digested first. No memory is asked for.
#[tactic(auto, unfolding(crate::specs::Hmac::hmac_of))]
pub fn hmac_md5(key: &[u8], message: &[u8]) -> [u8; 16]
    ensures { result ≡ hmac_of key.now message.now }
{
    if key.len() > BLOCK_LEN {
        let digest = Md5::digest(key);
        mac_under(&digest, message)
    } else {
        mac_under(key, message)
    }
}

// The same, under a key that fits a block.
fn mac_under(key: &[u8], message: &[u8]) -> [u8; 16]
    requires { length key.now ≤ BLOCK_LEN }
    ensures { result ≡ mac_under key.now message.now }
{
    let mut inner = padded_hasher(key, INNER_PAD);
    inner.update(message);
    let digest = inner.finalize();
    let mut outer = padded_hasher(key, OUTER_PAD);
    outer.update(&digest);
    outer.finalize()
}

// A hasher that has taken the key's block in, under the pad.
fn padded_hasher(key: &[u8], pad: u8) -> Md5
    requires { length key.now ≤ BLOCK_LEN }
    ensures { Holds result (padded_with pad (filled key.now)) }
{
    let mut hasher = Md5::new();
    for byte in key {
        hasher.update(&[*byte ^ pad]);
    }
    for _ in key.len()..BLOCK_LEN {
        hasher.update(&[pad]);
    }
    hasher
}
