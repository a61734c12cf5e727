ghost use Rattle.std.specs.Prelude.{◌≡◌, ℕ, List, ◌++◌, take};
ghost use Rattle.sha2.specs.Sha512.{sha384};
ghost use Rattle.dbe_kdf.specs.Hkdf.{hkdf_expand};
ghost use Rattle.dbe_kdf.specs.Hmac.{hmac};
ghost use Rattle.dbe_itemkeys.specs.ItemKeys.{item_keys, commitment, recipient_tag};

use dbe_aes::Key256;
use dbe_kdf::{EmptySalt, Prk, hmac384};
use std::marker::Model;

/// The keys of an item: the one that its commitment is made with, and the root key, from which the keys of its fields
/// come. Each has 32 bytes. Contracts see these bytes.
#[derive(Drop)]
pub struct ItemKeys {
    commit: [u8; 32],
    pub(crate) root: Key256,
}

impl Model for ItemKeys {
    ghost use Rattle.dbe_itemkeys.specs.ItemKeys.{ItemKeysParts};

    ghost Value = { ItemKeysParts };

    ghost view = { λ k. record { commit = k.commit; root = k.root } };
}

impl ItemKeys {
    /// The keys that the data key and the message id, both of 32 bytes, derive (HKDF with SHA-512 and no salt, RFC 5869).
    /// Takes no memory. One salt serves for many items.
    #[tactic(auto, unfolding(crate::specs::ItemKeys::commit_key, crate::specs::ItemKeys::root_key, dbe_kdf::specs::Hkdf::hkdf))]
    pub fn new(salt: &EmptySalt, data_key: &[u8; 32], message_id: &[u8; 32]) -> ItemKeys
        ensures { result ≡ item_keys data_key.now message_id.now }
    {
        let prk = salt.extract(data_key);
        let commit = derived(&prk, b"AWS_DBE_COMMIT_KEY", message_id);
        let root = derived(&prk, b"AWS_DBE_DERIVE_KEY", message_id);
        ItemKeys {
            commit,
            root: Key256::new(&root),
        }
    }

    /// The 32 bytes that tie the bytes of the header before them to the data key: the first of their HMAC-SHA-384 under
    /// the commit key. The bytes may have any length.
    #[tactic(auto, unfolding(crate::specs::ItemKeys::commitment))]
    pub fn commitment(&self, before: &[u8]) -> [u8; 32]
        ensures hmac { result ≡ take 32 (hmac sha384 self.now.commit before.now) }
        ensures derived { (data_key message_id : List ℕ) → self.now ≡ item_keys data_key message_id
            → result ≡ commitment data_key message_id before.now }
    {
        first_32(&hmac384(&self.commit, before))
    }
}

fn first_32(mac: &[u8; 48]) -> [u8; 32]
    ensures { result ≡ take 32 mac.now }
{
    let mut first = [0u8; 32];
    first.copy_from_slice(&mac[..32]);
    first
}

// The key that is derived for this use of a message's keys.
pub(crate) fn derived(prk: &Prk, usage: &[u8; 18], message_id: &[u8; 32]) -> [u8; 32]
    ensures { result ≡ hkdf_expand prk.now (usage.now ++ message_id.now) 32 }
{
    let mut key = [0u8; 32];
    prk.expand(&info_of(usage, message_id), &mut key);
    key
}

// The info of HKDF.
fn info_of(usage: &[u8; 18], message_id: &[u8; 32]) -> [u8; 50]
    ensures { result ≡ usage.now ++ message_id.now }
{
    let mut info = [0u8; 50];
    info[..18].copy_from_slice(usage);
    info[18..].copy_from_slice(message_id);
    info
}

/// A recipient's tag, from its signing key and the SHA-384 of the record text (HMAC-SHA-384, RFC 2104), both of 48
/// bytes. Takes no memory.
#[tactic(auto, unfolding(crate::specs::ItemKeys::recipient_tag))]
pub fn recipient_tag(signing: &[u8; 48], record_digest: &[u8; 48]) -> [u8; 48]
    ensures hmac { result ≡ hmac sha384 signing.now record_digest.now }
    ensures tag { (text : List ℕ) → record_digest.now ≡ sha384 text → result ≡ recipient_tag signing.now text }
{
    hmac384(signing, record_digest)
}
