// Keys: those that may come, made ready for use with their capitals lowered; and those that are stored.
ghost use Rattle.std.specs.Prelude.{◌≡◌};
ghost use Rattle.model.specs.TagList.{fine_key, stored_key};
ghost use Rattle.model.specs.TagOutcome.{ready_key};

use crate::sizes::MAX_KEY;
use arrayvec::ArrayVec;
use model::Fault;
use std::marker::Model;

// Whether a key may come: it is short, and has no byte above 127.
#[tactic(auto, using(crate::proofs::KeyBytes::fine))]
fn is_fine_key(key: &[u8]) -> bool
    ensures { result ≡ fine_key key.now }
{
    key.len() <= MAX_KEY && key.is_ascii()
}

// Whether a key may be stored: it has no capital either.
pub(crate) fn is_stored_key(key: &[u8]) -> bool
    ensures { result ≡ stored_key key.now }
{
    key.len() <= MAX_KEY && key.iter().all(|x| x.is_ascii() && !x.is_ascii_uppercase())
}

// A key ready for use: its capitals are lowered.
#[derive(Drop)]
pub struct Key {
    bytes: ArrayVec<u8, MAX_KEY>,
}

impl Model for Key {
    ghost use Rattle.std.specs.Prelude.{List, ℕ};

    ghost Value = { List ℕ };

    ghost view = { λ k. k.bytes.items };
}

impl Key {
    // A key as it comes, made ready, unless it is too long or has a byte above 127.
    #[tactic(auto, using(crate::proofs::KeyBytes::ready))]
    pub fn lowered(key: &[u8]) -> Result<Key, Fault>
        ensures { result ≡ ready_key key.now }
    {
        if !is_fine_key(key) {
            return Err(Fault::BadKey);
        }
        let mut bytes = ArrayVec::new();
        for x in key {
            bytes.push(x.to_ascii_lowercase());
        }
        Ok(Key { bytes })
    }

    // The key's bytes.
    pub fn as_bytes(&self) -> &[u8]
        ensures { result.now ≡ self.now }
    {
        self.bytes.as_slice()
    }
}
