//! Bounds on user keys.

ghost use Rattle.std.specs.Prelude.{◌≡◌};
ghost use Rattle.lsm_codec.specs.Keys.{user_le};

use lsm_codec::Bytes;

/// The user keys from one to another, both included, in bytewise order, that begin with some bytes.
/// `None` is no bound, or any beginning.
#[derive(Debug, Drop)]
pub struct KeyBounds {
    pub from: Option<Bytes>,
    pub to: Option<Bytes>,
    pub prefix: Option<Bytes>,
}

/// Whether a user key is at most another one.
#[tactic(auto, unfolding(lsm_codec::specs::Keys::user_le))]
fn is_at_most(a: &[u8], b: &[u8]) -> bool
    ensures { result ≡ user_le a.now b.now }
{
    a.cmp(b).is_le()
}

impl KeyBounds {
    ghost use Rattle.lsm_requests.specs.KeyBounds.{begins_so, ends_at, has_passed, has_reached};
    ghost use Rattle.lsm_requests.specs.KeyBounds.{is_from, is_to, is_within};
    ghost use Rattle.lsm_codec.specs.Keys.{UserKey, UserLe};
    ghost use Rattle.std.specs.Prelude.{◌≢◌, false, true};

    /// Whether a key is not below the first one.
    fn is_from(&self, key: &[u8]) -> bool
        ensures { result ≡ is_from self.now.from key.now }
    {
        match &self.from {
            None => true,
            Some(from) => is_at_most(from.as_slice(), key),
        }
    }

    /// Whether a key is not above the last one.
    fn is_to(&self, key: &[u8]) -> bool
        ensures { result ≡ is_to self.now.to key.now }
    {
        match &self.to {
            None => true,
            Some(to) => is_at_most(key, to.as_slice()),
        }
    }

    /// Whether a key begins with the bytes that it is to begin with.
    fn begins_so(&self, key: &[u8]) -> bool
        ensures { result ≡ begins_so self.now.prefix key.now }
    {
        match &self.prefix {
            None => true,
            Some(prefix) => key.starts_with(prefix.as_slice()),
        }
    }

    /// Whether a key is the last one, or above it.
    fn has_reached(&self, key: &[u8]) -> bool
        ensures { result ≡ has_reached self.now.to key.now }
    {
        match &self.to {
            None => false,
            Some(to) => is_at_most(to.as_slice(), key),
        }
    }

    /// Whether a key is above all those that begin with these bytes.
    fn has_passed(&self, key: &[u8]) -> bool
        ensures { result ≡ has_passed self.now.prefix key.now }
    {
        match &self.prefix {
            None => false,
            Some(prefix) => !key.starts_with(prefix.as_slice())
                && is_at_most(prefix.as_slice(), key),
        }
    }

    /// Whether a key is within the bounds.
    pub fn is_within(&self, key: &[u8]) -> bool
        ensures { result ≡ is_within self.now key.now }
    {
        self.is_from(key) && self.is_to(key) && self.begins_so(key)
    }

    /// Whether the bounds end at a key: no greater one is within them.
    pub fn ends_at(&self, key: &[u8]) -> bool
        ensures ends { result ≡ ends_at self.now key.now }
        ensures none { result ≡ true → (later : UserKey) → UserLe key.now later → key.now ≢ later
            → is_within self.now later ≡ false }
    {
        self.has_reached(key) || self.has_passed(key)
    }
}
