//! What was used last.

use lru::LruCache;
use std::hash::Hash;

/// Holds the value under the key, unless a growth is refused.
pub(crate) fn keep<K: Eq + Hash + Drop, V: Drop>(cache: &mut LruCache<K, V>, key: K, value: V) {
    let _ = cache.put(key, value);
}
