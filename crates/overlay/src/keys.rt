//! Whether two lists are one set of keys: row ids, or marks. Nothing here takes memory.

ghost use Rattle.std.specs.Prelude.{◌≡◌};
ghost use Rattle.std.specs.List.{list_all};
ghost use Rattle.std.specs.List.Sorted.{IsSorted};
ghost use Rattle.overlay.specs.Keys.{has_key, same_keys};

/// Whether the stated keys are exactly the others. The others may be in any order and come more than once; they are
/// sorted here. With s keys stated and k others the time is that of sorting the others, and of s + k searches.
pub(crate) fn are_exactly<K: Ord + Copy>(stated: &[K], keys: &mut [K]) -> bool
    requires { IsSorted K.cmp stated.now }
    ensures { result ≡ same_keys K.cmp stated.now keys.old }
{
    keys.sort_unstable();
    are_same(stated, keys)
}

/// Whether two lists that do not fall are one set of keys.
fn are_same<K: Ord>(one: &[K], other: &[K]) -> bool
    requires one { IsSorted K.cmp one.now }
    requires other { IsSorted K.cmp other.now }
    ensures { result ≡ same_keys K.cmp one.now other.now }
{
    are_among(one, other) && are_among(other, one)
}

/// Whether each of the keys is among the others, which do not fall.
fn are_among<K: Ord>(keys: &[K], sorted: &[K]) -> bool
    requires { IsSorted K.cmp sorted.now }
    ensures { result ≡ list_all (has_key K.cmp sorted.now) keys.now }
{
    keys.iter().all(|key| is_among(key, sorted))
}

/// Whether the key is among these, which do not fall.
fn is_among<K: Ord>(key: &K, sorted: &[K]) -> bool
    requires { IsSorted K.cmp sorted.now }
    ensures { result ≡ has_key K.cmp sorted.now key.now }
{
    sorted.binary_search(key).is_ok()
}
