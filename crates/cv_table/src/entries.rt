//! What the tables' entries show.

ghost use Rattle.std.specs.Prelude.{◌≡◌};
ghost use Rattle.std.specs.Option.{option_map};

/// The key of an entry.
pub fn key_of<K: Copy, V>(entry: Option<(&K, &V)>) -> Option<K>
    ensures { result ≡ option_map (λ e. e.0.now) entry.entry }
{
    match entry {
        Some((key, _value)) => Some(*key),
        None => None,
    }
}
