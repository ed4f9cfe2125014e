//! Options: `--nodes N` and `--firings N`, each also as `--NAME=VALUE`.

ghost use Rattle.std.specs.Prelude.{◌≡◌, None, Some, map, option_map, string_bytes, IfNone, IfSome};
ghost use Rattle.cv_words.specs.Asked.{firings_word, nodes_word, option_in, setting_of};
ghost use Rattle.cv_words.specs.declared.options.Setting.TheVariants.{Nodes, Firings};
ghost use Rattle.cv_words.specs.Runs.{IsSetting};

use crate::items::place_of;
use crate::numbers::read_within;

/// The most firings that words may ask for.
const MOST_FIRINGS: u32 = 100_000;

/// The most nodes that words may ask for.
const MOST_NODES: u32 = 16;

/// What an option sets.
#[derive(Debug, Clone, Copy, PartialEq, Eq)]
pub enum Setting {
    /// How many nodes run.
    Nodes(u16),
    /// How many firings they make at most.
    Firings(u32),
}

/// The option in front of the words, with the words behind it; None exactly where none stands there.
pub fn read_option(words: &[String]) -> Option<(Setting, &[String])>
    ensures some { IfSome result (λ found. option_in (map string_bytes words.now) ≡ Some (found.0, map string_bytes found.1.now)) }
    ensures none { IfNone result (option_in (map string_bytes words.now) ≡ None) }
    ensures within { IfSome result (λ found. IsSetting found.0) }
{
    let [word, rest @ ..] = words else {
        return None
    };
    let bytes = word.as_bytes();
    if let Some(at) = place_of(b'=', bytes) {
        let setting = read_setting(&bytes[..at], &bytes[at + 1..])?;
        return Some((setting, rest));
    }
    let [value, behind @ ..] = rest else {
        return None
    };
    let setting = read_setting(bytes, value.as_bytes())?;
    Some((setting, behind))
}

/// What an option of this name sets.
fn read_setting(name: &[u8], value: &[u8]) -> Option<Setting>
    ensures setting { result ≡ setting_of name.now value.now }
    ensures within { IfSome result IsSetting }
{
    if name == b"--nodes".as_slice() {
        read_nodes(value)
    } else if name == b"--firings".as_slice() {
        read_firings(value)
    } else {
        None
    }
}

/// How many nodes a word asks for.
fn read_nodes(word: &[u8]) -> Option<Setting>
    ensures setting { result ≡ option_map Nodes (nodes_word word.now) }
    ensures within { IfSome result IsSetting }
{
    let nodes = read_within(word, 1, MOST_NODES)?;
    Some(Setting::Nodes(nodes as u16))
}

/// How many firings a word asks for.
fn read_firings(word: &[u8]) -> Option<Setting>
    ensures setting { result ≡ option_map Firings (firings_word word.now) }
    ensures within { IfSome result IsSetting }
{
    let firings = read_within(word, 0, MOST_FIRINGS)?;
    Some(Setting::Firings(firings))
}
