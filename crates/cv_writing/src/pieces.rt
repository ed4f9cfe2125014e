//! The pieces of the text: a word with its space, and a text in quotes.

ghost use Rattle.std.specs.Prelude.{◌≡◌, ◌++◌, [], ◌∷◌, string_bytes, OnOk, encode_utf8, codes};
ghost use Rattle.cv_writing.specs.Written.{escaped, quoted};

use cv_token::OutOfMemory;

/// The space behind a word.
pub(crate) fn push_space(out: &mut String) -> Result<(), OutOfMemory>
    ensures { OnOk result (string_bytes out.new ≡ string_bytes out.old ++ codes " ") }
{
    out.push(' ')
}

/// A word as it stands, and the space behind it.
pub(crate) fn push_word(out: &mut String, word: &str) -> Result<(), OutOfMemory>
    ensures { OnOk result (string_bytes out.new ≡ string_bytes out.old ++ (word.now ++ codes " ")) }
{
    out.push_str(word)?;
    push_space(out)
}

/// A character of a text, behind a `\` if it is `"` or `\`.
#[tactic(auto, using(crate::proofs::Quotes::char_stays, crate::proofs::Quotes::quote_hides, crate::proofs::Quotes::backslash_hides))]
fn push_char(out: &mut String, ch: char) -> Result<(), OutOfMemory>
    ensures { OnOk result (string_bytes out.new ≡ string_bytes out.old ++ escaped (encode_utf8 ch)) }
{
    match ch {
        '"' => out.push_str("\\\""),
        '\\' => out.push_str("\\\\"),
        _ => out.push(ch),
    }
}

/// The characters of a text.
fn push_chars(out: &mut String, text: &str) -> Result<(), OutOfMemory>
    ensures { OnOk result (string_bytes out.new ≡ string_bytes out.old ++ escaped text.now) }
{
    for ch in text.chars() {
        push_char(out, ch)?;
    }
    Ok(())
}

/// A text in quotes.
pub(crate) fn push_quoted(out: &mut String, text: &str) -> Result<(), OutOfMemory>
    ensures { OnOk result (string_bytes out.new ≡ string_bytes out.old ++ quoted text.now) }
{
    out.push('"')?;
    push_chars(out, text)?;
    out.push('"')
}
