//! Rows printed as text: items that are printed alike, with a mark between them.
//! Literals and factors print their rows themselves, as their printers are in cycles of calls.

ghost use Rattle.std.specs.Prelude.{◌≡◌, List, string_bytes, OnOk};
ghost use Rattle.cv_readers.specs.Slots.{Slot, sep_slots};
ghost use Rattle.cv_writing.specs.Printing.{Adds};

use crate::writing::push_mark;
use cv_lex::Mark;
use cv_token::OutOfMemory;
use sqlite_items::Items;

/// What rows are made of: `spell` says which words are printed of it.
pub(crate) trait Printable: Sized + Drop {
    ghost spell: { Self → List Slot };

    /// The item, whatever its place.
    fn print(&self, out: &mut String) -> Result<(), OutOfMemory>
        ensures { OnOk result (Adds (string_bytes out.old) (string_bytes out.new) (spell self.now)) };
}

/// Items with this mark between them.
pub(crate) fn print_separated<T: Printable>(
    out: &mut String,
    mark: Mark,
    row: &Items<T>,
) -> Result<(), OutOfMemory>
    ensures { OnOk result (Adds (string_bytes out.old) (string_bytes out.new) (sep_slots mark T.spell row.now)) }
{
    let Some((first, rest)) = row.as_slice().split_first() else {
        return Ok(());
    };
    first.print(out)?;
    for next in rest {
        push_mark(out, mark)?;
        next.print(out)?;
    }
    Ok(())
}
