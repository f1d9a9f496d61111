// The places in a directory's entries are moved in place, when a statement before them gets another length.
ghost use Rattle.std.specs.Prelude.{◌≡◌};
ghost use Rattle.amending.specs.Entries.{moved_place, shifted};

use reading::rooms::ENTRY_WIDTH;

fn moved_place(w: u32, old: u32, new: u32) -> u32
    ensures { result ≡ moved_place old new w }
{
    w.checked_sub(old)
        .and_then(|past| past.checked_add(new))
        .unwrap_or(w)
}

// Moves the starts and ends of the entries from number `from` up to, not including, number `to` as far as `new` is from `old`;
// their other words stay. Where the directory has not so many entries, or they stay where they are, nothing changes.
#[tactic(auto, using(crate::proofs::ShiftLaws::shift_none, crate::proofs::ShiftLaws::shift_same))]
pub fn shift_entries(directory: &mut [u32], from: usize, to: usize, old: u32, new: u32)
    ensures { directory.new ≡ shifted directory.old from to old new }
{
    if directory.len() / ENTRY_WIDTH < to {
        return;
    }
    if old == new {
        return;
    }
    for number in from..to {
        let at = ENTRY_WIDTH * number;
        directory[at] = moved_place(directory[at], old, new);
        directory[at + 1] = moved_place(directory[at + 1], old, new);
    }
}
