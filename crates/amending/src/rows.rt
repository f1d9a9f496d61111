// The entries of a directory in lent words.
ghost use Rattle.std.specs.Prelude.{◌≡◌, ◌+◌, ◌*◌, ◌≤◌, length};
ghost use Rattle.grammar.specs.Sizes.{entry_width};
ghost use Rattle.amending.specs.Grounds.{words_at};

use reading::rooms::ENTRY_WIDTH;

// The words of an entry.
#[derive(Clone, Copy)]
pub struct Row {
    pub start: usize,
    pub end: usize,
    pub records: usize,
    pub tokens: usize,
    pub latest: usize,
}

impl Row {
    // The entry of a number.
    pub fn at(directory: &[u32], number: usize) -> Row
        requires { entry_width * number + entry_width ≤ length directory.now }
        ensures { result ≡ words_at directory.now (entry_width * number) }
    {
        let at = ENTRY_WIDTH * number;
        Row {
            start: directory[at] as usize,
            end: directory[at + 1] as usize,
            records: directory[at + 2] as usize,
            tokens: directory[at + 3] as usize,
            latest: directory[at + 4] as usize,
        }
    }
}
