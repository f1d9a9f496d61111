// What stays the same while a text is read.
ghost use Rattle.reading.specs.Few.{Few};

use tokens::lists::Lists;

// By what a text is read: in the second edition or in the first, and with which lists. There are few currencies, so that a
// currency's place fits a word.
#[derive(Clone, Copy)]
pub struct Language<'a> {
    pub two: bool,
    pub lists: Lists<'a>,
    ghost few: { Few lists.currencies.now },
}
