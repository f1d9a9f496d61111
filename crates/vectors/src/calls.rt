// Reads and amends, run on the memory of a case.
ghost use Rattle.std.specs.Prelude.{◌≡◌, not, Some};
ghost use Rattle.amending.specs.States.{held_of};
ghost use Rattle.vectors.specs.Comparing.{slices_same};

use crate::case::{Case, Slices};
use amending::amending::amend;
use amending::held::Held;
use amending::memory::Memory;
use reading::reading::{Answer, read};

impl<'a> Case<'a> {
    // What a call changed is known to the lines that follow, and its counts, latest date and edition are those that an amend
    // behind it is lent.
    fn note(&mut self, before: &Slices, given: Answer)
        ensures noted { self.new.changed ≡ Some (not (slices_same self.old.slices before.now)) }
        ensures held { self.new.held ≡ held_of given }
        ensures kept { self.new.slices ≡ self.old.slices }
    {
        self.changed = Some(!self.slices.are_same(before));
        self.held = Held::from(given);
    }

    pub fn read(&mut self) -> Answer
        ensures noted { self.new.changed ≡ Some (not (slices_same self.new.slices self.old.slices)) }
        ensures held { self.new.held ≡ held_of result }
    {
        let before = self.slices;
        let given = read(
            self.slices.script.lent(),
            self.edition,
            &self.names.lent(),
            self.slices.records.lent_mut(),
            self.slices.directory.lent_mut(),
        );
        self.note(&before, given);
        given
    }

    pub fn amend(&mut self, statement: usize, text: &[u8]) -> Answer
        ensures noted { self.new.changed ≡ Some (not (slices_same self.new.slices self.old.slices)) }
        ensures held { self.new.held ≡ held_of result }
    {
        let before = self.slices;
        let mut memory = Memory {
            script: self.slices.script.lent_mut(),
            records: self.slices.records.lent_mut(),
            directory: self.slices.directory.lent_mut(),
        };
        let given = amend(&mut memory, self.held, statement, text, &self.names.lent());
        self.note(&before, given);
        given
    }
}
