// The lines of a file, one after the other.
use crate::case::Case;
use crate::comparing::{agrees, compare_script, compare_words};
use crate::fields::{first_field, number, numbers};
use crate::kinds::{Kind, Left};
use crate::lookups::take_part;
use crate::memory::Memory;
use crate::report::{say_answer, say_trouble};
use crate::tally::{Tally, count};
use crate::trouble::Trouble;
use amending::held::Held;
use reading::reading::Answer;
use std::io::Stdout;

impl<'a> Case<'a> {
    fn take_lists(&mut self, fields: &[u8]) -> Result<(), Trouble> {
        let (reserved, fields) = first_field(fields);
        let (currencies, counters) = first_field(fields);
        let reserved = self.names.reserved.load_bytes(self.file, reserved);
        let currencies = self.names.currencies.load_bytes(self.file, currencies);
        let counters = self.names.counters.load_bytes(self.file, counters);
        reserved.and(currencies).and(counters)
    }

    fn take_counts(&mut self, fields: &[u8]) -> Result<(), Trouble> {
        let [bytes, statements, records, tokens, latest, edition] = numbers::<6>(fields)?;
        self.held = Held {
            bytes: bytes as usize,
            statements: statements as usize,
            records: records as usize,
            tokens: tokens as usize,
            latest: latest as usize,
            edition,
        };
        Ok(())
    }

    // What spells no number names the edition 0, which there is not.
    fn take_edition(&mut self, field: &[u8]) -> Result<(), Trouble> {
        let named = number(field, 10);
        self.edition = named.unwrap_or(0);
        named.map(|_| ())
    }

    // Takes a line that says what the first call is lent.
    fn take_memory(&mut self, what: Left, field: &[u8]) -> Result<(), Trouble> {
        match what {
            Left::Script => self.slices.script.load_bytes(self.file, field),
            Left::Records => self.slices.records.load_words(field),
            Left::Directory => self.slices.directory.load_words(field),
            Left::Same => Ok(()),
        }
    }

    // Compares memory with what a line says that the call before must have left. `changed` is whether that changed any.
    fn compare_left(&self, what: Left, field: &[u8], changed: bool) -> Result<(), Trouble> {
        match what {
            Left::Script => compare_script(self.out, self.file, field, &self.slices.script),
            Left::Records => compare_words(self.out, field, &self.slices.records),
            Left::Directory => compare_words(self.out, field, &self.slices.directory),
            Left::Same if changed => Err(Trouble::Differs),
            Left::Same => Ok(()),
        }
    }

    // Compares what a call gave with the stored answer.
    fn compare_answer(
        &self,
        stored: &[u8],
        given: Answer,
        tally: &mut Tally,
    ) -> Result<(), Trouble> {
        let stored = numbers(stored)?;
        let answered = tally
            .grounds
            .get_mut(stored[0] as usize)
            .ok_or(Trouble::Malformed)?;
        count(&mut answered.ran);
        if agrees(&stored, given) {
            return Ok(());
        }
        count(&mut answered.differ);
        say_answer(self.out, given);
        Err(Trouble::Differs)
    }

    // Runs an amend with the statement and the text of a line. Where they are not in the format, it is run all the same, with a
    // statement that no script has or the whole room; but its answer is not compared.
    fn take_amend(&mut self, fields: &[u8], tally: &mut Tally) -> Result<(), Trouble> {
        let (statement, fields) = first_field(fields);
        let (text, answer) = first_field(fields);
        let statement = number(statement, 10);
        let mut lent = Memory::new(0);
        let loaded = lent.load_bytes(self.file, text);
        let given = self.amend(statement.map_or(usize::MAX, |n| n as usize), lent.lent());
        statement?;
        loaded?;
        self.compare_answer(answer, given, tally)
    }

    // Takes the fields of a line.
    fn take(&mut self, kind: Kind, fields: &'a [u8], tally: &mut Tally) -> Result<(), Trouble> {
        match kind {
            Kind::Nothing => {}
            Kind::Case => {
                count(&mut tally.cases);
                self.begin(fields);
            }
            Kind::Lists => self.take_lists(fields)?,
            Kind::Left(what) => match self.changed {
                None => self.take_memory(what, fields)?,
                Some(changed) => {
                    count(&mut tally.compared);
                    self.compare_left(what, fields, changed)?;
                }
            },
            Kind::Counts => self.take_counts(fields)?,
            Kind::Edition => self.take_edition(fields)?,
            Kind::Read => {
                count(&mut tally.reads);
                let given = self.read();
                self.compare_answer(fields, given, tally)?;
            }
            Kind::Amend => {
                count(&mut tally.amends);
                self.take_amend(fields, tally)?;
            }
            Kind::Part => {
                count(&mut tally.parts);
                take_part(self, fields)?;
            }
        }
        Ok(())
    }

    // Takes a line. An empty one and a comment mean nothing.
    fn take_line(&mut self, line: &'a [u8], tally: &mut Tally) -> Result<(), Trouble> {
        if line.is_empty() || line.starts_with(b"#") {
            return Ok(());
        }
        let (word, fields) = first_field(line);
        self.take(Kind::try_from(word)?, fields, tally)
    }
}

// Replays the lines of a file, and tells of each that differs or was not taken, so that nothing is passed over.
pub fn replay(out: Stdout, path: &[u8], file: &[u8], tally: &mut Tally) {
    let mut case = Case::new(out, file);
    for line in file.split(|b| *b == b'\n') {
        if let Err(trouble) = case.take_line(line, tally) {
            tally.count_trouble(trouble);
            say_trouble(out, path, case.text, line, trouble);
        }
    }
}
