// The memory of a case, filled from the fields of a text.
ghost use Rattle.std.specs.Prelude.{◌≡◌, take};
ghost use Rattle.vectors.specs.Comparing.{size_of, lent_of};

use crate::fields::{digit, number, split_once};
use crate::trouble::Trouble;

// The room for the bytes of a script or a list, and for the words of the records or the directory: more than any case uses.
pub const ROOM: usize = 32768;

// What a line says, at the start of a room, or why it was not taken. Behind it stands what lines before it left, so that a call
// behind a line that was not taken is lent the whole room: a Vec, which ends at its length, would lose that.
#[derive(Clone, Copy)]
pub struct Memory<T> {
    room: [T; ROOM],
    size: Result<usize, Trouble>,
}

impl<T: Copy> Memory<T> {
    pub fn new(zero: T) -> Memory<T> {
        Memory {
            room: [zero; ROOM],
            size: Ok(0),
        }
    }

    pub fn clear(&mut self) {
        self.size = Ok(0);
    }

    pub fn size(&self) -> Result<usize, Trouble>
        ensures { result ≡ self.now.size }
    {
        self.size
    }

    fn lent_size(&self) -> usize
        ensures { result ≡ size_of self.now.size }
    {
        self.size.unwrap_or(ROOM).min(ROOM)
    }

    // What a call is lent.
    pub fn lent(&self) -> &[T]
        ensures { result.now ≡ lent_of self.now }
    {
        &self.room[..self.lent_size()]
    }

    pub fn lent_mut(&mut self) -> &mut [T] {
        let n = self.lent_size();
        let room = &mut self.room;
        &mut room[..n]
    }

    // Puts an item behind those that are there, unless there was trouble.
    fn push(&mut self, item: T) {
        if let Ok(n) = self.size {
            if n < ROOM {
                self.room[n] = item;
                self.size = Ok(n + 1);
            } else {
                self.size = Err(Trouble::NoRoom);
            }
        }
    }

    fn taken(&self) -> Result<(), Trouble> {
        self.size.map(|_| ())
    }
}

// What a run repeats, and how often: once, or the number behind its star.
fn repeated(run: &[u8]) -> Result<(&[u8], u32), Trouble> {
    match split_once(run, b'*') {
        Some((item, times)) => Ok((item, number(times, 10)?)),
        None => Ok((run, 1)),
    }
}

// The byte that two hex digits spell. They are told one by one, since most of a file is such pairs.
fn byte(pair: &[u8]) -> Option<u8> {
    let [high, low] = pair else {
        return None;
    };
    Some(digit(*high)? * 16 + digit(*low)?)
}

// The bytes that a line names, if it defines this name.
fn value_in<'a>(line: &'a [u8], name: &[u8]) -> Option<&'a [u8]> {
    let (defined, value) = split_once(line.strip_prefix(b"define ")?, b' ')?;
    (defined == name).then_some(value)
}

// The bytes that the first line to define a name gives it. Definitions stand at a file's start, so this is a short way and
// saves a table.
fn defined<'a>(file: &'a [u8], name: &[u8]) -> Option<&'a [u8]> {
    file.split(|b| *b == b'\n')
        .find_map(|line| value_in(line, name))
}

impl Memory<u8> {
    fn append_once(&mut self, digits: &[u8]) {
        for pair in digits.chunks(2) {
            match byte(pair) {
                Some(b) => self.push(b),
                None => self.size = Err(Trouble::Malformed),
            }
        }
    }

    fn append_run(&mut self, run: &[u8]) {
        match repeated(run) {
            Ok((digits, times)) if !digits.is_empty() => {
                for _ in 0..times {
                    self.append_once(digits);
                    if self.size.is_err() {
                        return;
                    }
                }
            }
            _ => self.size = Err(Trouble::Malformed),
        }
    }

    // Fills it with the bytes of a field, in a file that may define them. All runs are read, so that a field which is not in
    // the format is told as that, also where there is no room.
    pub fn load_bytes(&mut self, file: &[u8], field: &[u8]) -> Result<(), Trouble> {
        let value = match field.strip_prefix(b"@") {
            Some(name) => defined(file, name).unwrap_or(&[]),
            None => field,
        };
        self.clear();
        if value != b"-".as_slice() {
            for run in value.split(|b| *b == b',') {
                self.append_run(run);
            }
        }
        self.taken()
    }
}

impl Memory<u32> {
    // Puts a word as often as its run says. Where there is no room for that, it fills what is left.
    fn append_run(&mut self, run: &[u8]) -> Result<(), Trouble> {
        let (digits, times) = repeated(run)?;
        let word = number(digits, 16)?;
        let n = self.lent_size();
        let rest = &mut self.room[n..];
        let count = rest.len().min(times as usize);
        rest[..count].fill(word);
        if count < times as usize {
            return Err(Trouble::NoRoom);
        }
        self.size = Ok(n + count);
        Ok(())
    }

    // Fills it with the words of a field, up to the first run that is trouble.
    pub fn load_words(&mut self, field: &[u8]) -> Result<(), Trouble> {
        self.clear();
        if field == b"-".as_slice() {
            return Ok(());
        }
        for run in field.split(|b| *b == b',') {
            if let Err(trouble) = self.append_run(run) {
                self.size = Err(trouble);
                return Err(trouble);
            }
        }
        Ok(())
    }
}

// The first `n` bytes, or all where there are fewer.
pub fn front(s: &[u8], n: usize) -> &[u8]
    ensures { result.now ≡ take n s.now }
{
    s.get(..n).unwrap_or(s)
}
