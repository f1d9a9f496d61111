// Keywords, told by their bytes; signs, told by the number that their bytes make.
ghost use Rattle.std.specs.Prelude.{◌≡◌, ◌+◌, ◌*◌, length};
ghost use Rattle.tokens.specs.Keys.{key_of, keyword_by, known, pair_by, lone_by};

use crate::codes::{
    AND, ASSIGN, CLOSE_BRACKET, CLOSE_CURLY, CLOSE_PAREN, COMMA, DIVIDE, DIVIDE_ASSIGN, DOT, ELSE,
    END, EQUAL, FALSE, FOR, IF, IN, INFERIOR, INFERIOR_OR_EQUAL, MINUS, MINUS_ASSIGN, MULTIPLY,
    MULTIPLY_ASSIGN, NAME, NOT, NOT_EQUAL, ON, OPEN_BRACKET, OPEN_CURLY, OPEN_PAREN, OR, PAYS,
    PLUS, PLUS_ASSIGN, POWER, SEMICOLON, SUPERIOR, SUPERIOR_OR_EQUAL, THEN, TRUE,
};

// A part longer than this has no key.
const LONGEST_KEY: usize = 6;

// The bytes of a short part as one number, the first lowest, with a one above the last. 0 where the part is longer, since it
// cannot fail, which may not change, and no name has that key.
#[tactic(auto, unfolding(crate::specs::Keys::key_of), using(crate::proofs::KeyLaws::onto_all, crate::proofs::KeyLaws::onto_turn, crate::proofs::KeyLaws::onto_none, crate::proofs::KeyLaws::onto_room))]
pub fn key_of(w: &[u8]) -> u64
    ensures { result ≡ key_of w.now }
{
    if LONGEST_KEY < w.len() {
        return 0;
    }
    let mut k: u64 = 1;
    for &b in w.iter().rev() {
        k = k * 256 + b as u64;
    }
    k
}

// The key of two bytes. By it, and not by the bytes, the signs are promised (`Keys.pair_by`): what may not change.
pub fn pair_key(b: u8, next: u8) -> u32
    ensures { result ≡ b + 256 * (next + 256) }
{
    b as u32 + 256 * (next as u32 + 256)
}

// The code of the keyword that a word is; that of a name where it is none. The length tells first, and then the bytes, so that
// a word of another length is a name without a look at them.
#[tactic(auto, using(crate::proofs::WordLaws::spelled_words))]
pub fn keyword(w: &[u8]) -> u8
    ensures { result ≡ keyword_by (key_of w.now) }
{
    match w {
        b"if" => IF,
        b"or" => OR,
        b"on" => ON,
        b"in" => IN,
        b"and" => AND,
        b"for" => FOR,
        b"end" => END,
        b"not" => NOT,
        b"else" => ELSE,
        b"true" => TRUE,
        b"pays" => PAYS,
        b"then" => THEN,
        b"false" => FALSE,
        _ => NAME,
    }
}

// The code of the sign of two bytes that a key packs: promised by the key's number (`Keys.pair_by`), which may not change.
#[tactic(auto, unfolding(crate::specs::Computing::computing))]
pub fn pair_sign(key: u32) -> Option<u8>
    ensures { result ≡ known (pair_by key) }
{
    match key {
        0x1_3d_2b => Some(PLUS_ASSIGN),
        0x1_3d_2d => Some(MINUS_ASSIGN),
        0x1_3d_2a => Some(MULTIPLY_ASSIGN),
        0x1_3d_2f => Some(DIVIDE_ASSIGN),
        0x1_2a_2a => Some(POWER),
        0x1_3d_3d => Some(EQUAL),
        0x1_3d_21 => Some(NOT_EQUAL),
        0x1_3d_3e => Some(SUPERIOR_OR_EQUAL),
        0x1_3d_3c => Some(INFERIOR_OR_EQUAL),
        _ => None,
    }
}

// The code of the sign that is one byte.
#[tactic(auto, unfolding(crate::specs::Computing::computing))]
pub fn lone_sign(b: u8) -> Option<u8>
    ensures { result ≡ known (lone_by b) }
{
    match b {
        b'+' => Some(PLUS),
        b'-' => Some(MINUS),
        b'*' => Some(MULTIPLY),
        b'/' => Some(DIVIDE),
        b'>' => Some(SUPERIOR),
        b'<' => Some(INFERIOR),
        b'=' => Some(ASSIGN),
        b'(' => Some(OPEN_PAREN),
        b')' => Some(CLOSE_PAREN),
        b'{' => Some(OPEN_CURLY),
        b'}' => Some(CLOSE_CURLY),
        b'[' => Some(OPEN_BRACKET),
        b']' => Some(CLOSE_BRACKET),
        b',' => Some(COMMA),
        b'.' => Some(DOT),
        b';' => Some(SEMICOLON),
        _ => None,
    }
}
