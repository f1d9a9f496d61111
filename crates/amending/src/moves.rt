// Parts of lent memory are moved, cleared and replaced in place. Each contract says what every element is afterwards.
ghost use Rattle.std.specs.Prelude.{◌≡◌, ◌+◌, ◌≤◌, length};
ghost use Rattle.std.proofs.Math.Seq.{paste};
ghost use Rattle.amending.specs.Moves.{used_after, resized, spliced};

use std::ops::Range;

// Makes a part of the first `used` elements k elements long: those behind it move to where it ends then, and the room that they
// leave is filled with `zero`. A part that keeps its length moves nothing. Returns how many elements are then in use.
#[tactic(auto, using(crate::proofs::MoveLaws::kept, crate::proofs::MoveLaws::grown))]
pub fn resize<T: Copy>(s: &mut [T], used: usize, part: Range<usize>, k: usize, zero: T) -> usize
    requires room { (part.start ≤ part.end) × (part.end ≤ used) × (used ≤ length s.old) × (used_after used part.start part.end k ≤ length s.old) }
    requires copies { T.is_infallible zero × ((y : T) → T.is_clone zero y → y ≡ zero) }
    ensures { (result ≡ used_after used part.start part.end k) × (s.new ≡ resized zero s.old used part.start part.end k) }
{
    let at = part.start + k;
    let end = at + (used - part.end);
    if at == part.end {
        return end;
    }
    s.copy_within(part.end..used, at);
    if end < used {
        s[end..used].fill(zero);
    }
    end
}

// Copies a text over the bytes from a place on. A loop, and no `copy_from_slice`, which becomes a call of `memmove`: whoever
// links the archive would have to bring that.
fn copy_into(script: &mut [u8], at: usize, text: &[u8])
    requires { at + length text.now ≤ length script.old }
    ensures { script.new ≡ paste script.old at text.now (length text.now) }
{
    for (i, &b) in text.iter().enumerate() {
        script[at + i] = b;
    }
}

// Replaces a part of the first `used` bytes by `text`, and zeroes the room that is freed. Returns how many bytes are then in
// use.
pub fn replace_bytes(script: &mut [u8], used: usize, part: Range<usize>, text: &[u8]) -> usize
    requires { (part.start ≤ part.end) × (part.end ≤ used) × (used ≤ length script.old) × (used_after used part.start part.end (length text.now) ≤ length script.old) }
    ensures { (result ≡ used_after used part.start part.end (length text.now)) × (script.new ≡ spliced script.old used part.start part.end text.now) }
{
    let from = part.start;
    let end = resize(script, used, part, text.len(), 0);
    copy_into(script, from, text);
    end
}
