// The check of a block: a running sum over its content, kept in its last word.
ghost use Rattle.std.specs.Prelude.{◌≡◌};
ghost use Rattle.words.specs.Check.{rotated, taken, check, sealed, start_of, word_in, sealed_in};

use crate::word::{put, word};

// Rotated left by one bit: a helper of our own, which document 01 asks for, and not `rotate_left`.
fn rotated(x: u32) -> u32
    ensures { result ≡ rotated x }
{
    x % 2_147_483_648 * 2 + x / 2_147_483_648
}

// The sum with one more word: the carry out of 32 bits is dropped.
fn taken(sum: u32, word: u32) -> u32
    ensures { result ≡ taken sum word }
{
    rotated(sum).wrapping_add(word)
}

// Where the sum of the block with this number starts.
pub fn start_of(block: u32) -> u32
    ensures { result ≡ start_of block }
{
    block.wrapping_add(1)
}

// The running sum over the content of a file's block. By number, since words past the file's end are 0 in the sum too.
pub fn check(start: u32, file: &[u8], block: u32) -> u32
    ensures { result ≡ check start (word_in file.now block) }
{
    let from = 128 * u64::from(block);
    (0..127).map(|i| word(file, from + i)).fold(start, taken)
}

// Whether the block's last word is its check.
pub fn sealed(start: u32, file: &[u8], block: u32) -> bool
    ensures { result ≡ sealed start (word_in file.now block) }
{
    word(file, 128 * u64::from(block) + 127) == check(start, file, block)
}

// Puts the check into the block's last word.
pub fn seal(start: u32, file: &mut [u8], block: u32)
    ensures { file.new ≡ sealed_in start file.old block }
{
    let sum = check(start, file, block);
    put(file, 128 * u64::from(block) + 127, sum);
}
