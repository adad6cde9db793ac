// Words of 32 bits in a row of bytes, the least significant byte first.
ghost use Rattle.std.specs.Prelude.{◌≡◌};
ghost use Rattle.words.specs.Words.{word_at, with_word};

// Word `i`, or 0 past the last.
#[tactic(auto, using(crate::proofs::Chunks::word_of_chunk, crate::proofs::Chunks::no_word))]
pub fn word(file: &[u8], i: u64) -> u32
    ensures { result ≡ word_at file.now i }
{
    let (words, _) = file.as_chunks::<4>();
    match words.get(i as usize) {
        Some(bytes) => u32::from_le_bytes(*bytes),
        None => 0,
    }
}

// Puts `w` in the place of word `i`, if there is such a word.
#[tactic(auto, using(crate::proofs::Chunks::word_put, crate::proofs::Chunks::nothing_put))]
pub fn put(file: &mut [u8], i: u64, w: u32)
    ensures { file.new ≡ with_word file.old i w }
{
    if i < file.len() as u64 / 4 {
        let at = 4 * i as usize;
        let bytes = w.to_le_bytes();
        file[at..at + 4].copy_from_slice(&bytes);
    }
}
