// Places of an array that hold 32 bits.
ghost use Rattle.std.specs.Prelude.{◌≡◌};
ghost use Rattle.numbers.specs.Words.{at, low, all_words};

// The numbers from here on do not fit 32 bits.
pub const WORDS: u64 = 0x1_0000_0000;

// The number at a place, and 0 after the last one.
pub fn number_at(numbers: &[u64], place: usize) -> u64
    ensures { result ≡ at numbers.now place }
{
    numbers.get(place).copied().unwrap_or(0)
}

pub fn word_at(numbers: &[u64], place: usize) -> u32
    ensures { result ≡ low numbers.now place }
{
    (number_at(numbers, place) % WORDS) as u32
}

// Whether all are words. Their bits are gathered and tested once: without a way out the loop goes by vectors.
pub fn words(numbers: &[u64]) -> bool
    ensures { result ≡ all_words numbers.now }
{
    let mut bits: u64 = 0;
    for number in numbers {
        bits |= number;
    }
    bits < WORDS
}
