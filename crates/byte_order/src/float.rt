// A rate and its 64 bits. Not-a-number is refused both ways: its patterns are many, and nothing says which one is kept.
ghost use Rattle.std.specs.Prelude.{◌≡◌};
ghost use Rattle.byte_order.specs.Rate.{not_aNumber};
ghost use Rattle.byte_order.specs.RateAnswers.{rate_from, bits_from};

// The largest pattern without its sign that is a number: infinity.
const INFINITY: u64 = 0x7FF0_0000_0000_0000;

const SIGN: u64 = 0x8000_0000_0000_0000;

pub fn rate_from_bits(bits: u64) -> Option<f64>
    ensures { result ≡ rate_from bits }
{
    if INFINITY < bits % SIGN {
        return None;
    }
    Some(f64::from_bits(bits))
}

// Only a not-a-number differs from itself.
pub fn is_not_a_number(rate: f64) -> bool
    ensures { result ≡ not_aNumber rate }
{
    rate != rate
}

pub fn rate_to_bits(rate: f64) -> Option<u64>
    ensures { result ≡ bits_from rate }
{
    if is_not_a_number(rate) {
        return None;
    }
    Some(f64::to_bits(rate))
}
