// The calls of the reading in blocks on the array that keeps its record.
#![tactic(auto, unfolding(crate::specs::FeederCalls::call_on, crate::specs::FeederCalls::passable_on, crate::specs::FeederCalls::end_on, crate::specs::FeederCalls::feeder_after))]

ghost use Rattle.std.specs.Prelude.{◌≡◌, length};
ghost use Rattle.answers.specs.Refused.{outcome_number};
ghost use Rattle.reading.specs.Shapes.{strict_of};
ghost use Rattle.feeder_numbers.specs.FeederNumbers.{feeder_places};
ghost use Rattle.feeder_calls.specs.FeederCalls.{begin_number, begin_record, feed_on, passable_on, pass_on, feeder_after, FeederCall, end_on};

use answers::Refusal;
use answers::refusal::{DONE, number_of};
use feeder::end::end;
use feeder_numbers::feeder_from_numbers::feeder_in;
use feeder_numbers::feeder_to_numbers::put_feeder;
use feeder_numbers::places::FEEDER;
use feeding::Fed;
use feeding::feed::{feed, fresh};
use feeding::pass::{pass, passable};
use reading::{AcceptedFile, RefusedFile};

pub fn begin_on(held: &mut [u64]) -> u32
    ensures { (result ≡ begin_number held.old) × (held.new ≡ begin_record held.old) }
{
    if held.len() != FEEDER {
        return Refusal::BadWriter.number();
    }
    put_feeder(held, fresh());
    DONE
}

// The next record takes the place of the last one, unless that was unsound.
fn keep_feeder(held: &mut [u64], fed: Fed) -> u32
    requires { length held.old ≡ feeder_places }
    ensures number { result ≡ outcome_number fed.outcome }
    ensures kept { held.new ≡ feeder_after held.old (record { number = outcome_number fed.outcome; feeder = fed.feeder }) }
{
    if fed.outcome != Err(Refusal::BadWriter) {
        put_feeder(held, fed.feeder);
    }
    number_of(fed.outcome)
}

pub fn feed_on(held: &mut [u64], block: &[u8]) -> u32
    ensures { FeederCall held.old (feed_on held.old block.now) result held.new }
{
    match feeder_in(held) {
        Some(feeder) => keep_feeder(held, feed(feeder, block)),
        None => Refusal::BadWriter.number(),
    }
}

pub fn passable_on(held: &[u64]) -> u64
    ensures { result ≡ passable_on held.now }
{
    match feeder_in(held) {
        Some(feeder) => passable(feeder) as u64,
        None => 0,
    }
}

pub fn pass_on(held: &mut [u64], n: u64) -> u32
    ensures { FeederCall held.old (pass_on held.old n) result held.new }
{
    match feeder_in(held) {
        Some(feeder) => keep_feeder(held, pass(feeder, n as usize)),
        None => Refusal::BadWriter.number(),
    }
}

pub fn end_on(held: &[u64]) -> Result<AcceptedFile, RefusedFile>
    ensures { strict_of result ≡ end_on held.now }
{
    match feeder_in(held) {
        Some(feeder) => end(feeder),
        None => Err(RefusedFile::new(Refusal::BadWriter, 0)),
    }
}
