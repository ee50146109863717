// The answer of a call on the record, and the array that keeps it.
ghost use Rattle.std.specs.Prelude.{◌≡◌};
ghost use Rattle.writer.specs.Shapes.{wrote_of};
ghost use Rattle.record_calls.specs.RecordCalls.{kept_after};

use answers::refusal::DONE;
use record_numbers::record_to_numbers::put_record;
use writer::{CAFWriter, RefusedCall};

// Puts the record into the array where the call was not refused.
pub fn keep(held: &mut [u64], wrote: Result<CAFWriter, RefusedCall>) -> u32
    ensures { (result ≡ (wrote_of wrote).number) × (held.new ≡ kept_after held.old (wrote_of wrote)) }
{
    match wrote {
        Ok(writer) => {
            put_record(held, writer);
            DONE
        }
        Err(refused) => refused.refusal.number(),
    }
}
