// The writer for a loop that keeps one record and lends it to each call. Each function here makes the by-value call on a copy of the record and
// stores the record that it hands back; on a refusal record and buffer are as they were. The contracts are the by-value definitions.
#![tactic(auto)]

ghost use Rattle.std.specs.Prelude.{◌≡◌};
ghost use Rattle.answers.specs.Refused.{outcome_number};
ghost use Rattle.writer.specs.Shapes.{wrote_of};

pub mod resume;
pub mod settings;
pub mod writing;

use answers::Refusal;
use writer::{CAFWriter, RefusedCall};

// Stores the record that a call handed back.
fn keep(w: &mut CAFWriter, answer: Result<CAFWriter, RefusedCall>) -> Result<(), Refusal>
    ensures number { outcome_number result ≡ (wrote_of answer).number }
    ensures writer { w.new ≡ (wrote_of answer).writer }
{
    match answer {
        Ok(writer) => {
            *w = writer;
            Ok(())
        }
        Err(refused) => {
            *w = refused.writer;
            Err(refused.refusal)
        }
    }
}
