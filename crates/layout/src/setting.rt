// Setting a layout: when it is refused, and how a record holds its labels.
ghost use Rattle.std.specs.Prelude.{◌≡◌, ◌≤◌, length, take};
ghost use Rattle.answers.specs.Refused.{outcome_number};
ghost use Rattle.layout.specs.Setting.{label_places, padded, tag_number, labels_number};

use crate::known::{all_known, known_tag};
use answers::Refusal;

// The places for labels in a record.
pub const LABEL_PLACES: usize = 64;

pub fn check_tag(tag: u32) -> Result<(), Refusal>
    ensures { outcome_number result ≡ tag_number tag }
{
    if known_tag(tag) {
        Ok(())
    } else {
        Err(Refusal::BadTag)
    }
}

// Too many are only those that would be kept; unknown ones are refused also where they would be dropped.
pub fn check_labels(labels: &[u32], channels: u32) -> Result<(), Refusal>
    ensures { outcome_number result ≡ labels_number labels.now channels }
{
    if LABEL_PLACES < labels.len() && labels.len() == channels as usize {
        return Err(Refusal::TooManyLabels);
    }
    if !all_known(labels) {
        return Err(Refusal::BadLabel);
    }
    Ok(())
}

fn zeros_after(labels: &[u32]) -> [u32; 64]
    requires { length labels.now ≤ 64 }
    ensures { result ≡ padded labels.now }
{
    let mut out = [0u32; 64];
    out[..labels.len()].copy_from_slice(labels);
    out
}

// The label array of a record. Labels that have no place are left out.
pub fn padded_labels(labels: &[u32]) -> [u32; 64]
    ensures { result ≡ padded (take label_places labels.now) }
{
    zeros_after(&labels[..LABEL_PLACES.min(labels.len())])
}
