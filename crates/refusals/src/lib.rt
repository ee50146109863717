// When a record is sound, and which number refuses a call, by the parts of the record: whoever keeps one in another form asks the same
// questions. The definitions stand in specs/.
#![tactic(auto)]

pub mod of_format;
pub mod of_layout;
pub mod places;
pub mod room;
pub mod standing;
