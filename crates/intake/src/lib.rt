// What a reading has so far: the working tables with the own name apart. A field is taken into them and the sizes judged; in the end they are
// written as a record.
#![tactic(auto)]

mod reading;
mod state;

pub use reading::Reading;
pub use state::State;
