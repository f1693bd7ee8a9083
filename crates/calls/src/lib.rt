// The eight calls of an interlocking as values, their answers, and in specs/ the step rules: what each answers and leaves.
#![tactic(auto)]

mod values;

pub use values::{Answer, Call};
