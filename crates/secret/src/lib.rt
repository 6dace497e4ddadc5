// Handling secrets: comparing them, and wiping the memory that they are worked out in.
#![tactic(auto)]

mod compare;
mod work_area;

pub use compare::same;
pub use work_area::WorkArea;
