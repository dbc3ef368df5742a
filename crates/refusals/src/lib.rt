//! Wrong answers that contracts of the crates below refuse, as clauses of functions that do nothing, or that make one call.
#![tactic(auto)]

mod batch;
mod evicting;
mod keys;
mod plain;
mod script;
mod steps;
mod table;
mod walks;
mod words;

pub use batch::batch_refusals;
pub use evicting::evicting_refusals;
pub use keys::key_refusals;
pub use plain::plain_refusals;
pub use script::{
    call_where_cpu_0_copies, fault_before_a_phase, fault_of_third_line, name_of_lru_percpu,
    script_of_few_phases, second_generator_line, text_in_three_phases, update_under_any,
};
pub use steps::{enabled_step, refused_step, settled_element, step_refusals};
pub use table::table_refusals;
pub use walks::walk_refusals;
pub use words::{
    copied_finals, copied_push, has_set_beside_shared, home_of_48, number_of_set, round_from_1,
    share_of_first,
};
