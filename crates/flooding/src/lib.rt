// The theory of the start: flooding over any failure pattern, and joins over any set of consoles. Each function here
// carries a theorem: it computes nothing, and its contract is the statement, which the check proves.
#![tactic(auto)]

mod heard;
mod legal;
mod post;
mod survivors;
mod tree;
mod worked;

pub use heard::{
    heard_sets_grow, heard_sets_name_the_ring, quiet_ring_hears_all, survivors_are_heard,
    value_is_join_over_heard,
};
pub use legal::{round_is_legal, rounds_are_legal};
pub use post::posts_are_bounded;
pub use survivors::{one_quiet_round_is_enough, some_round_loses_nobody, survivors_agree};
pub use tree::{every_set_has_a_tree, order_grouping_and_repetition_do_not_matter};
pub use worked::{join_cards, worked_rings};
