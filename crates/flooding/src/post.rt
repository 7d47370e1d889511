// Posts: how many there can be.
ghost use Rattle.flooding.specs.Posts.{PostsAreBounded};

// At most n × n in a round, and n × n × k in k rounds.
#[tactic(auto, using(crate::proofs::Counting::posts_are_bounded_lem))]
pub fn posts_are_bounded()
    ensures { PostsAreBounded }
{}
