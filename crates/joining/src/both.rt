// Two joinings side by side.
ghost use Rattle.std.proofs.Common.{rules};
ghost use Rattle.std.specs.Prelude.{◌≡◌};

use crate::kind::Joining;

// Each side is joined by itself.
#[derive(Clone, Copy, PartialEq, Eq, Debug)]
pub struct Both<A, B> {
    pub left: A,
    pub right: B,
}

impl<A: Joining, B: Joining> Joining for Both<A, B> {
    ghost Meaning = { A.Joining.Meaning × B.Joining.Meaning };

    ghost meaning = { λ b. (A.Joining.meaning b.left, B.Joining.meaning b.right) };

    ghost joined = { λ x y. (A.Joining.joined x.0 y.0, B.Joining.joined x.1 y.1) };

    ghost laws = { Prim.search rules };

    fn join(self, other: Both<A, B>) -> Both<A, B> {
        Both {
            left: self.left.join(other.left),
            right: self.right.join(other.right),
        }
    }
}
