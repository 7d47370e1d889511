// What a joining is.
ghost use Rattle.joining.specs.Semilattice.{Semilattice};
ghost use Rattle.std.specs.Prelude.{◌≡◌};

// A joining is a kind of proposal, freely copied, with one operation that joins any two values into one and never
// refuses: a join-semilattice, stated of what the values mean.
//
// Every value has a meaning, and the meaning of a join depends on the two meanings alone. The laws hold of the meanings,
// all of them, so a kind of one's own chooses as `Meaning` a type of which every element is the meaning of some value:
// the kind itself where the whole value counts, what is kept where a part of it does not, and where no plain type
// fits, a record that holds the fact which the meanings share.
pub trait Joining: Copy {
    ghost Meaning: { Type 0 };

    ghost meaning: { Self → Meaning };

    ghost joined: { Meaning → Meaning → Meaning };

    fn join(self, other: Self) -> Self
        ensures { meaning result ≡ joined (meaning self) (meaning other) };

    // Order does not matter, grouping does not matter, and a value joined with itself is itself.
    ghost laws: { Semilattice joined };
}
