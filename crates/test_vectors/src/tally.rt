// Counting the lines that agree.
ghost use Rattle.std.specs.Prelude.{◌≡◌};
ghost use Rattle.test_vectors.specs.Count.{empty_of, count_of};

// Counts are kept modulo 2^64.
#[derive(Clone, Copy, PartialEq, Eq)]
pub struct Tally {
    pub lines: u64,
    pub agree: u64,
    // the number, from 1, of the first line that does not agree; 0 for none
    pub first: u64,
}

impl Tally {
    #[tactic(auto, unfolding(crate::specs::Count::empty_of))]
    pub fn empty() -> Self
        ensures { result ≡ empty_of }
    {
        Tally {
            lines: 0,
            agree: 0,
            first: 0,
        }
    }

    // One line more.
    #[tactic(auto, unfolding(crate::specs::Count::count_of))]
    pub fn count(self, agrees: bool) -> Self
        ensures { result ≡ count_of self agrees }
    {
        let lines = self.lines.wrapping_add(1);
        if agrees {
            return Tally {
                lines,
                agree: self.agree.wrapping_add(1),
                first: self.first,
            };
        }
        if self.first == 0 {
            return Tally {
                lines,
                agree: self.agree,
                first: lines,
            };
        }
        Tally {
            lines,
            agree: self.agree,
            first: self.first,
        }
    }
}
