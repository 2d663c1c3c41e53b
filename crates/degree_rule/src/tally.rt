// What is counted on the way: the largest degree cut and the visits, and beside them the caller's limit and the degree limit d, which stay.
ghost use Rattle.degree_rule.specs.Tallies.{Whole, Entered, Cuts};

#[derive(Clone, Copy, Debug, PartialEq, Eq)]
pub struct Tally {
    pub cut: u64,
    pub visits: u64,
    pub limit: u64,
    pub degree: u64,
}

impl Tally {
    // One more visit, where the limit allows it.
    pub fn enter(&mut self) -> bool
        requires { Whole self.old }
        ensures { Entered self.old result self.new }
    {
        if self.limit <= self.visits {
            return false;
        }
        self.visits += 1;
        true
    }

    // A degree was cut: it counts also where its branch is thrown away.
    pub fn cut_at(&mut self, degree: u64)
        requires { Whole self.old }
        ensures { Cuts self.old degree self.new }
    {
        self.cut = self.cut.max(degree);
    }
}
