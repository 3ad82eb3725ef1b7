//! A tree of revisions: what one of them is, and its next event.
ghost use Rattle.std.specs.Prelude.{◌≡◌, true, false};
ghost use Rattle.thread_cases.specs.Tree.{root, child_of, after_fork, strayed, joinee};
ghost use Rattle.thread_cases.specs.Tree.{goes_on, is_early, next_round, outlived};
ghost use Rattle.thread_cases.specs.Tree.{joined, ended, second_child};

/// What the leaves and the other revisions of a tree do.
#[derive(Clone, Copy, PartialEq, Eq, Debug)]
pub enum Way {
    /// Each joins both its children.
    Adds,
    /// Each joins its first child twice.
    Again,
    /// The leaves end by a trap, which no joiner outlives.
    Traps,
    /// The leaves end by a trap, and each joiner outlives that.
    Tries,
    /// In each round the first revision forks a leaf and joins it.
    Rounds,
    /// The same, and behind that join it forks another leaf. It joins that in the next round,
    /// behind the fork of the next such leaf, and so it never joins the last.
    Strays,
    /// The first revision forks one that goes by `Rounds` and one that goes by `Strays`, each with
    /// as many rounds, and joins both.
    Pairs,
    /// The first revision forks a leaf and one that goes by `Rounds`, and joins the leaf twice.
    Beside,
}

/// How far a revision is.
#[derive(Clone, Copy, PartialEq, Eq, Debug)]
pub enum Stage {
    /// It is about to fork its first child, or is a leaf.
    Begins,
    /// It is about to fork its second.
    Forked,
    /// It is about to join its first child.
    JoinsFirst,
    /// It is about to join its second, or its first once more, or the one that strays.
    JoinsSecond,
    /// It is behind a round, and is about to fork, or to end behind the last.
    Between,
    /// It is about to end.
    Ends,
    /// It has ended.
    Over,
}

/// A revision with so many generations below it, or so many rounds before it. It counts its forks,
/// and the leaves that it took in, up to 2^32 - 1.
#[derive(Clone, Copy, PartialEq, Eq, Debug)]
pub struct Node {
    pub way: Way,
    pub depth: u32,
    pub stage: Stage,
    pub first: u32,
    pub second: u32,
    pub forks: u32,
    pub leaves: u32,
    pub trapped: bool,
    pub by_join: bool,
}

impl Node {
    /// The first revision of a tree.
    pub fn root(way: Way, depth: u32) -> Node
        ensures { result ≡ root way depth }
    {
        Node {
            way,
            depth,
            stage: Stage::Begins,
            first: 0,
            second: 0,
            forks: 0,
            leaves: 0,
            trapped: false,
            by_join: false,
        }
    }

    // What it forks behind its first child.
    fn second_child(self) -> Node
        ensures { result ≡ second_child self.way self }
    {
        match self.way {
            Way::Adds | Way::Again | Way::Traps | Way::Tries => {
                Node::root(self.way, self.depth.saturating_sub(1))
            },
            Way::Rounds | Way::Strays => Node::root(self.way, 0),
            Way::Pairs => Node::root(Way::Strays, self.depth),
            Way::Beside => Node::root(Way::Rounds, self.depth),
        }
    }

    /// What it forks.
    pub fn child(self) -> Node
        ensures { result ≡ child_of self }
    {
        if self.stage == Stage::Forked {
            return self.second_child();
        }
        match self.way {
            Way::Adds | Way::Again | Way::Traps | Way::Tries => {
                Node::root(self.way, self.depth.saturating_sub(1))
            },
            Way::Rounds | Way::Strays | Way::Beside => Node::root(self.way, 0),
            Way::Pairs => Node::root(Way::Rounds, self.depth),
        }
    }

    // Behind a round.
    fn next_round(self) -> Node
        ensures { result ≡ next_round self }
    {
        Node {
            depth: self.depth.saturating_sub(1),
            stage: Stage::Between,
            ..self
        }
    }

    // Once it knows the number of a leaf that strays. That takes the place of the one before, which
    // it joins next, where there is one.
    fn strayed(self, number: u32) -> Node
        ensures is { result ≡ strayed self number }
        ensures goes { goes_on result.stage ≡ true }
    {
        let next = Node {
            first: self.second,
            second: number,
            ..self
        };
        if self.second == 0 {
            return next.next_round();
        }
        Node {
            stage: Stage::JoinsSecond,
            ..next
        }
    }

    /// Once it knows its child's number.
    pub fn told(self, number: u32) -> Node
        ensures is { result ≡ after_fork self number }
        ensures goes { is_early self.stage ≡ true → goes_on result.stage ≡ true }
    {
        let forked = Node {
            forks: self.forks.saturating_add(1),
            ..self
        };
        match (self.stage, self.way) {
            (Stage::Begins | Stage::Between, Way::Rounds | Way::Strays) => Node {
                first: number,
                stage: Stage::JoinsFirst,
                ..forked
            },
            (Stage::Begins | Stage::Between, _) => Node {
                first: number,
                stage: Stage::Forked,
                ..forked
            },
            (Stage::Forked, Way::Strays) => forked.strayed(number),
            (Stage::Forked, _) => Node {
                second: number,
                stage: Stage::JoinsFirst,
                ..forked
            },
            _ => self,
        }
    }

    /// Once it has outlived the trap of its joinee.
    pub fn outlived(self) -> Node
        ensures is { result ≡ outlived self }
        ensures goes { goes_on result.stage ≡ true }
    {
        let stage = match (self.stage, self.way) {
            (Stage::JoinsFirst, Way::Strays) => Stage::Forked,
            (_, Way::Rounds | Way::Strays) => return self.next_round(),
            (Stage::JoinsFirst, _) => Stage::JoinsSecond,
            _ => Stage::Ends,
        };
        Node { stage, ..self }
    }

    /// Once it has taken in such an end.
    pub fn joined(self, end: Node) -> Node
        ensures is { result ≡ joined self end }
        ensures goes { end.trapped ≡ false → goes_on result.stage ≡ true }
    {
        if !end.trapped {
            return Node {
                leaves: self.leaves.saturating_add(end.leaves),
                ..self.outlived()
            };
        }
        if self.way == Way::Tries {
            return self.outlived();
        }
        Node {
            trapped: true,
            by_join: true,
            stage: Stage::Over,
            ..self
        }
    }

    /// Once it has ended by a leg.
    pub fn ended(self) -> Node
        ensures { result ≡ ended self }
    {
        if self.stage != Stage::Begins {
            return Node {
                stage: Stage::Over,
                by_join: false,
                ..self
            };
        }
        Node {
            leaves: 1,
            trapped: self.way == Way::Traps || self.way == Way::Tries,
            stage: Stage::Over,
            by_join: false,
            ..self
        }
    }
}

impl Node {
    /// The number that it joins.
    pub fn joinee(self) -> u32
        ensures { result ≡ joinee self }
    {
        match (self.stage, self.way) {
            (Stage::JoinsSecond, Way::Adds | Way::Traps | Way::Tries | Way::Pairs) => self.second,
            _ => self.first,
        }
    }
}
