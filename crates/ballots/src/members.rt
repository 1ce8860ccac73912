// The members of a set, one by one.
ghost use Rattle.std.specs.Prelude.{◌≡◌};
ghost use Rattle.std.specs.Iterator.{YieldsFirst, item_count};
ghost use Rattle.ballots.specs.Sets.{holds, room, members};
ghost use Rattle.ballots.specs.Members.{members_left};

use crate::CandidateSet;

// The members of a set that are still to come.
#[derive(Clone, Drop)]
pub struct Members {
    left: CandidateSet,
}

impl CandidateSet {
    // The members, the smallest first.
    pub fn iter(self) -> Members
        ensures { members_left result ≡ members (holds self) room }
    {
        Members { left: self }
    }
}

impl Iterator for Members {
    type Item = usize;

    ghost next_gives = { YieldsFirst members_left };

    ghost remaining = { item_count members_left };

    fn next(&mut self) -> Option<usize> {
        let first = self.left.first()?;
        self.left.remove(first);
        Some(first)
    }
}
