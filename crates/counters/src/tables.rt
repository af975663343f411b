// A job with the tables that its evaluation makes and then reads. The contracts cite specs/Positions.
ghost use Rattle.std.specs.Prelude.{◌≡◌, ◌+◌, ◌-◌, ◌<◌, get_or, take, drop};
ghost use Rattle.job.specs.Accepted.{WellFormed};
ghost use Rattle.counters.specs.Positions.{keys, Placed};

use job::Job;

// Where the places of each key start, and the rules of its positions there.
#[derive(Clone, Copy)]
pub struct Tables<'a> {
    pub job: &'a Job<'a>,
    pub start: &'a [u16],
    pub occ: &'a [u16],
    ghost accepted: { WellFormed job.now },
    ghost placed: { Placed job.now start.now occ.now },
}

impl<'a> Tables<'a> {
    // The rules of the positions that have the key.
    pub fn rules_of(&self, key: usize) -> &'a [u16]
        requires { key < keys self.now.job.now }
        ensures { result.now ≡ take (get_or self.now.start.now (key + 1) 0 - get_or self.now.start.now key 0) (drop (get_or self.now.start.now key 0) self.now.occ.now) }
    {
        let from = usize::from(self.start[key]);
        let end = usize::from(self.start[key + 1]);
        &self.occ[from..end]
    }
}
