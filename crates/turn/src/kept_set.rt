// The set that a run keeps from turn to turn: what one claim reaches, with its members in the order in which they were gathered, and the claim of it that was
// to move on when that was last looked for. The contracts cite specs/KeptSet.
ghost use Rattle.std.specs.Prelude.{◌≡◌, not, List, ℕ, ◌+◌, ◌≤◌, ◌<◌, T, None, Some, length, get_or};
ghost use Rattle.job.specs.Job.{Job as Terms, most_claims, most_workers};
ghost use Rattle.job.specs.Format.{claims, job_of};
ghost use Rattle.table.specs.Layout.{fresh};
ghost use Rattle.turn.specs.Ready.{Ready};
ghost use Rattle.turn.specs.Gather.{Gathered};
ghost use Rattle.turn.specs.KeptSet.{SameRoom, Member, held, Keeps, Lacking, Places, OwnsAll, Marked};

use crate::{HeldSet, Kept, gather, marks, remaining};
use job::{ClaimIndex, Job};

impl Kept {
    // Nothing.
    pub fn nothing() -> Kept
        ensures { result ≡ record { from = None; count = 0; chosen = None } }
    {
        Kept {
            from: None,
            count: 0,
            chosen: None,
        }
    }
}

impl<'a, 'b> HeldSet<'a, 'b> {
    // Nothing is kept yet: that is right of every table of a job for whose claims there is room.
    pub fn new(place: &'a mut [u16], members: &'b mut [u16]) -> HeldSet<'a, 'b>
        requires zeros { (c : ℕ) → get_or place.old c 0 ≡ 0 }
        ensures keeps { (j : Terms) (t : List ℕ) → j.claims ≤ most_claims → length place.old ≡ j.claims → j.claims ≤ length members.old → Keeps j t result.kept result.place.now result.members.now }
        ensures room { (result.place.now ≡ place.old) × (result.members.now ≡ members.old) }
        ensures kept { result.kept ≡ record { from = None; count = 0; chosen = None } }
        ensures same_room { (result.place.ghost_name ≡ place.entry.ghost_name) × (result.members.ghost_name ≡ members.entry.ghost_name) }
    {
        HeldSet {
            kept: Kept::nothing(),
            place,
            members,
        }
    }

    // The set is dropped: no claim has a place any more.
    pub fn clear(&mut self)
        requires { Gathered (length self.old.place.now) (held self.old.kept self.old.place.now self.old.members.now) }
        ensures kept { self.new.kept ≡ record { from = None; count = 0; chosen = None } }
        ensures zeros { (c : ℕ) → get_or self.new.place.now c 0 ≡ 0 }
        ensures room { (length self.new.place.now ≡ length self.old.place.now) × (self.new.members.now ≡ self.old.members.now) }
        ensures same_room { SameRoom self.old self.new }
    {
        // By index: tried over the members, which lends the set while a place is written; the proof doesn't cover that.
        for i in 0..self.kept.count {
            let member = usize::from(self.members[i]);
            self.place[member] = 0;
        }
        self.kept = Kept::nothing();
    }

    // What claim c reaches: the set as it is kept, or gathered anew.
    pub fn reach(&mut self, job: &Job, index: &ClaimIndex, table: &[u32], c: usize)
        requires ready { Ready job.now index.now table.now × (c < claims job.now) }
        requires keeps { Keeps (job_of job.now) table.now self.old.kept self.old.place.now self.old.members.now }
        ensures reached { Keeps (job_of job.now) table.now self.new.kept self.new.place.now self.new.members.now × (self.new.kept.from ≡ Some c) }
        ensures same_room { SameRoom self.old self.new }
    {
        if self.kept.from == Some(c) {
            return;
        }
        self.clear();
        let count = gather::gather(job, index, table, c, self.place, self.members, 0);
        self.kept = Kept {
            from: Some(c),
            count,
            chosen: None,
        };
    }

    // Whether the members are all w's.
    pub fn all_owned(&self, table: &[u32], w: usize) -> bool
        requires { Places table.now self.now.members.now self.now.kept.count × (w < most_workers) }
        ensures { OwnsAll table.now w self.now.members.now self.now.kept.count result }
    {
        remaining::all_owned(table, &self.members[..self.kept.count], w)
    }

    // Every member that is not fresh becomes w's.
    pub fn take(&self, table: &mut [u32], w: usize)
        requires { Places table.old self.now.members.now self.now.kept.count × (w < most_workers) }
        ensures { Marked (λ (d : ℕ). w + 1) (λ (d : ℕ). Member self.now.members.now self.now.kept.count d × T (not (fresh table.old d))) table.old table.new }
    {
        marks::take_members(&self.members[..self.kept.count], table, w);
    }

    // Claim c has passed to claim b, which isn't complete: what b reaches joins the set, where c is in it.
    pub fn extend(&mut self, job: &Job, index: &ClaimIndex, table: &[u32], c: usize, b: usize)
        requires ready { Ready job.now index.now table.now × (c < claims job.now) × (b < claims job.now) }
        requires lacking { Lacking (job_of job.now) table.now c b self.old.kept self.old.place.now self.old.members.now }
        ensures keeps { Keeps (job_of job.now) table.now self.new.kept self.new.place.now self.new.members.now }
        ensures same_room { SameRoom self.old self.new }
    {
        if self.place[c] == 0 {
            return;
        }
        if self.place[b] != 0 {
            return;
        }
        let before = self.kept.count;
        let count = gather::gather(job, index, table, b, self.place, self.members, before);
        self.kept = Kept {
            from: self.kept.from,
            count,
            chosen: None,
        };
    }
}
