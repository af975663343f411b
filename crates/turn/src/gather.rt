// Gathering what a claim reaches: a queue of claims, in which each stands once. The contracts cite specs/Gather and `reached` of specs/Turn.
ghost use Rattle.std.specs.Prelude.{◌≡◌, false, ◌+◌, ◌≤◌, ◌<◌, length, get_or};
ghost use Rattle.base.specs.Sets.{set_of};
ghost use Rattle.job.specs.Job.{most_claims, most_literals};
ghost use Rattle.job.specs.Format.{claims, rules, literals, job_of};
ghost use Rattle.table.specs.Layout.{number_word, workers_from, cursor as passed_by};
ghost use Rattle.turn.specs.Ready.{Ready};
ghost use Rattle.turn.specs.Gather.{met, Gathered, Room, visit as visit_of, visits, Leading, Spread};

use crate::failing;
use job::{ClaimIndex, Cursor, Job, format};
use table::words;

// Meets claim b: it joins the set, unless it is complete or was met before. How many members the set then has.
fn visit(table: &[u32], b: usize, place: &mut [u16], members: &mut [u16], top: usize) -> usize
    requires { (b < length place.old) × (workers_from (length place.old) ≤ length table.now) × Gathered (length place.old) (record { place = place.old; members = members.old; top = top }) }
    ensures { visit_of table.now b (record { place = place.old; members = members.old; top = top }) ≡ record { place = place.new; members = members.new; top = result } }
{
    if words::is_complete(words::mark_at(table, b)) {
        return top;
    }
    if place[b] != 0 {
        return top;
    }
    place[b] = (top + 1) as u16;
    members[top] = b as u16;
    top + 1
}

// Meets the claims of the literals that the cursor has left, and that stand behind no false one, in order. How many members the set then has.
fn expand(
    job: &Job,
    index: &ClaimIndex,
    table: &[u32],
    from: Cursor,
    place: &mut [u16],
    members: &mut [u16],
    bottom: usize,
) -> usize
    requires room { Room job.now (rules job.now) index.now table.now (length place.old) from (record { place = place.old; members = members.old; top = bottom }) }
    requires literals { from.end ≤ literals job.now }
    ensures { visits table.now (met job.now (rules job.now) index.now table.now from) (record { place = place.old; members = members.old; top = bottom }) ≡ record { place = place.new; members = members.new; top = result } }
{
    let mut cursor = from;
    let mut top = bottom;
    while !cursor.at_end() {
        let literal = job.current(cursor);
        top = visit(table, format::claim_of(literal), place, members, top);
        cursor = failing::moved_on(index, table, literal, cursor);
    }
    top
}

// The cursor over the literals that claim c has passed.
fn passed_over(index: &ClaimIndex, table: &[u32], c: usize) -> Cursor
    requires { (c < most_claims) × (number_word c < length table.now) × (get_or index.now c 0 ≤ most_literals) }
    ensures { result ≡ record { at = get_or index.now c 0; end = get_or index.now c 0 + passed_by table.now c } }
{
    let start = Cursor::over(index, c, 0).at;
    Cursor {
        at: start,
        end: start + words::cursor_at(table, c),
    }
}

// What the claim reaches joins a set of `count` members, from which nothing else is led to that isn't in it. How many members the set then has.
// Each claim joins once at most, and each passed literal of a claim that joins is looked at once at most. The claim met first is looked at first: the next one
// is known long before its turn, so that the processor need not wait for it.
pub fn gather(
    job: &Job,
    index: &ClaimIndex,
    table: &[u32],
    claim: usize,
    place: &mut [u16],
    members: &mut [u16],
    count: usize,
) -> usize
    requires ready { Ready job.now index.now table.now }
    requires claim_bound { (claim < claims job.now) × (set_of place.old claim ≡ false) }
    requires gathered { Gathered (job_of job.now).claims (record { place = place.old; members = members.old; top = count }) }
    requires leading { Leading (job_of job.now) table.now place.old claim }
    ensures { Spread (job_of job.now) table.now claim (record { place = place.old; members = members.old; top = count }) (record { place = place.new; members = members.new; top = result }) }
{
    let mut i = count;
    let mut top = count + 1;
    place[claim] = top as u16;
    members[i] = claim as u16;
    while i < top {
        let from = passed_over(index, table, usize::from(members[i]));
        top = expand(job, index, table, from, place, members, top);
        i += 1;
    }
    top
}
