// The search for claims of a foreign group. Each claim has a scope: 0 where nothing is known of it, g + 1 where all that it leads to is public or of group g,
// so 1 where all of that is public. A scope narrows at most once, so over all questions each claim is looked at twice at most, whatever the number of workers.
// The contracts cite specs/Scopes.
ghost use Rattle.std.specs.Prelude.{◌≡◌, false, ◌+◌, ◌≤◌, ◌<◌, length};
ghost use Rattle.job.specs.Claims.{Index};
ghost use Rattle.job.specs.Format.{claims, rules as rules_of, literals, workers as workers_of, questions, literal_at, job_of};
ghost use Rattle.job.specs.Job.{most_claims, claim_of};
ghost use Rattle.groups.specs.Groups.{foreign, bad_question};
ghost use Rattle.groups.specs.Scopes.{settled as settled_for, narrow as narrow_for, visit, Fits, Known, Expanded};

use job::{ClaimIndex, Cursor, Job, format};

// Whether a claim of this scope is known to lead to nothing foreign for the group.
fn settled(scope: usize, group: usize) -> bool
    requires { group < 256 }
    ensures { result ≡ settled_for group scope }
{
    scope == group + 1 || scope == 1
}

// The scope of a claim that is met for the group and not settled: its first, or public only where it had another group's.
fn narrow(scope: usize, group: usize) -> usize
    requires { group < 256 }
    ensures { result ≡ narrow_for group scope }
{
    if scope == 0 { group + 1 } else { 1 }
}

// Meets a claim: unless it is settled its scope narrows, and it joins the queue. How long the queue is then.
fn meet(claim: usize, group: usize, scopes: &mut [u16], queue: &mut [u16], top: usize) -> usize
    requires { (claim < most_claims) × (group < 256) × Fits group (record { scopes = scopes.old; queue = queue.old; top = top }) }
    ensures { visit group claim (record { scopes = scopes.old; queue = queue.old; top = top }) ≡ record { scopes = scopes.new; queue = queue.new; top = result } }
{
    let scope = usize::from(scopes[claim]);
    if settled(scope, group) {
        return top;
    }
    scopes[claim] = narrow(scope, group) as u16;
    queue[top] = claim as u16;
    top + 1
}

// Meets the claims of the literals that the cursor has left. How long the queue is then.
fn expand(
    job: &Job,
    from: Cursor,
    group: usize,
    scopes: &mut [u16],
    queue: &mut [u16],
    bottom: usize,
) -> usize
    requires within { (from.at ≤ from.end) × (from.end ≤ literals job.now) × (group < 256) }
    requires fits { Fits group (record { scopes = scopes.old; queue = queue.old; top = bottom }) }
    ensures { Expanded (job_of job.now) group (λ y. claim_of (literal_at job.now (rules_of job.now) y)) from.at from.end (record { scopes = scopes.old; queue = queue.old; top = bottom }) (record { scopes = scopes.new; queue = queue.new; top = result }) }
{
    let mut cursor = from;
    let mut top = bottom;
    while !cursor.at_end() {
        let claim = format::claim_of(job.literal_at(cursor.at));
        top = meet(claim, group, scopes, queue, top);
        cursor = cursor.advanced();
    }
    top
}

// Whether the claim is neither public nor of the group.
fn is_foreign(groups: &[u8], claim: usize, group: usize) -> bool
    requires { claim < length groups.now }
    ensures { result ≡ foreign groups.now group claim }
{
    let own = usize::from(groups[claim]);
    own != 0 && own != group
}

// Whether question q leads to a claim that is foreign for its worker's group. What was found of other claims is kept in their scopes.
pub fn leads_abroad(
    job: &Job,
    index: &ClaimIndex,
    groups: &[u8],
    workers: &[u8],
    q: usize,
    scopes: &mut [u16],
    queue: &mut [u16],
) -> bool
    requires indexed { Index job.now index.now }
    requires lengths { (length groups.now ≡ claims job.now) × (length workers.now ≡ workers_of job.now) }
    requires fits { (q < questions job.now) × (length scopes.old ≡ most_claims) × (length queue.old ≡ most_claims) }
    requires known { Known (job_of job.now) groups.now scopes.old }
    ensures value { result ≡ bad_question job.now groups.now workers.now q }
    ensures kept { result ≡ false → Known (job_of job.now) groups.now scopes.new }
{
    let question = job.question_at(q);
    let group = usize::from(workers[question.worker]);
    let mut i: usize = 0;
    let mut top = meet(question.claim, group, scopes, queue, 0);
    while i < top {
        let c = usize::from(queue[i]);
        if is_foreign(groups, c, group) {
            return true;
        }
        let from = job.cursor(index, c, 0);
        top = expand(job, from, group, scopes, queue, top);
        i += 1;
    }
    false
}
