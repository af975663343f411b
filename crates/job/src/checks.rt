// Rows 1 to 8 of the check table, a function a row. The contracts cite specs/Checks.
ghost use Rattle.std.specs.Prelude.{◌≡◌, true, false, ℕ, ◌+◌, ◌<◌, ◌≤◌, length};
ghost use Rattle.base.specs.Number.{Number};
ghost use Rattle.job.specs.Job.{claim_of};
ghost use Rattle.job.specs.Format.{rules, literals, questions, head_before, body_start, literal_at};
ghost use Rattle.job.specs.Accepted.{Sized};
ghost use Rattle.job.specs.Reading.{Reading};
ghost use Rattle.job.specs.Check.{Refused};
ghost use Rattle.job.specs.Checks.{bad_head, bad_question, check_length, check_total, check_counts, check_offsets, check_heads, check_bodies, check_literals, check_questions, check_header, check_parts, check_job};

use crate::{Check, Refusal, bytes, format};

const HEADER_BYTES: usize = 36;

// A block of rules, or of questions, that goes by in one pass without branches. A fault costs no more than the pass over its block.
const BLOCK: usize = 64;

pub const MOST_BYTES: usize = 61476;

pub const MOST_CLAIMS: usize = 4096;

pub const MOST_RULES: usize = 6144;

pub const MOST_LITERALS: usize = 16384;

pub const MOST_WORKERS: usize = 32;

pub const MOST_QUESTIONS: usize = 1024;

fn refused(number: u32, place: usize) -> Check
    ensures { result ≡ Refused number place }
{
    Err(Refusal { number, place })
}

fn check_length(job: &[u8]) -> Check
    ensures { result ≡ check_length job.now }
{
    let n = job.len();
    if n < HEADER_BYTES {
        return refused(1, n);
    }
    if MOST_BYTES < n {
        return refused(1, n);
    }
    Ok(())
}

fn check_total(job: &[u8]) -> Check
    requires { 36 ≤ length job.now }
    ensures { result ≡ check_total job.now }
{
    if bytes::word(job, 0) != job.len() {
        return refused(2, 0);
    }
    Ok(())
}

fn check_counts(job: &[u8]) -> Check
    requires { 36 ≤ length job.now }
    ensures { result ≡ check_counts job.now }
{
    if MOST_CLAIMS < format::claim_count(job) {
        return refused(3, 4);
    }
    if MOST_RULES < format::rule_count(job) {
        return refused(3, 8);
    }
    if MOST_LITERALS < format::literal_count(job) {
        return refused(3, 12);
    }
    let workers = format::worker_count(job);
    if workers < 1 {
        return refused(3, 16);
    }
    if MOST_WORKERS < workers {
        return refused(3, 16);
    }
    if MOST_QUESTIONS < format::question_count(job) {
        return refused(3, 20);
    }
    Ok(())
}

fn check_offsets(job: &[u8]) -> Check
    requires { 36 ≤ length job.now }
    ensures { result ≡ check_offsets job.now }
{
    let literals_at = HEADER_BYTES + 4 * format::rule_count(job);
    let questions_at = literals_at + 2 * format::literal_count(job);
    let total = questions_at + 4 * format::question_count(job);
    if bytes::word(job, 24) != HEADER_BYTES {
        return refused(4, 24);
    }
    if bytes::word(job, 28) != literals_at {
        return refused(4, 28);
    }
    if bytes::word(job, 32) != questions_at {
        return refused(4, 32);
    }
    if bytes::word(job, 0) != total {
        return refused(4, 0);
    }
    Ok(())
}

// The head before rule i's; 0 before the first.
fn head_before(job: &[u8], i: usize) -> usize
    requires { Sized job.now × (i ≤ rules job.now) }
    ensures { Number result (head_before job.now i) 65536 }
{
    if i == 0 {
        return 0;
    }
    format::head_at(job, i - 1)
}

// Whether each head of a block of rules is below the claims and not below the head before it. One pass without branches, in 32 bits.
fn heads_rise(job: &[u8], from: usize) -> bool
    requires sized { Sized job.now }
    requires block { from + 64 ≤ rules job.now }
    ensures { result ≡ true → (k : ℕ) → k < from + 64 → from ≤ k → bad_head job.now k ≡ false }
{
    let claims = format::claim_count(job) as u32;
    let mut rise = true;
    let mut before = head_before(job, from) as u32;
    for i in from..from + BLOCK {
        let head = format::head_at(job, i) as u32;
        rise = rise & (head < claims) & (before <= head);
        before = head;
    }
    rise
}

// The first head that is not below the claims, or is below the head before it, from a rule on before which there is none.
fn scan_heads(job: &[u8], from: usize) -> Check
    requires sized { Sized job.now }
    requires right { (from ≤ rules job.now) × ((k : ℕ) → k < from → bad_head job.now k ≡ false) }
    ensures { result ≡ check_heads job.now }
{
    let claims = format::claim_count(job);
    let rules = format::rule_count(job);
    let mut before = head_before(job, from);
    for i in from..rules {
        let at = HEADER_BYTES + 4 * i;
        let head = format::head_at(job, i);
        if claims <= head {
            return refused(5, at);
        }
        if head < before {
            return refused(5, at);
        }
        before = head;
    }
    Ok(())
}

// Each head is below the claims and not below the head before it: whole blocks without a fault, and then what is left.
fn check_heads(job: &[u8]) -> Check
    requires { Sized job.now }
    ensures { result ≡ check_heads job.now }
{
    let rules = format::rule_count(job);
    let blocks = rules / BLOCK;
    for block in 0..blocks {
        if !heads_rise(job, block * BLOCK) {
            return scan_heads(job, block * BLOCK);
        }
    }
    scan_heads(job, blocks * BLOCK)
}

// The body lengths, added up. One pass without branches, in 32 bits: the compiler takes several at once.
fn sum_of_lengths(job: &[u8]) -> usize
    requires { Sized job.now }
    ensures { result ≡ body_start job.now (rules job.now) }
{
    let rules = format::rule_count(job);
    let mut sum: u32 = 0;
    for i in 0..rules {
        sum += format::body_length_at(job, i) as u32;
    }
    sum as usize
}

// The body lengths add up to the literals, and pass them at no rule: where the sum of many is right there is no need to look for the rule.
fn check_bodies(job: &[u8]) -> Check
    requires { Sized job.now }
    ensures { result ≡ check_bodies job.now }
{
    let rules = format::rule_count(job);
    let literals = format::literal_count(job);
    if BLOCK <= rules && sum_of_lengths(job) == literals {
        return Ok(());
    }
    let mut passed: usize = 0;
    for i in 0..rules {
        passed += format::body_length_at(job, i);
        if literals < passed {
            return refused(6, HEADER_BYTES + 4 * i);
        }
    }
    if passed < literals {
        return refused(6, HEADER_BYTES + 4 * rules);
    }
    Ok(())
}

// No literal's claim is above the one answered. One pass without branches, in 16 bits: the compiler takes several literals at once.
fn highest_claim(job: &[u8]) -> u16
    requires { Sized job.now }
    ensures { (k : ℕ) → k < literals job.now → claim_of (literal_at job.now (rules job.now) k) ≤ result }
{
    let rules = format::rule_count(job);
    let literals = format::literal_count(job);
    let mut highest: u16 = 0;
    for k in 0..literals {
        let field = bytes::half(job, HEADER_BYTES + 4 * rules + 2 * k);
        let claim = (field % format::NEGATED) as u16;
        highest = highest.max(claim);
    }
    highest
}

// The claim of each literal is below the claims: rule by rule, the literals of each body, up to the first fault. Where the highest claim
// is below them there is none, and no need to look for it.
fn check_literals(job: &[u8]) -> Check
    requires sized { Sized job.now }
    requires job_value { body_start job.now (rules job.now) ≡ literals job.now }
    ensures { result ≡ check_literals job.now }
{
    let claims = format::claim_count(job);
    let rules = format::rule_count(job);
    if usize::from(highest_claim(job)) < claims {
        return Ok(());
    }
    let mut passed: usize = 0;
    let mut fault = None;
    'rules: for i in 0..rules {
        let end = passed + format::body_length_at(job, i);
        for k in passed..end {
            if claims <= format::claim_of(format::literal_at(job, rules, k)) {
                fault = Some(k);
                break 'rules;
            }
        }
        passed = end;
    }
    match fault {
        Some(k) => refused(7, HEADER_BYTES + 4 * rules + 2 * k),
        None => Ok(()),
    }
}

// Whether each worker of a block of questions is one of the job's, and each claim below the claims. One pass without branches.
fn questions_fit(job: &[u8], from: usize) -> bool
    requires sized { Sized job.now }
    requires block { from + 64 ≤ questions job.now }
    ensures { result ≡ true → (k : ℕ) → k < from + 64 → from ≤ k → bad_question job.now k ≡ false }
{
    let claims = format::claim_count(job);
    let rules = format::rule_count(job);
    let literals = format::literal_count(job);
    let workers = format::worker_count(job);
    let mut fit = true;
    for q in from..from + BLOCK {
        let question = format::question_at(job, rules, literals, q);
        fit = fit & (question.worker < workers) & (question.claim < claims);
    }
    fit
}

// The first question at fault, from one on before which there is none.
fn scan_questions(job: &[u8], from: usize) -> Check
    requires sized { Sized job.now }
    requires right { (from ≤ questions job.now) × ((k : ℕ) → k < from → bad_question job.now k ≡ false) }
    ensures { result ≡ check_questions job.now }
{
    let claims = format::claim_count(job);
    let rules = format::rule_count(job);
    let literals = format::literal_count(job);
    let workers = format::worker_count(job);
    let questions = format::question_count(job);
    let start = HEADER_BYTES + 4 * rules + 2 * literals;
    for q in from..questions {
        let at = start + 4 * q;
        let question = format::question_at(job, rules, literals, q);
        if workers <= question.worker {
            return refused(8, at);
        }
        if claims <= question.claim {
            return refused(8, at);
        }
    }
    Ok(())
}

// Each question's worker is below the workers, and its claim below the claims: whole blocks without a fault, and then what is left.
fn check_questions(job: &[u8]) -> Check
    requires { Sized job.now }
    ensures { result ≡ check_questions job.now }
{
    let questions = format::question_count(job);
    let blocks = questions / BLOCK;
    for block in 0..blocks {
        if !questions_fit(job, block * BLOCK) {
            return scan_questions(job, block * BLOCK);
        }
    }
    scan_questions(job, blocks * BLOCK)
}

// The rows of the header.
fn check_header(job: &[u8]) -> Check
    ensures { result ≡ check_header job.now }
{
    check_length(job)?;
    check_total(job)?;
    check_counts(job)?;
    check_offsets(job)
}

// The rows of rules, literals and questions.
fn check_parts(job: &[u8]) -> Check
    requires { Sized job.now }
    ensures { result ≡ check_parts job.now }
{
    check_heads(job)?;
    check_bodies(job)?;
    check_literals(job)?;
    check_questions(job)
}

// Rows 1 to 8, in their order. Accepted are exactly the encodings of valid jobs, and an encoding reads back.
pub fn check_job(job: &[u8]) -> Check
    ensures value { result ≡ check_job job.now }
    ensures reading { Reading }
{
    check_header(job)?;
    check_parts(job)
}
