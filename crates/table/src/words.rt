// Where each word of a table stands, and what it holds; the header that a table of a job has; and what a mark shows.
// The contracts cite specs/: Layout, Reading.
ghost use Rattle.std.specs.Prelude.{◌≡◌, ◌<◌, leb, length, get_or};
ghost use Rattle.base.specs.Number.{Number};
ghost use Rattle.job.specs.Format.{job_of};
ghost use Rattle.table.specs.Layout.{Place, opened_word, mark_word, cursor_word, number_word, workers_from, awaited_at, answered_at, newest_at, answers_from, answer_at, used, header};
ghost use Rattle.table.specs.Layout.{opened, mark as mark_in, cursor, number, true_mark, value_of, mark_of_value};
ghost use Rattle.table.specs.Reading.{reading_of};

use crate::Reading;
use job::{Job, checks};

// The header's words that never change; the one after them counts the claims opened so far.
pub const FIXED_WORDS: usize = 7;

pub const OPENED_AT: usize = 7;

// Where the words of claims start, a mark, a cursor and an opening number each; those of workers follow, then those of questions.
pub const CLAIMS_AT: usize = 8;

// Words enough for the table of every job.
pub const MOST_WORDS: usize = CLAIMS_AT
    + 3 * checks::MOST_CLAIMS
    + 3 * checks::MOST_WORKERS
    + checks::MOST_QUESTIONS;

// The marks of the values: each is the value, 1 to 3, and a base. Numbers, since a mark is a word of the table: the layout is fixed for C.
pub const TRUE_MARK: usize = 256;

pub const FALSE_MARK: usize = 257;

pub const UNDEFINED_MARK: usize = 258;

const VALUE_BASE: usize = 255;

pub const MOST_VALUE: usize = 3;

// The places of claim c's words: its mark, its cursor, its opening number.
pub fn mark_word(c: usize) -> usize
    requires { Place (mark_word c) }
    ensures { result ≡ mark_word c }
{
    CLAIMS_AT + 3 * c
}

pub fn cursor_word(c: usize) -> usize
    requires { Place (cursor_word c) }
    ensures { result ≡ cursor_word c }
{
    mark_word(c) + 1
}

pub fn number_word(c: usize) -> usize
    requires { Place (number_word c) }
    ensures { result ≡ number_word c }
{
    mark_word(c) + 2
}

// Where the words of this many claims end, and those of workers start.
pub fn workers_from(claims: usize) -> usize
    requires { Place (workers_from claims) }
    ensures { result ≡ workers_from claims }
{
    mark_word(claims)
}

// The places of worker w's words: the claim it awaits + 1, or 0; how many questions it has answered; its newest open claim + 1, or 0.
pub fn awaited_word(claims: usize, w: usize) -> usize
    requires { Place (awaited_at claims w) }
    ensures { result ≡ awaited_at claims w }
{
    workers_from(claims) + 3 * w
}

pub fn answered_word(claims: usize, w: usize) -> usize
    requires { Place (answered_at claims w) }
    ensures { result ≡ answered_at claims w }
{
    awaited_word(claims, w) + 1
}

pub fn newest_word(claims: usize, w: usize) -> usize
    requires { Place (newest_at claims w) }
    ensures { result ≡ newest_at claims w }
{
    awaited_word(claims, w) + 2
}

// Where the words of this many workers end, and those of questions start.
pub fn answers_from(claims: usize, workers: usize) -> usize
    requires { Place (answers_from claims workers) }
    ensures { result ≡ answers_from claims workers }
{
    awaited_word(claims, workers)
}

// The place of question k's answer.
pub fn answer_word(claims: usize, workers: usize, k: usize) -> usize
    requires { Place (answer_at claims workers k) }
    ensures { result ≡ answer_at claims workers k }
{
    answers_from(claims, workers) + k
}

// Word i.
pub fn word_at(table: &[u32], i: usize) -> usize
    requires { i < length table.now }
    ensures { Number result (get_or table.now i 0) 4294967296 }
{
    table[i] as usize
}

// Claims opened so far.
pub fn opened_in(table: &[u32]) -> usize
    requires { opened_word < length table.now }
    ensures { Number result (opened table.now) 4294967296 }
{
    word_at(table, OPENED_AT)
}

// The words of claim c.
pub fn mark_at(table: &[u32], c: usize) -> usize
    requires { mark_word c < length table.now }
    ensures { Number result (mark_in table.now c) 4294967296 }
{
    word_at(table, mark_word(c))
}

pub fn cursor_at(table: &[u32], c: usize) -> usize
    requires { cursor_word c < length table.now }
    ensures { Number result (cursor table.now c) 4294967296 }
{
    word_at(table, cursor_word(c))
}

pub fn number_at(table: &[u32], c: usize) -> usize
    requires { number_word c < length table.now }
    ensures { Number result (number table.now c) 4294967296 }
{
    word_at(table, number_word(c))
}

// The words of worker w in a table for this many claims.
pub fn awaited_at(table: &[u32], claims: usize, w: usize) -> usize
    requires { awaited_at claims w < length table.now }
    ensures { Number result (get_or table.now (awaited_at claims w) 0) 4294967296 }
{
    word_at(table, awaited_word(claims, w))
}

pub fn answered_at(table: &[u32], claims: usize, w: usize) -> usize
    requires { answered_at claims w < length table.now }
    ensures { Number result (get_or table.now (answered_at claims w) 0) 4294967296 }
{
    word_at(table, answered_word(claims, w))
}

pub fn newest_at(table: &[u32], claims: usize, w: usize) -> usize
    requires { newest_at claims w < length table.now }
    ensures { Number result (get_or table.now (newest_at claims w) 0) 4294967296 }
{
    word_at(table, newest_word(claims, w))
}

// The word of question k in a table for this many claims and workers.
pub fn answer_at(table: &[u32], claims: usize, workers: usize, k: usize) -> usize
    requires { answer_at claims workers k < length table.now }
    ensures { Number result (get_or table.now (answer_at claims workers k) 0) 4294967296 }
{
    word_at(table, answer_word(claims, workers, k))
}

// Words used by a table of the job.
pub fn used_words(job: &Job) -> usize
    ensures { Number result (used (job_of job.now)) 65536 }
{
    answer_word(job.claim_count(), job.worker_count(), job.question_count())
}

// The words that a table of the job begins with.
pub fn header_words(job: &Job) -> [u32; FIXED_WORDS]
    ensures { result ≡ header (job_of job.now) }
{
    let claims = job.claim_count();
    let workers = job.worker_count();
    let questions = job.question_count();
    let workers_at = workers_from(claims);
    let answers_at = answers_from(claims, workers);
    let used = answer_word(claims, workers, questions);
    [
        used as u32,
        claims as u32,
        workers as u32,
        questions as u32,
        CLAIMS_AT as u32,
        workers_at as u32,
        answers_at as u32,
    ]
}

// Whether a claim with this mark is complete.
pub fn is_complete(mark: usize) -> bool
    ensures { result ≡ leb true_mark mark }
{
    TRUE_MARK <= mark
}

// The value that a mark shows, or 0. No Option: a question's word holds it so, and the layout of the words is fixed for C.
pub fn value_of(mark: usize) -> usize
    ensures { result ≡ value_of mark }
{
    mark.saturating_sub(VALUE_BASE)
}

// The mark of a value.
pub fn mark_of_value(value: usize) -> usize
    requires { value < 4294967296 }
    ensures { result ≡ mark_of_value value }
{
    VALUE_BASE + value
}

// What a mark shows. No From<usize>: a mark is a word of a claim, and no other number reads so.
pub fn reading_of(mark: usize) -> Reading
    ensures { result ≡ reading_of mark }
{
    match mark {
        0 => Reading::Fresh,
        TRUE_MARK => Reading::True,
        FALSE_MARK => Reading::False,
        UNDEFINED_MARK => Reading::Undefined,
        _ => Reading::Open,
    }
}
