// The parts of a job, each read at its place. The contracts cite specs/Format.
ghost use Rattle.std.specs.Prelude.{◌≡◌, ◌+◌, ◌≤◌, length};
ghost use Rattle.base.specs.Number.{Number};
ghost use Rattle.job.specs.Job.{claim_of};
ghost use Rattle.job.specs.Format.{claims, rules, literals, workers, questions, rule_byte, literal_byte, question_byte, head_at, missing_at, body_length_at, literal_at, question_at};

use crate::{Literal, Question, bytes};

// The header's counts: claims A, rules M, literals L, workers T, questions Q.
pub fn claim_count(job: &[u8]) -> usize
    requires { 36 ≤ length job.now }
    ensures { Number result (claims job.now) 4294967296 }
{
    bytes::word(job, 4)
}

pub fn rule_count(job: &[u8]) -> usize
    requires { 36 ≤ length job.now }
    ensures { Number result (rules job.now) 4294967296 }
{
    bytes::word(job, 8)
}

pub fn literal_count(job: &[u8]) -> usize
    requires { 36 ≤ length job.now }
    ensures { Number result (literals job.now) 4294967296 }
{
    bytes::word(job, 12)
}

pub fn worker_count(job: &[u8]) -> usize
    requires { 36 ≤ length job.now }
    ensures { Number result (workers job.now) 4294967296 }
{
    bytes::word(job, 16)
}

pub fn question_count(job: &[u8]) -> usize
    requires { 36 ≤ length job.now }
    ensures { Number result (questions job.now) 4294967296 }
{
    bytes::word(job, 20)
}

// What a negated literal adds to its claim.
pub const NEGATED: usize = 32768;

// The body length of a missing record, which has no literals.
pub const MISSING: usize = 65535;

// Rule i: its head, whether it is a missing record, and how many literals its body has.
pub fn head_at(job: &[u8], i: usize) -> usize
    requires { rule_byte i + 4 ≤ length job.now }
    ensures { Number result (head_at job.now i) 65536 }
{
    bytes::half(job, 36 + 4 * i)
}

pub fn missing_at(job: &[u8], i: usize) -> bool
    requires { rule_byte i + 4 ≤ length job.now }
    ensures { result ≡ missing_at job.now i }
{
    bytes::half(job, 36 + 4 * i + 2) == MISSING
}

pub fn body_length_at(job: &[u8], i: usize) -> usize
    requires { rule_byte i + 4 ≤ length job.now }
    ensures { Number result (body_length_at job.now i) 65536 }
{
    let length = bytes::half(job, 36 + 4 * i + 2);
    if length == MISSING {
        return 0;
    }
    length
}

// Literal k of a job with this many rules, counted over all bodies.
pub fn literal_at(job: &[u8], rules: usize, k: usize) -> Literal
    requires { literal_byte rules k + 2 ≤ length job.now }
    ensures { result ≡ literal_at job.now rules k }
{
    let field = bytes::half(job, 36 + 4 * rules + 2 * k);
    if field < NEGATED {
        return Literal::Plain(field);
    }
    Literal::Negated(field - NEGATED)
}

// The claim of a literal, plain or negated.
pub fn claim_of(literal: Literal) -> usize
    ensures { result ≡ claim_of literal }
{
    match literal {
        Literal::Plain(claim) => claim,
        Literal::Negated(claim) => claim,
    }
}

// Question q of a job with this many rules and literals.
pub fn question_at(job: &[u8], rules: usize, literals: usize, q: usize) -> Question
    requires { question_byte rules literals q + 4 ≤ length job.now }
    ensures { result ≡ question_at job.now rules literals q }
{
    let at = 36 + 4 * rules + 2 * literals + 4 * q;
    Question {
        worker: bytes::half(job, at),
        claim: bytes::half(job, at + 2),
    }
}
