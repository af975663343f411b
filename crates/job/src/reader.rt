// A job whose bytes rows 1 to 8 accept, and its parts, each read at its place. The contracts see it as its bytes; they cite specs/Format and specs/Accepted.
ghost use Rattle.std.specs.Prelude.{◌≡◌, ℕ, List, ◌+◌, ◌<◌, ◌≤◌, get_or, replicate};
ghost use mathlib.Core.List.{flat_map};
ghost use Rattle.base.specs.Number.{Number};
ghost use Rattle.job.specs.Bytes.{Bytes, half};
ghost use Rattle.job.specs.Accepted.{WellFormed, Parted};
ghost use Rattle.job.specs.Claims.{index_entries, Index};
ghost use Rattle.job.specs.Job.{claim_of};
ghost use Rattle.job.specs.Format.{claims, rules, literals, workers, questions, head_at, missing_at, body_start, body_length_at, literal_byte, literal_at, question_at, job_of};
ghost use Rattle.job.specs.Encoding.{question_bytes};

use crate::claims::INDEX_ENTRIES;
use crate::{ClaimIndex, Cursor, Literal, Question, bytes, claims, format};
use std::marker::Model;

// The counts of rules and literals stand beside the bytes, since the places of literals and questions go by them.
#[derive(Drop)]
pub struct Job<'a> {
    bytes: &'a [u8],
    rules: usize,
    literals: usize,
}

impl<'a> Model for Job<'a> {
    ghost Value = { List ℕ };

    ghost view = { λ job. job.bytes.now };

    ghost invariant = { λ job. Parted job.bytes.now job.rules job.literals };
}

impl<'a> Job<'a> {
    // The job of bytes that were checked.
    pub fn of_accepted(bytes: &'a [u8]) -> Job<'a>
        requires { WellFormed bytes.now }
        ensures { result ≡ bytes.now }
    {
        Job {
            bytes,
            rules: format::rule_count(bytes),
            literals: format::literal_count(bytes),
        }
    }

    pub fn bytes(&self) -> &'a [u8]
        ensures value { result.now ≡ self.now }
        ensures accepted { WellFormed self.now }
    {
        self.bytes
    }

    pub fn claim_count(&self) -> usize
        ensures value { result ≡ claims self.now }
        ensures accepted { WellFormed self.now }
    {
        format::claim_count(self.bytes)
    }

    pub fn rule_count(&self) -> usize
        ensures value { result ≡ rules self.now }
        ensures accepted { WellFormed self.now }
        ensures all_bytes { Bytes self.now }
    {
        self.rules
    }

    pub fn literal_count(&self) -> usize
        ensures value { result ≡ literals self.now }
        ensures accepted { WellFormed self.now }
    {
        self.literals
    }

    pub fn worker_count(&self) -> usize
        ensures value { result ≡ workers self.now }
        ensures accepted { WellFormed self.now }
    {
        format::worker_count(self.bytes)
    }

    pub fn question_count(&self) -> usize
        ensures value { result ≡ questions self.now }
        ensures accepted { WellFormed self.now }
    {
        format::question_count(self.bytes)
    }

    // Rule i: its head, whether it is a missing record, and how many literals its body has.
    pub fn head_at(&self, i: usize) -> usize
        requires { i < rules self.now }
        ensures value { result ≡ head_at self.now i }
        ensures below { result < claims self.now }
        ensures accepted { WellFormed self.now }
    {
        format::head_at(self.bytes, i)
    }

    pub fn missing_at(&self, i: usize) -> bool
        requires { i < rules self.now }
        ensures { result ≡ missing_at self.now i }
    {
        format::missing_at(self.bytes, i)
    }

    pub fn body_length_at(&self, i: usize) -> usize
        requires { i < rules self.now }
        ensures value { result ≡ body_length_at self.now i }
        ensures within { body_start self.now i + result ≤ literals self.now }
        ensures accepted { WellFormed self.now }
    {
        format::body_length_at(self.bytes, i)
    }

    // Literal k, counted over all bodies.
    pub fn literal_at(&self, k: usize) -> Literal
        requires { k < literals self.now }
        ensures value { result ≡ literal_at self.now (rules self.now) k }
        ensures below { claim_of result < claims self.now }
        ensures accepted { WellFormed self.now }
    {
        format::literal_at(self.bytes, self.rules, k)
    }

    // Literal k as it is written: its claim, and 32,768 more if it is negated.
    pub fn literal_field_at(&self, k: usize) -> usize
        requires { k < literals self.now }
        ensures { Number result (half self.now (literal_byte (rules self.now) k)) 65536 }
    {
        bytes::half(self.bytes, 36 + 4 * self.rules + 2 * k)
    }

    pub fn question_at(&self, q: usize) -> Question
        requires { q < questions self.now }
        ensures value { result ≡ question_at self.now (rules self.now) (literals self.now) q }
        ensures asker { result.worker < workers self.now }
        ensures asked { result.claim < claims self.now }
        ensures accepted { WellFormed self.now }
    {
        format::question_at(self.bytes, self.rules, self.literals, q)
    }

    // The questions as they are written.
    pub fn question_bytes(&self) -> &'a [u8]
        ensures { result.now ≡ flat_map question_bytes (job_of self.now).questions }
    {
        &self.bytes[36 + 4 * self.rules + 2 * self.literals..]
    }

    // The cursor over a claim's literals that has passed some of them.
    pub fn cursor(&self, index: &ClaimIndex, claim: usize, passed: usize) -> Cursor
        requires claim { claim < claims self.now }
        requires passed { passed < 4294967296 }
        ensures value { result ≡ record { at = get_or index.now claim 0 + passed; end = get_or index.now (claim + 1) 0 } }
        ensures accepted { WellFormed self.now }
    {
        let _ = &self.bytes;
        Cursor::over(index, claim, passed)
    }

    // The current literal of a cursor.
    pub fn current(&self, cursor: Cursor) -> Literal
        requires { cursor.at < literals self.now }
        ensures value { result ≡ literal_at self.now (rules self.now) cursor.at }
        ensures below { claim_of result < claims self.now }
        ensures accepted { WellFormed self.now }
    {
        cursor.current(self.bytes, self.rules)
    }

    // The index of claims, into an array of zeros of the caller's own.
    pub fn fill_index(&self, index: &mut ClaimIndex)
        requires zeros { index.old ≡ replicate index_entries 0 }
        ensures { Index self.now index.new }
    {
        claims::fill_index(self.bytes, index);
    }

    pub fn index_claims(&self) -> ClaimIndex
        ensures { Index self.now result }
    {
        // The array is its own: handed on from a function that makes one, it would be copied.
        let mut index = [0u16; INDEX_ENTRIES];
        claims::fill_index(self.bytes, &mut index);
        index
    }
}
