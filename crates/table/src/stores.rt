// The words of a table, each stored at its place. The contracts cite specs/Layout.
ghost use Rattle.std.specs.Prelude.{◌≡◌, ◌<◌, length, set};
ghost use Rattle.table.specs.Layout.{opened_word, mark_word, cursor_word, number_word, awaited_at, answered_at, newest_at, answer_at};

use crate::words;

// Word i becomes v.
fn set_word(table: &mut [u32], i: usize, v: usize)
    requires { (i < length table.old) × (v < 4294967296) }
    ensures { table.new ≡ set table.old i v }
{
    table[i] = v as u32;
}

// Claims opened so far.
pub fn set_opened(table: &mut [u32], v: usize)
    requires { (opened_word < length table.old) × (v < 4294967296) }
    ensures { table.new ≡ set table.old opened_word v }
{
    set_word(table, words::OPENED_AT, v);
}

// The words of claim c.
pub fn set_mark(table: &mut [u32], c: usize, v: usize)
    requires { (mark_word c < length table.old) × (v < 4294967296) }
    ensures { table.new ≡ set table.old (mark_word c) v }
{
    set_word(table, words::mark_word(c), v);
}

pub fn set_cursor(table: &mut [u32], c: usize, v: usize)
    requires { (cursor_word c < length table.old) × (v < 4294967296) }
    ensures { table.new ≡ set table.old (cursor_word c) v }
{
    set_word(table, words::cursor_word(c), v);
}

pub fn set_number(table: &mut [u32], c: usize, v: usize)
    requires { (number_word c < length table.old) × (v < 4294967296) }
    ensures { table.new ≡ set table.old (number_word c) v }
{
    set_word(table, words::number_word(c), v);
}

// The words of worker w in a table for this many claims.
pub fn set_awaited(table: &mut [u32], claims: usize, w: usize, v: usize)
    requires { (awaited_at claims w < length table.old) × (v < 4294967296) }
    ensures { table.new ≡ set table.old (awaited_at claims w) v }
{
    set_word(table, words::awaited_word(claims, w), v);
}

pub fn set_answered(table: &mut [u32], claims: usize, w: usize, v: usize)
    requires { (answered_at claims w < length table.old) × (v < 4294967296) }
    ensures { table.new ≡ set table.old (answered_at claims w) v }
{
    set_word(table, words::answered_word(claims, w), v);
}

pub fn set_newest(table: &mut [u32], claims: usize, w: usize, v: usize)
    requires { (newest_at claims w < length table.old) × (v < 4294967296) }
    ensures { table.new ≡ set table.old (newest_at claims w) v }
{
    set_word(table, words::newest_word(claims, w), v);
}

// The word of question k in a table for this many claims and workers.
pub fn set_answer(table: &mut [u32], claims: usize, workers: usize, k: usize, v: usize)
    requires { (answer_at claims workers k < length table.old) × (v < 4294967296) }
    ensures { table.new ≡ set table.old (answer_at claims workers k) v }
{
    set_word(table, words::answer_word(claims, workers, k), v);
}
