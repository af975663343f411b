// Literals beside a table. The contracts cite specs/Literals.
ghost use Rattle.std.specs.Prelude.{◌≡◌, ◌<◌, length};
ghost use Rattle.job.specs.Job.{claim_of};
ghost use Rattle.table.specs.Layout.{mark_word};
ghost use Rattle.table.specs.Literals.{failing_mark, failed as failed_in};

use crate::words;
use job::{Literal, format};

// The mark of its claim that makes a literal false.
fn failing_mark(literal: Literal) -> usize
    ensures { result ≡ failing_mark literal }
{
    match literal {
        Literal::Plain(_) => words::FALSE_MARK,
        Literal::Negated(_) => words::TRUE_MARK,
    }
}

// Whether a literal is complete and false. Most claims that a gathering meets are open, so that is asked first.
pub fn failed(table: &[u32], literal: Literal) -> bool
    requires { mark_word (claim_of literal) < length table.now }
    ensures { result ≡ failed_in table.now literal }
{
    let mark = words::mark_at(table, format::claim_of(literal));
    if mark < words::TRUE_MARK {
        return false;
    }
    mark == failing_mark(literal)
}
