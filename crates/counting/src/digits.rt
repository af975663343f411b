// The choices of a set and the signs of a body, from their numbers. The contracts cite specs/Sets.
ghost use Rattle.std.specs.Prelude.{◌+◌, ◌^◌, ◌<◌, ◌≤◌, get_or};
ghost use Rattle.base.specs.Number.{Number};
ghost use Rattle.rulesets.specs.Sets.{choice_count, set_count, absent, sign_number, no_rule, choice_number, body_no, set_no};

// The largest size.
pub const MOST_SIZE: usize = 3;

// b to the power of k.
fn power(b: usize, k: usize) -> usize
    requires { (b ≤ 28) × (k ≤ 3) }
    ensures { Number result (b ^ k) 21953 }
{
    b.pow(k as u32)
}

// How many choices a claim has: no rule, or one of the bodies.
fn choice_count(size: usize) -> usize
    requires { size ≤ 3 }
    ensures { Number result (choice_count size) 29 }
{
    1 + power(3, size)
}

// How many sets there are.
pub fn set_count(size: usize) -> usize
    requires { size ≤ 3 }
    ensures { Number result (set_count size) 21953 }
{
    power(choice_count(size), size)
}

// The number of claim c's choice in set k.
pub fn choice_of(size: usize, k: usize, c: usize) -> usize
    requires { (size ≤ 3) × (c < size) × (k < set_count size) }
    ensures { Number result (choice_number (get_or (set_no size k) c no_rule)) (choice_count size) }
{
    let b = choice_count(size);
    k / power(b, size - 1 - c) % b
}

// The number of claim c's sign in body x.
pub fn sign_of(size: usize, x: usize, c: usize) -> usize
    requires { (size ≤ 3) × (c < size) × (x < 3 ^ size) }
    ensures { Number result (sign_number (get_or (body_no size x) c absent)) 3 }
{
    x / power(3, size - 1 - c) % 3
}
