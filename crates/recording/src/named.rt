// The schedule that a record names. The contract cites `workers_in` of specs/Record.
ghost use Rattle.std.specs.Prelude.{◌≤◌, length};
ghost use Rattle.writing.specs.Written.{Put};
ghost use Rattle.records.specs.Record.{pairs as pairs_in, workers_in};

use writing::Writer;

// The workers of the pairs, a byte a turn, at the start of `out`; how many they are.
pub fn put_schedule(out: &mut [u8], log: &[u8]) -> usize
    requires { pairs_in log.now ≤ length out.old }
    ensures put { Put out.old 0 (workers_in log.now) out.new result }
    ensures upper_bound { result ≤ length out.new }
{
    let mut schedule = Writer::new(out);
    for pair in log.chunks_exact(2) {
        schedule.put_byte(pair[0]);
    }
    schedule.at
}
