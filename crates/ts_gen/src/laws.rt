// The law that the bytes of a workload are its requests.
ghost use Rattle.std.specs.Prelude.{◌≡◌, ◌≤◌, ℕ};
ghost use Rattle.ts_spec.specs.Limits.{usual};
ghost use Rattle.ts_spec.specs.Wire.{Ended, stream_at, requests_of, ending_of};
ghost use Rattle.ts_gen.specs.Workload.{script, workload};

use ts_spec::{Limits, encoded_requests_read_back};

/// A law: under the usual limits, the bytes of a workload parse as its requests and end between two of them.
pub fn a_workload_reads_back()
    ensures requests { (seed n : ℕ) → n ≤ 1000000
        → requests_of (stream_at usual.wire 0 (script seed n)) ≡ workload seed n }
    ensures ending { (seed n : ℕ) → n ≤ 1000000
        → ending_of (stream_at usual.wire 0 (script seed n)) ≡ Ended }
{
    encoded_requests_read_back(Limits::usual().wire);
}
