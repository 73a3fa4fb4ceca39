// The rows of the bench table that are proved, as one statement.
#![tactic(auto)]

ghost use Rattle.std.specs.Prelude.{◌≡◌};
ghost use Rattle.bench_rows.specs.BenchTable.{BenchTable, proved_bench_row_count};

// How many rows are proved.
pub const ROWS: usize = 9;

// How many rows are proved; that they hold is in the promise.
pub fn proved_bench_row_count() -> usize
    ensures { (result ≡ proved_bench_row_count) × BenchTable }
{
    ROWS
}
