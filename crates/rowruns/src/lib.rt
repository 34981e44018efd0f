// The author's cell numbers in the run rows become rows, when all declarations are noted. It promises each row's first word, and that
// nothing else is changed. Resolving, with the definitions of it, stands below; the last step of reading above.
#![tactic(auto)]

ghost use Rattle.std.specs.Prelude.{◌≡◌};
ghost use Rattle.resolving.specs.Resolving.{row_word, RunsNumbered, RowsRuns};

use words::word_at;

// What begins a run row once its author's number is a row; a constant begins with 0 and has none.
fn row_word(map: &[u32], head: u32) -> u32
    ensures { result ≡ row_word map.now head }
{
    if head == 0 {
        return 0;
    }
    word_at(map, (head - 1) as usize)
}

// The author's cell numbers in the first n run rows become rows.
pub fn row_runs(map: &[u32], runs: &mut [u32], n: usize)
    requires { RunsNumbered runs.old n }
    ensures { RowsRuns map.now n runs.old runs.new }
{
    for i in 0..n {
        let k = i * 3;
        let head = row_word(map, runs[k]);
        runs[k] = head;
    }
}
