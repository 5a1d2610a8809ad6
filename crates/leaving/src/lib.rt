// A save's entries go from the queues: at a node, by APPLY, or everywhere, by SUBMIT of a wide run.
#![tactic(auto)]

ghost use Rattle.std.specs.Prelude.{◌+◌, ◌*◌, ◌≤◌, ◌<◌, ◌&&◌, length, eqb};
ghost use Rattle.sets.specs.Bit.{bit, in_row, stride, blocks};
ghost use Rattle.sets.specs.Loop.{of_block, Inside};
ghost use Rattle.state.specs.View.{QUEUE, HELD, rows};
ghost use Rattle.state.specs.Fit.{Ends};
ghost use Rattle.leaving.specs.Left.{Gone, Left};

use state::Session;

// Save t leaves sheet k's queue.
fn leave_sheet(q: &mut [u64], m: usize, t: usize, k: usize)
    requires { (QUEUE + 2 * m ≤ length q.old) × (m < 65536) × (t < 32) × (k < m) }
    ensures { Gone m t (λ i. eqb i k) q.old q.new }
{
    let x = q[Session::QUEUE + 2 * k];
    let y = q[Session::QUEUE + 2 * k + 1];
    q[Session::QUEUE + 2 * k] = sets::without(x, t);
    q[Session::QUEUE + 2 * k + 1] = sets::without(y, t);
}

// Save t leaves the queues of the sheets `ours` of block j.
fn leave_block(q: &mut [u64], m: usize, t: usize, j: usize, ours: u64)
    requires { (QUEUE + 2 * m ≤ length q.old) × (m < 65536) × (t < 32) × (j < blocks m) × Inside m j ours }
    ensures { Gone m t (of_block j (bit ours)) q.old q.new }
{
    // Kept: by `sets::members` here READ and WRITE take a fifth more instructions in the state call, whose loop this is compiled into.
    let mut left = ours;
    while left != 0 {
        let k = 64 * j + sets::lowest(left);
        leave_sheet(q, m, t, k);
        left = sets::rest(left);
    }
}

// Save t's entries go at the sheets of row i.
pub fn leave(s: &mut [u64], q: &mut [u64], m: usize, t: usize, i: usize)
    requires { (stride * blocks m + rows ≤ length s.old + stride) × (QUEUE + 2 * m ≤ length q.old) × (m < 65536) × (t < 32) × (i < rows)
        × Ends m s.old }
    ensures { Left m t (λ k. in_row s.old (HELD + t) k && in_row s.old i k) s.old q.old s.new q.new }
{
    for j in 0..state::blocks(m) {
        let h = state::word(s, Session::HELD + t, j);
        let ours = sets::both(h, state::word(s, i, j));
        state::set_word(s, Session::HELD + t, j, sets::minus(h, ours));
        leave_block(q, m, t, j, ours);
    }
}
