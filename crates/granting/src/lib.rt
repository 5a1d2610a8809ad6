// Whether a save can be decided: it was taken by every node that owns a claimed sheet, and its entries are granted.
#![tactic(auto)]

ghost use Rattle.std.specs.Prelude.{◌<◌, ◌≡◌};
ghost use Rattle.rules.specs.Table.{all};
ghost use Rattle.sets.specs.Bit.{bit, blocks};
ghost use Rattle.granting.specs.Granting.{Fits, in_ways, block_granted};

use state::Session;

// The saves with an entry, at a sheet of block j that save t claims, that would stand in its way: any does in an X's, an X does in an S's.
fn ways(s: &[u64], q: &[u64], m: usize, t: usize, j: usize) -> u64
    requires { Fits m t s.now q.now × (j < blocks m) }
    ensures { (u : _) → bit result u ≡ in_ways s.now q.now t j u }
{
    let xs = state::word(s, Session::CLAIM_X + t, j);
    let mut all: u64 = 0;
    for i in sets::members(state::word(s, Session::CLAIM + t, j)) {
        let k = 64 * j + i;
        let way = if sets::has(xs, i) {
            q[Session::QUEUE + 2 * k]
        } else {
            q[Session::QUEUE + 2 * k + 1]
        };
        all = sets::either(all, way);
    }
    all
}

// In block j save t has an entry at every sheet that it claims, and all of them are granted.
fn block_granted(s: &[u64], q: &[u64], m: usize, t: usize, j: usize) -> bool
    requires { Fits m t s.now q.now × (j < blocks m) }
    ensures { result ≡ block_granted s.now q.now t j }
{
    state::word(s, Session::HELD + t, j) == state::word(s, Session::CLAIM + t, j)
        && !sets::meet(ways(s, q, m, t, j), q[Session::BEFORE + t])
}

// Save t was taken by every node that owns a claimed sheet, and its entries are granted.
pub fn decidable(s: &[u64], q: &[u64], m: usize, t: usize) -> bool
    requires { Fits m t s.now q.now }
    ensures { result ≡ all (blocks m) (block_granted s.now q.now t) }
{
    (0..state::blocks(m)).all(|j| block_granted(s, q, m, t, j))
}
