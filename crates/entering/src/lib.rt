// A save enters the queues of its sheets at a node: the first sheet where its check fails.
#![tactic(auto)]

ghost use Rattle.std.specs.Prelude.{◌+◌, ◌*◌, ◌≤◌, ◌<◌, ◌≡◌, ◌&&◌, ◌||◌, length, get_or, eqb};
ghost use Rattle.rules.specs.Table.{any};
ghost use Rattle.sets.specs.Bit.{bit, word, stride, blocks};
ghost use Rattle.sets.specs.Loop.{of_block, Inside};
ghost use Rattle.state.specs.View.{rows, CLAIM, CLAIM_X, COPIED, HELD, OWNED, QUEUE};
ghost use Rattle.state.specs.Fit.{Table, Ends};
ghost use Rattle.state.specs.Lent.{saving, Only};
ghost use Rattle.state.specs.Stored.{Stored};
ghost use Rattle.entering.specs.Enter.{Entered, is_behind, late, first_of, Rowing};

use state::Session;

fn wide(x: u16) -> u32
    ensures { result ≡ x }
{
    x as u32
}

// Save t has a copy of sheet k, or not; its WCT is below the sheet's.
fn behind(x: &Session, t: usize, k: usize, copied: bool) -> bool
    requires { Table 32 x.now.m x.now.seen.now × Table 2 x.now.m x.now.sheets.now × (x.now.m < 65536) × (t < 32) × (k < x.now.m) }
    ensures { result ≡ is_behind x.now.m x.now.seen.now x.now.sheets.now t copied k }
{
    (wide(x.seen[t * x.m + k]) < x.sheets[x.m + k]) & copied
}

// Save t enters sheet k's queue, with an X or not: the queue held an X.
fn enter_sheet(q: &mut [u64], k: usize, t: usize, x: bool) -> bool
    requires { (QUEUE + 2 * k + 1 < length q.old) × (k < 65536) × (t < 32) }
    ensures entered { (m : _) → Entered m t (λ i. eqb i k) (λ i. eqb i k && x) q.old q.new }
    ensures held { result ≡ any 64 (bit (get_or q.old (QUEUE + 2 * k + 1) 0)) }
{
    let xs = q[Session::QUEUE + 2 * k + 1];
    q[Session::QUEUE + 2 * k] = sets::with(q[Session::QUEUE + 2 * k], t);
    q[Session::QUEUE + 2 * k + 1] = sets::with_if(xs, t, x);
    sets::some(xs)
}

// Save t enters the queues of the sheets `ours` of block j: those where it fails.
fn enter_block(x: &mut Session, t: usize, j: usize, ours: u64) -> u64
    requires { (rows + stride * j ≤ length x.old.sets.now) × (QUEUE + 2 * x.old.m ≤ length x.old.queues.now) × Table 32 x.old.m x.old.seen.now
        × Table 2 x.old.m x.old.sheets.now × (x.old.m < 65536) × (t < 32) × Inside x.old.m j ours }
    ensures entered { Entered x.old.m t (of_block j (bit ours)) (of_block j (λ i. bit ours i && bit (word x.old.sets.now (CLAIM_X + t) j) i))
        x.old.queues.now x.new.queues.now }
    ensures late { (i : _) → bit result i ≡ (bit ours i && late x.old.m x.old.queues.now x.old.seen.now x.old.sheets.now t
        (bit (word x.old.sets.now (COPIED + t) j) i) (64 * j + i)) }
    ensures only { Only (saving x.old.bytes.now x.old.sets.now x.new.queues.now) x.old x.new }
{
    let sets = &mut *x.sets;
    let xs = state::word(sets, Session::CLAIM_X + t, j);
    let copied = state::word(sets, Session::COPIED + t, j);
    let mut fails: u64 = 0;
    let mut left = ours;
    // Kept: no index is counted; as in `leaving::leave_block`.
    while left != 0 {
        let i = sets::lowest(left);
        let k = 64 * j + i;
        let held = enter_sheet(x.queues, k, t, sets::has(xs, i));
        let late = behind(x, t, k, sets::has(copied, i));
        fails = sets::with_if(fails, i, held | late);
        left = sets::rest(left);
    }
    fails
}

// The sheets of block j that save t claims and node n owns.
fn ours_in(s: &[u64], n: usize, t: usize, j: usize) -> u64
    requires { (rows + stride * j ≤ length s.now) × (n < 8) × (t < 32) }
    ensures { (c : _) → bit result c ≡ (bit (word s.now (CLAIM + t) j) c && bit (word s.now (OWNED + n) j) c) }
{
    sets::both(
        state::word(s, Session::CLAIM + t, j),
        state::word(s, Session::OWNED + n, j),
    )
}

// Save t has entries at the sheets `ours` of block j too.
fn hold(s: &mut [u64], t: usize, j: usize, ours: u64)
    requires { (rows + stride * j ≤ length s.old) × (t < 32) }
    ensures { Stored (HELD + t + stride * j) (λ c. bit (word s.old (HELD + t) j) c || bit ours c) s.old s.new }
{
    let h = state::word(s, Session::HELD + t, j);
    state::set_word(s, Session::HELD + t, j, sets::either(h, ours));
}

// The first sheet of block j that fails.
fn first_in(j: usize, fails: u64) -> Option<usize>
    requires { j < 1024 }
    ensures { result ≡ first_of j fails }
{
    if fails == 0 {
        return None;
    }
    Some(64 * j + sets::lowest(fails))
}

// Save t enters the queues of its sheets at node n: the first where it fails.
pub fn enter(x: &mut Session, n: usize, t: usize) -> Option<usize>
    requires { (stride * blocks x.old.m + rows ≤ length x.old.sets.now + stride) × (QUEUE + 2 * x.old.m ≤ length x.old.queues.now)
        × Table 32 x.old.m x.old.seen.now × Table 2 x.old.m x.old.sheets.now × (x.old.m < 65536) × (n < 8) × (t < 32) × Ends x.old.m x.old.sets.now }
    ensures rowing { Rowing x.old.m n t x.old.seen.now x.old.sheets.now x.old.sets.now x.new.sets.now x.old.queues.now x.new.queues.now
        result (blocks x.old.m) }
    ensures only { Only (saving x.old.bytes.now x.new.sets.now x.new.queues.now) x.old x.new }
{
    let mut first = None;
    for j in 0..state::blocks(x.m) {
        let sets = &mut *x.sets;
        let ours = ours_in(sets, n, t, j);
        if ours != 0 {
            hold(x.sets, t, j, ours);
            let fails = enter_block(x, t, j, ours);
            first = first.or(first_in(j, fails));
        }
    }
    first
}
