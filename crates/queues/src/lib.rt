// The front of a queue. A queue is a set of saves, and each save has the set of those placed before it, so that no test walks over places.
#![tactic(auto)]

ghost use Rattle.std.specs.Prelude.{◌+◌, ◌*◌, ◌≤◌, ◌<◌, ◌≡◌, true, ◌≢◌, length};
ghost use Rattle.sets.specs.Bit.{bit};
ghost use Rattle.state.specs.View.{QUEUE, queue_of, queue_x_of, queued, queued_x};
ghost use Rattle.queues.specs.Front.{Ranked, Front, fronted};

use state::Session;

// The one of the saves x that has none of them before it: from any of them on to one before it, as long as there is one.
pub fn front(q: &[u64], x: u64) -> usize
    requires { (QUEUE ≤ length q.now) × (x ≢ 0) × Ranked q.now x }
    ensures { Front q.now x result }
{
    let mut u = sets::lowest(x);
    let mut left = sets::both(x, q[Session::BEFORE + u]);
    // Kept: it hops from a save to one before it; no index is counted.
    while left != 0 {
        u = sets::lowest(left);
        left = sets::both(left, q[Session::BEFORE + u]);
    }
    u
}

// Of the saves x, some one of y has none of x before it: the front one is of y.
pub fn front_is(q: &[u64], x: u64, y: u64) -> bool
    requires { (QUEUE ≤ length q.now) × Ranked q.now x × ((u : _) → bit y u ≡ true → bit x u ≡ true) }
    ensures { result ≡ fronted q.now x y }
{
    y != 0 && sets::has(y, front(q, x))
}

// The front entry of sheet k's queue is an X.
pub fn front_x(q: &[u64], m: usize, k: usize) -> bool
    requires { (QUEUE + 2 * m ≤ length q.now) × (m < 65536) × (k < m) × Ranked q.now (queue_of m q.now k)
        × ((u : _) → queued_x m q.now k u ≡ true → queued m q.now k u ≡ true) }
    ensures { result ≡ fronted q.now (queue_of m q.now k) (queue_x_of m q.now k) }
{
    let x = q[Session::QUEUE + 2 * k + 1];
    front_is(q, q[Session::QUEUE + 2 * k], x)
}
