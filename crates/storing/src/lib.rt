// The sheets of a node receive what a save wrote, and their WCTs rise where a content changes.
#![tactic(auto)]

ghost use Rattle.std.specs.Prelude.{◌+◌, ◌*◌, ◌≤◌, ◌<◌, ◌&&◌, length, eqb};
ghost use Rattle.sets.specs.Bit.{bit, in_row, stride, blocks};
ghost use Rattle.sets.specs.Loop.{of_block, Inside};
ghost use Rattle.state.specs.View.{part, rows, OWNED, WRITTEN};
ghost use Rattle.state.specs.Fit.{Ends, Table, Rising};
ghost use Rattle.storing.specs.Carry.{Received, RisingIn};

use state::Session;

// Sheet k receives save t's content, and its WCT has its mark added: 1, if the content changes.
fn store_sheet(value: &[u32], w: &mut [u32], m: usize, t: usize, k: usize)
    requires { Table 32 m value.now × Table 2 m w.old × (m < 65536) × (t < 32) × (k < m) × (part m m w.old k < 65535) }
    ensures { Received m t value.now (λ i. eqb i k) w.old w.new }
{
    let v = state::cell(value, m, t, k);
    w[m + k] += u32::from(w[k] != v);
    w[k] = v;
}

// The sheets `ours` of block j receive save t's contents.
fn store_block(value: &[u32], w: &mut [u32], m: usize, t: usize, j: usize, ours: u64)
    requires { Table 32 m value.now × Table 2 m w.old × (m < 65536) × (t < 32) × (j < blocks m) × Inside m j ours × RisingIn m j w.old }
    ensures { Received m t value.now (of_block j (bit ours)) w.old w.new }
{
    for i in sets::members(ours) {
        store_sheet(value, w, m, t, 64 * j + i);
    }
}

// The sheets of node n that save t wrote receive its contents. Three tables and not the session: two of them stay.
pub fn carry_out(s: &[u64], value: &[u32], w: &mut [u32], m: usize, n: usize, t: usize)
    requires { (stride * blocks m + rows ≤ length s.now + stride) × Table 32 m value.now × Table 2 m w.old × (m < 65536) × (n < 8) × (t < 32)
        × Ends m s.now × Rising m w.old }
    ensures { Received m t value.now (λ k. in_row s.now (OWNED + n) k && in_row s.now (WRITTEN + t) k) w.old w.new }
{
    for j in 0..state::blocks(m) {
        let owned = state::word(s, Session::OWNED + n, j);
        let ours = sets::both(owned, state::word(s, Session::WRITTEN + t, j));
        store_block(value, w, m, t, j, ours);
    }
}
