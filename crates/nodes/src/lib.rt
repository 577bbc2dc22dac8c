// The node list: a map from a state to what the search knows of it, in two lent lists of numbers. Node i stands at i * 8: the two
// halves of its state, its cost, the two halves of its parent, its step, the next of its bucket, and a spare. `heads` has a bucket
// at each place, and needs no clearing. There is no heap memory, so the caller lends the two lists. They stand apart: a
// struct of `&mut`s was tried in lists, and its contracts had to say more.
#![tactic(auto)]

ghost use Rattle.std.specs.Prelude.{◌≡◌, ℕ, ◌+◌, ◌*◌, ◌<◌, ◌≤◌, List, true, length, get_or};
ghost use Rattle.nodes.specs.Nodes.{Chained, bucket_of, node_of, rows, lookup, written, row_at, is_state, Wrote};

use window::PackedState;

// What the search knows of a state.
#[derive(Clone, Copy, PartialEq, Eq)]
pub struct Row {
    pub state: PackedState,
    pub cost: u64,
    pub parent: PackedState,
    pub step: u64,
}

// The bucket of a state, of m.
#[tactic(auto, unfolding(crate::specs::Nodes::bucket_of), using(crate::proofs::Lemmas::scaled_fits, crate::proofs::Lemmas::bucket_lt))]
fn bucket(state: PackedState, m: usize) -> usize
    ensures value { result ≡ bucket_of state m }
    ensures within { 0 < m → result < m }
{
    let a = (state.lo % 4294967296) * 2654435769;
    let b = (state.lo >> 32) * 2246822519;
    let c = (state.hi % 4294967296) * 3266489917;
    let d = (state.hi >> 32) * 668265263;
    let h = a ^ b ^ c ^ d;
    let k = (h ^ (h >> 32)) % 4294967296;
    let width = (m as u64).min(4294967295);
    ((k * width) >> 32) as usize
}

// Whether node i is of a state.
fn has_state(nodes: &[u64], i: usize, state: PackedState) -> bool
    requires { i * 8 + 8 ≤ length nodes.now }
    ensures { result ≡ is_state (row_at nodes.now i) state }
{
    nodes[i * 8] == state.hi && nodes[i * 8 + 1] == state.lo
}

// The node of a number, if it is one of the first n.
fn node_of(number: u64, n: usize) -> Option<usize>
    ensures { result ≡ node_of number n }
{
    let i = number as usize;
    (i < n).then_some(i)
}

// The newest node of a state's bucket, of the first n.
fn head(heads: &[u64], n: usize, state: PackedState) -> Option<usize>
    requires { 0 < length heads.now }
    ensures { result ≡ node_of (get_or heads.now (bucket_of state (length heads.now)) 0) n }
{
    node_of(heads[bucket(state, heads.len())], n)
}

// The node before node i in its bucket.
fn next(nodes: &[u64], i: usize) -> Option<usize>
    requires { i * 8 + 8 ≤ length nodes.now }
    ensures { result ≡ node_of (get_or nodes.now (i * 8 + 6) 0) i }
{
    node_of(nodes[i * 8 + 6], i)
}

// The cost of node i.
pub fn cost(nodes: &[u64], i: usize) -> u64
    requires { i * 8 + 8 ≤ length nodes.now }
    ensures { result ≡ (row_at nodes.now i).cost }
{
    nodes[i * 8 + 2]
}

// The whole of node i.
pub fn row_at(nodes: &[u64], i: usize) -> Row
    requires { i * 8 + 8 ≤ length nodes.now }
    ensures { result ≡ row_at nodes.now i }
{
    let at = i * 8;
    Row {
        state: PackedState {
            hi: nodes[at],
            lo: nodes[at + 1],
        },
        cost: nodes[at + 2],
        parent: PackedState {
            hi: nodes[at + 3],
            lo: nodes[at + 4],
        },
        step: nodes[at + 5],
    }
}

// The newest of the first n nodes that is of the state.
pub fn find(nodes: &[u64], heads: &[u64], n: usize, state: PackedState) -> Option<usize>
    requires { Chained nodes.now heads.now n }
    ensures { result ≡ lookup (rows nodes.now n) state }
{
    let mut cur = head(heads, n, state);
    while let Some(i) = cur {
        if has_state(nodes, i, state) {
            return cur;
        }
        cur = next(nodes, i);
    }
    None
}

// Writes a node at index i, and the next of its bucket.
fn put(nodes: &mut [u64], i: usize, node: Row, next: u64)
    requires { i * 8 + 8 ≤ length nodes.old }
    ensures { nodes.new ≡ written nodes.old (i * 8) node next }
{
    let at = i * 8;
    nodes[at] = node.state.hi;
    nodes[at + 1] = node.state.lo;
    nodes[at + 2] = node.cost;
    nodes[at + 3] = node.parent.hi;
    nodes[at + 4] = node.parent.lo;
    nodes[at + 5] = node.step;
    nodes[at + 6] = next;
}

// Appends a node, as the newest of its bucket.
pub fn insert(nodes: &mut [u64], heads: &mut [u64], n: usize, node: Row)
    requires chained { Chained nodes.old heads.old n }
    requires n_in_bounds { n * 8 + 8 ≤ length nodes.old }
    ensures chained_2 { Chained nodes.new heads.new (n + 1) }
    ensures wrote { Wrote nodes.old nodes.new n node }
{
    let b = bucket(node.state, heads.len());
    put(nodes, n, node, heads[b]);
    heads[b] = n as u64;
}

// Writes what is known now of the state that node i has.
pub fn update(nodes: &mut [u64], n: usize, i: usize, node: Row)
    requires n_in_bounds { n * 8 ≤ length nodes.old }
    requires i_lt_n { i < n }
    requires same_state { is_state (row_at nodes.old i) node.state ≡ true }
    ensures by_index { (hs : List ℕ) → Chained nodes.old hs n → Chained nodes.new hs n }
    ensures wrote { Wrote nodes.old nodes.new i node }
{
    let next = nodes[i * 8 + 6];
    put(nodes, i, node, next);
}
