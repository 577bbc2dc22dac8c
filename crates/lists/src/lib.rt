// The node list and the open list as the search uses them. A node holds its parent; it goes to and from the numbers of a row by
// `From`, and nowhere else. The lent slices stand apart: tried in one struct of `&mut`s, and each contract on it had to say besides that
// each slice keeps its place and its length, which is known of a slice that is a parameter.
#![tactic(auto)]

ghost use Rattle.std.specs.Prelude.{◌≡◌, ℕ, ◌+◌, ◌-◌, ◌*◌, ◌<◌, ◌≤◌, length};
ghost use Rattle.std.specs.Option.{option_map};
ghost use Rattle.astar.specs.Search.{find as found};
ghost use Rattle.window.specs.State.{whole};
ghost use Rattle.lists.specs.View.{parent_of, parent_is, node_of, node_is, nodes_of, Kept, Piled, Sought, Stored, Pushed, Taken};

use costs::Step;
use heap::Entry;
use nodes::Row;
use window::PackedState;

// The step number of a row with no parent: no step's code. A number, since a row is numbers in a list that the caller lends.
const NO_STEP: u64 = 65536;

// What the search knows of a state. A cost is gas * 2^32 + bytes. The start has no parent; any other state was reached by a step from
// a state.
#[derive(Clone, Copy, PartialEq, Eq)]
pub struct Node {
    pub state: PackedState,
    pub cost: u64,
    pub parent: Option<(PackedState, Step)>,
}

// The parent of a row, if its step number is a step's code.
#[tactic(auto, unfolding(crate::specs::View::parent_of), using(crate::proofs::Rows::decoded_over))]
fn parent_of(row: Row) -> Option<(PackedState, Step)>
    ensures { parent_is result ≡ parent_of row.parent row.step }
{
    let code = u16::try_from(row.step).ok()?;
    let step = Step::try_from(code).ok()?;
    Some((row.parent, step))
}

// The node of a row.
impl From<Row> for Node {
    ghost from_gives = { λ row node. node_is node ≡ node_of row };

    fn from(row: Row) -> Node {
        Node {
            state: row.state,
            cost: row.cost,
            parent: parent_of(row),
        }
    }
}

// The row of a node.
impl From<Node> for Row {
    ghost from_gives = { λ node row. (node_of row ≡ node_is node) × (row.state ≡ node.state) };

    #[tactic(auto, unfolding(crate::specs::View::parent_of), using(crate::proofs::Rows::decoded_over))]
    fn from(node: Node) -> Row {
        let (parent, step) = match node.parent {
            Some((from, step)) => (from, u64::from(u16::from(step))),
            None => (PackedState { hi: 0, lo: 0 }, NO_STEP),
        };
        Row {
            state: node.state,
            cost: node.cost,
            parent,
            step,
        }
    }
}

// Where the state is among the first n nodes.
pub fn find(nodes: &[u64], heads: &[u64], n: usize, state: PackedState) -> Option<usize>
    requires { Kept nodes.now heads.now n }
    ensures { Sought nodes.now n state result }
{
    nodes::find(nodes, heads, n, state)
}

// What is known of the state among the first n nodes.
pub fn recall(nodes: &[u64], heads: &[u64], n: usize, state: PackedState) -> Option<Node>
    requires { Kept nodes.now heads.now n }
    ensures { option_map node_is result ≡ found (whole state) (nodes_of nodes.now n) }
{
    let i = find(nodes, heads, n, state)?;
    Some(Node::from(nodes::row_at(nodes, i)))
}

// Stores a node where its state was sought; the number of nodes then.
pub fn store(nodes: &mut [u64], heads: &mut [u64], n: usize, at: Option<usize>, node: Node) -> usize
    requires kept { Kept nodes.old heads.old n }
    requires n_in_bounds { n * 8 + 8 ≤ length nodes.old }
    requires sought { Sought nodes.old n node.state at }
    ensures { Stored nodes.old n (node_is node) nodes.new heads.new result }
{
    let row = Row::from(node);
    match at {
        Some(i) => {
            nodes::update(nodes, n, i, row);
            n
        }
        None => {
            nodes::insert(nodes, heads, n, row);
            n + 1
        }
    }
}

pub fn push(list: &mut [u64], m: usize, e: Entry<u64>)
    requires piled { Piled list.old m }
    requires m_in_bounds { m * 4 + 4 ≤ length list.old }
    ensures { Pushed list.old m e list.new }
{
    heap::push(list, m, e);
}

// Takes the least entry by f, then g, then the state.
pub fn take(list: &mut [u64], m: usize) -> Entry<u64>
    requires piled { Piled list.old m }
    requires m_nonzero { 0 < m }
    ensures { Taken list.old m result list.new (m - 1) }
{
    heap::take_least(list, m)
}
