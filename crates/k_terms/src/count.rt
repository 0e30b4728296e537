// Counting.
ghost use Rattle.std.specs.Prelude.{◌≡◌};
ghost use Rattle.k_terms.specs.Size.{codes_t};
ghost use Rattle.k_terms.specs.Counts.{code_node};
ghost use Rattle.k_terms.specs.Whole.{term_of};

use crate::node::KNode;
use crate::program::KProgram;

fn is_code(node: &KNode) -> bool
    ensures { result ≡ code_node node.now }
{
    match node {
        KNode::Code { .. } => true,
        _ => false,
    }
}

/// How many codes stand in a program.
pub fn codes(program: &KProgram) -> u64
    ensures { result ≡ codes_t (term_of program.now) }
{
    let mut count = 0;
    for node in program.nodes() {
        if is_code(node) {
            count += 1;
        }
    }
    count
}
