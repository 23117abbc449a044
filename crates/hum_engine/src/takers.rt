//! Who takes from each link.
ghost use Rattle.std.specs.Prelude.{ℕ, IfOk};
ghost use Rattle.hum_engine.specs.Scene.{Scene, IsNetPlan, IsBegun, AreTakers};

use hum_nodes::Node;
use hum_stage::Stage;
use hum_text::calls::Source;
use std::alloc::{AllocError, Global};

/// Who takes from the link of each node: a node behind it or, from the last one's, the sink, whose
/// number is that of the nodes.
///
/// # Errors
/// Out of memory.
pub fn takers_of<S: Stage + Drop, R: Source + Drop>(
    alloc: Global,
    nodes: &Vec<Node<S, R>>,
) -> Result<Vec<usize>, AllocError>
    ensures { IfOk result (λ takers. (size : ℕ) (s : Scene) → IsNetPlan s.count s.kinds s.size
        → IsBegun S.Stage size nodes.now.items s → AreTakers s.count s.kinds takers.items) }
{
    let count = nodes.len();
    let mut takers = vec![in alloc; count; count]?;
    for k in 0..count {
        nodes[k].note_sources(k, &mut takers);
    }
    Ok(takers)
}
