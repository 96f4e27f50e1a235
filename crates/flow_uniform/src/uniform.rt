//! Whether all arcs that cost something cost the same.
ghost use Rattle.std.specs.Prelude.{◌≡◌, ℕ, ◌<◌, ◌≤◌, ◌↔◌, All, IfSome, IsNone, IsTrue, length};
ghost use Rattle.flow_model.specs.Instances.{arc_at};
ghost use Rattle.flow_uniform.specs.Uniform.{IsUniform};

use flow_model::{Instance, OuterArc};

// The greatest cost of an arc, or 0 if there is none.
fn greatest_cost(arcs: &[OuterArc]) -> u128
    ensures most { All (λ arc. arc.cost ≤ result) arcs.now }
    ensures of_one { 0 < result → (i : ℕ) × (i < length arcs.now) × ((arc_at arcs.now i).cost ≡ result) }
{
    let mut most = 0;
    for arc in arcs {
        if arc.cost > most {
            most = arc.cost;
        }
    }
    most
}

// Whether each arc costs nothing or that much.
fn is_uniform(arcs: &[OuterArc], cost: u128) -> bool
    ensures { IsTrue result ↔ IsUniform cost arcs.now }
{
    for arc in arcs {
        if arc.cost > 0 && arc.cost != cost {
            return false;
        }
    }
    true
}

/// The cost of all arcs that cost something, if they cost the same. It is 1 if no arc costs anything.
pub fn common_cost(instance: &Instance) -> Option<u128>
    ensures some { IfSome result (λ cost. 0 < cost) }
    ensures uniform { IfSome result (λ cost. IsUniform cost instance.now.arcs) }
    ensures differ { IsNone result → (cost : ℕ) → ¬ IsUniform cost instance.now.arcs }
{
    let cost = greatest_cost(instance.arcs()).max(1);
    if is_uniform(instance.arcs(), cost) {
        Some(cost)
    } else {
        None
    }
}
