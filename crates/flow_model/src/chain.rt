//! A chain of steps with arcs over it.
ghost use Rattle.std.specs.Prelude.{◌≡◌, IfOk};
ghost use Rattle.flow_model.specs.Instances.{IsInstance};

use crate::arcs::OuterArc;
use bound_base::NoMemory;
use std::alloc::Global;
use std::marker::Model;

/// A chain of steps with room for this many units over each, and arcs over it, whose flows earn their costs.
#[derive(Debug, Drop)]
pub struct Instance {
    steps: u32,
    units: u64,
    arcs: Vec<OuterArc>,
}

impl Model for Instance {
    ghost use Rattle.flow_model.specs.Instances.{Instance as Chain, IsInstance};

    ghost Value = { Chain };

    ghost view = { λ i. record { steps = i.steps; units = i.units; arcs = i.arcs.items } };

    ghost invariant = { λ i. IsInstance (record { steps = i.steps; units = i.units; arcs = i.arcs.items }) };
}

impl Instance {
    /// The instance that has these arcs.
    pub fn new(steps: u32, units: u64, arcs: Vec<OuterArc>) -> Instance
        requires { IsInstance (record { steps = steps; units = units; arcs = arcs.items }) }
        ensures { result ≡ record { steps = steps; units = units; arcs = arcs.items } }
    {
        Instance { steps, units, arcs }
    }

    /// The instance of the arcs, which are copied: 32 bytes for each.
    pub fn from_arcs(
        alloc: Global,
        steps: u32,
        units: u64,
        arcs: &[OuterArc],
    ) -> Result<Instance, NoMemory>
        requires { IsInstance (record { steps = steps; units = units; arcs = arcs.now }) }
        ensures { IfOk result (λ i. i ≡ record { steps = steps; units = units; arcs = arcs.now }) }
    {
        let arcs = arcs.to_vec(alloc)?;
        Ok(Instance { steps, units, arcs })
    }

    /// How many steps there are.
    pub fn steps(&self) -> u32
        ensures { result ≡ self.now.steps }
    {
        self.steps
    }

    /// The room over each step.
    pub fn units(&self) -> u64
        ensures { result ≡ self.now.units }
    {
        self.units
    }

    /// The arcs in their order, and that all numbers of the instance are in their ranges.
    pub fn arcs(&self) -> &[OuterArc]
        ensures arcs { result.now ≡ self.now.arcs }
        ensures in_range { IsInstance self.now }
    {
        &self.arcs
    }
}
