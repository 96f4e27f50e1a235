//! The network takes the nodes between the open steps.
ghost use Rattle.std.specs.Prelude.{◌≡◌, ℕ, ◌+◌, ◌≤◌, ◌<◌, ◌^◌, IfOk, length, map, slice_index};
ghost use Rattle.flow_model.specs.Instances.{IsInstance, load_at};
ghost use Rattle.flow_sparse.specs.Loads.{AreBalanced, HaveLoads};
ghost use Rattle.flow_sparse.specs.Contractions.{AreOpen, HasNodes, IsNumbering, IsSized, IsSlack, between, contracted, AreFallsOfOpen};
ghost use Rattle.flow_sparse.specs.States.{IsHigh, IsReady};

use crate::loads::balance;
use crate::network::Network;
use crate::numbering::{contract, write_potentials};
use bound_base::NoMemory;
use flow_model::Instance;
use std::alloc::Global;

impl Network {
    // Takes the arcs between the nodes.
    fn set_arcs(&mut self, instance: &Instance, nodes: &[u32])
        requires each_time { length nodes.now ≡ instance.now.steps + 1 }
        requires each_arc { length self.old.instance.arcs ≡ length instance.now.arcs }
        ensures { self.new ≡ record self.old { instance = record self.old.instance { arcs = map (between nodes.now) instance.now.arcs } } }
    {
        contract(instance, nodes, &mut self.arcs);
    }

    // Takes this many steps.
    fn set_steps(&mut self, count: u32)
        ensures { self.new ≡ record self.old { instance = record self.old.instance { steps = count } } }
    {
        self.count = count;
    }

    // Makes the price of each open step the fall of the potential over it.
    fn set_potentials(&mut self, steps_of: &[u32], prices: &[u128])
        requires few { self.old.instance.steps ≤ 2 ^ 25 }
        requires each_node { self.old.instance.steps < length self.old.potentials }
        requires each_step { self.old.instance.steps ≤ length steps_of.now }
        requires within { (k : ℕ) → k < self.old.instance.steps → slice_index steps_of.now k < length prices.now }
        requires small { (t : ℕ) → t < length prices.now → slice_index prices.now t ≤ 2 ^ 97 }
        ensures rest { self.new ≡ record self.old { potentials = self.new.potentials } }
        ensures last { slice_index self.new.potentials self.old.instance.steps ≡ 2 ^ 123 }
        ensures falls { AreFallsOfOpen self.old.instance.steps steps_of.now prices.now self.new.potentials }
        ensures each { length self.new.potentials ≡ length self.old.potentials }
    {
        write_potentials(self.count, steps_of, prices, &mut self.potentials);
    }

    // Balances the loads of the open steps.
    fn set_balance(&mut self, steps_of: &[u32], loads: &[u128], prices: &[u128])
        requires few { self.old.instance.steps ≤ 2 ^ 25 }
        requires units { self.old.instance.units ≤ 2 ^ 56 }
        requires each_step { (self.old.instance.steps ≤ length steps_of.now) × (self.old.instance.steps ≤ length self.old.flows.inner) }
        requires each_node { (self.old.instance.steps < length self.old.excess) × (self.old.instance.steps < length self.old.deficit) }
        requires within { HaveLoads self.old.instance.steps steps_of.now loads.now prices.now }
        requires small { (k : ℕ) → k < self.old.instance.steps → slice_index loads.now (slice_index steps_of.now k) ≤ 2 ^ 74 }
        ensures rest { self.new ≡ record self.old { flows = record self.old.flows { inner = self.new.flows.inner }; excess = self.new.excess; deficit = self.new.deficit } }
        ensures balanced { AreBalanced self.old.instance.steps self.old.instance.units steps_of.now loads.now prices.now self.new.flows.inner self.new.excess self.new.deficit }
        ensures inner { length self.new.flows.inner ≡ length self.old.flows.inner }
        ensures excess { length self.new.excess ≡ length self.old.excess }
        ensures deficit { length self.new.deficit ≡ length self.old.deficit }
    {
        balance(
            self.count,
            self.units,
            steps_of,
            loads,
            prices,
            &mut self.inner,
            &mut self.excess,
            &mut self.deficit,
        );
    }

    /// Takes room for this many open steps.
    pub fn make_room(&mut self, alloc: Global, count: u32) -> Result<(), NoMemory>
        requires { count ≤ 2 ^ 25 }
        ensures instance { IfOk result (λ done. self.new.instance ≡ self.old.instance) }
        ensures outer { IfOk result (λ done. self.new.flows.outer ≡ self.old.flows.outer) }
        ensures nodes { IfOk result (λ done. HasNodes count self.new) }
    {
        let steps = count as usize;
        self.inner = vec![in alloc; 0; steps]?;
        self.potentials = vec![in alloc; 0; steps + 1]?;
        self.excess = vec![in alloc; 0; steps + 1]?;
        self.deficit = vec![in alloc; 0; steps + 1]?;
        Ok(())
    }

    /// Lets this many steps be open, and numbers them: takes the arcs between the nodes, the potentials that the prices are
    /// the falls of, and the excess and the deficit that the loads leave.
    pub fn open(
        &mut self,
        instance: &Instance,
        opens: &[bool],
        loads: &[u128],
        prices: &[u128],
        nodes: &[u32],
        steps_of: &[u32],
        count: u32,
    )
        requires fits { IsInstance instance.now }
        requires sized { IsSized instance.now self.old }
        requires room { HasNodes count self.old }
        requires slack { IsSlack instance.now prices.now self.old.flows.outer }
        requires opens { (length opens.now ≡ instance.now.steps) × AreOpen opens.now prices.now }
        requires small { (t : ℕ) → t < instance.now.steps → slice_index prices.now t ≤ 2 ^ 97 }
        requires each_load { instance.now.steps ≤ length loads.now }
        requires loads { (t : ℕ) → t < instance.now.steps → slice_index loads.now t ≡ load_at instance.now.arcs self.old.flows.outer t }
        requires numbers { IsNumbering instance.now.steps opens.now nodes.now steps_of.now count }
        requires each_time { length nodes.now ≡ instance.now.steps + 1 }
        requires each_step { instance.now.steps ≤ length steps_of.now }
        ensures ready { IsReady self.new }
        ensures high { IsHigh self.new }
        ensures same { self.new.instance ≡ contracted instance.now nodes.now count }
        ensures sized { IsSized instance.now self.new }
        ensures room { HasNodes count self.new }
    {
        self.set_arcs(instance, nodes);
        self.set_steps(count);
        self.set_potentials(steps_of, prices);
        self.set_balance(steps_of, loads, prices);
    }
}
