//! What an exploration gives.

ghost use Rattle.std.specs.Prelude.{◌≡◌, ◌<◌, Some, length, map, slice_get};
ghost use Rattle.std.specs.Arc.{arc_value};

use kn_node::Config;
use std::alloc::Global;
use std::marker::Model;
use std::sync::Arc;

/// One state for each node, at the last tick. Scenarios share the states that no branch told apart.
#[derive(Debug, Drop)]
pub struct Scenario {
    pub nodes: Vec<Arc<Config, Global>>,
}

impl Model for Scenario {
    ghost use Rattle.std.specs.Prelude.{List, map};
    ghost use Rattle.std.specs.Arc.{arc_value};
    ghost use Rattle.kn_node.specs.Views.{ConfigView};

    ghost Value = { List ConfigView };

    ghost view = { λ s. map arc_value s.nodes.items };
}

impl Scenario {
    /// How many nodes there are.
    pub fn len(&self) -> usize
        ensures { result ≡ length self.now }
    {
        self.nodes.len()
    }

    /// The state of a node.
    pub fn config(&self, node: usize) -> &Config
        requires { node < length self.now }
        ensures { slice_get self.now node ≡ Some result.now }
    {
        &self.nodes[node]
    }
}

/// The scenarios of copying on branch at the last tick, in the order of their names.
#[derive(Debug, Drop)]
pub struct CobRun {
    pub scenarios: Vec<Scenario>,
}

impl Model for CobRun {
    ghost use Rattle.std.specs.Prelude.{List};
    ghost use Rattle.kn_node.specs.Views.{ConfigView};

    ghost Value = { List (List ConfigView) };

    ghost view = { λ r. r.scenarios.items };
}
