// What stands in the places of a table of rules that are not taken yet.
ghost use Rattle.rules.specs.Rules.{rule_model};
ghost use Rattle.std.specs.Prelude.{◌≡◌, []};

use crate::Rule;
use table::Table;

impl Default for Rule {
    ghost is_default = { λ r. rule_model r ≡ record { symbol = 0; target = 0; weight = 0; children = [] } };

    fn default() -> Rule {
        Rule {
            symbol: 0,
            target: 0,
            weight: 0,
            children: Table::new(),
        }
    }
}
