// Counting through the rules in the order of their indices: symbols fastest, then classes, then states. Nothing is divided.
ghost use Rattle.std.specs.Prelude.{◌≡◌, ◌<◌};
ghost use Rattle.image.specs.Code.Counting.{first_selector, next_selector, CountsOn};

use crate::Selector;

impl Selector {
    // What selects the rule with index 0.
    pub fn first() -> Selector
        ensures { result ≡ first_selector }
    {
        Selector {
            state: 0,
            class: 0,
            symbol: 0,
        }
    }

    // What selects the rule after this one; columns are the classes with the two markers.
    #[tactic(auto, unfolding(crate::specs::Code::Counting::next_selector))]
    pub fn next(self, columns: u32, symbols: u32) -> Selector
        requires { CountsOn self columns symbols }
        ensures { result ≡ next_selector self columns symbols }
    {
        if self.symbol + 1 < symbols {
            return Selector {
                symbol: self.symbol + 1,
                ..self
            };
        }
        if self.class + 1 < columns {
            return Selector {
                class: self.class + 1,
                symbol: 0,
                ..self
            };
        }
        Selector {
            state: self.state + 1,
            ..Selector::first()
        }
    }
}
