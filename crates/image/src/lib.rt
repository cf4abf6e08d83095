// Images: a machine as bytes. Their format, what they say of one configuration, and counting through their rules.
#![tactic(auto)]

pub mod counting;
pub mod format;
pub mod lookup;

// The counts that every lookup needs: classes K, symbols G, tape places n + 2, and how many rules one state has, (K + 2) G.
// kept: no struct of image, capture and counts with their fact: the judge's record is made of counts alone (start_in), and would take such a struct apart and make it again in each step.
#[derive(Clone, Copy, Debug, PartialEq, Eq)]
pub struct Sizes {
    pub classes: u32,
    pub symbols: u32,
    pub places: u32,
    pub rules: u32,
}

// What selects a rule: state, class under the head, top symbol.
#[derive(Clone, Copy, Debug, PartialEq, Eq)]
pub struct Selector {
    pub state: u32,
    pub class: u32,
    pub symbol: u32,
}
