//! What a switch is made for.
use rp_race::RaceRules;

/// So many nodes, and the rules of their race.
#[derive(Drop)]
pub struct Terms {
    pub nodes: u8,
    pub rules: RaceRules,
}
