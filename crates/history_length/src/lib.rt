//! The length of a history that is told beside a manifest.
#![tactic(auto)]

ghost use Rattle.std.specs.Prelude.{◌≡◌, ◌≤◌, IfSome, IfNone};

/// How many places a history has: 2 to 1,000,000.
#[derive(Clone, Copy, Debug, PartialEq, Eq)]
pub struct HistoryLength {
    places: u32,
    ghost within: { (2 ≤ places) × (places ≤ 1000000) },
}

impl HistoryLength {
    /// So many places, if a history may have them.
    pub fn new(places: u64) -> Option<HistoryLength>
        ensures some { IfSome result (λ length. length.places ≡ places) }
        ensures none { IfNone result ((2 ≤ places) × (places ≤ 1000000) → ⊥) }
    {
        match u32::try_from(places) {
            Ok(places) if places >= 2 && places <= 1_000_000 => Some(HistoryLength { places }),
            _ => None,
        }
    }

    /// How many places they are.
    pub fn places(self) -> u32
        ensures places { result ≡ self.places }
        ensures least { 2 ≤ result }
        ensures most { result ≤ 1000000 }
    {
        self.places
    }
}
