// Laws of demands. Each holds of all of them, so that nothing runs.
ghost use Rattle.std.specs.Prelude.{◌≡◌, ◌≢◌, ◌⊎◌, ℕ, ◌+◌, ◌<◌, List, length};
ghost use Rattle.bt_frame.specs.declared.numbers.BeamNo.{BeamNo};
ghost use Rattle.bt_frame.specs.declared.numbers.TermNo.{TermNo};
ghost use Rattle.bt_matrix.specs.Traffic.{entry, with_entry};
ghost use Rattle.bt_net.specs.Network.{Net};
ghost use Rattle.bt_demand.specs.declared.demand.Link.{Link};
ghost use Rattle.bt_demand.specs.Demand.{units_of, Gains, IsDemand};
ghost use Rattle.bt_demand.specs.Traffic.{matrix_of};
ghost use Rattle.bt_net.specs.Terminals.{IsInBeam};

/// Demands that give each link the same slots are the same.
pub fn links_tell_demands()
    ensures same { (a b : List Link) → IsDemand a → IsDemand b
        → ((from to : TermNo) → units_of a from to ≡ units_of b from to) → a ≡ b }
{}

/// The link that gained has so many slots more, and each other link has as many as before.
pub fn gain_changes_one_link()
    ensures link { (old new : List Link) (from to : TermNo) (units : ℕ) → Gains old new from to units
        → units_of new from to ≡ units_of old from to + units }
    ensures others { (old new : List Link) (from to : TermNo) (units : ℕ) → Gains old new from to units
        → (a b : TermNo) → (a.0 ≢ from.0) ⊎ (b.0 ≢ to.0) → units_of new a b ≡ units_of old a b }
{}

/// Where a link gains, so does the entry of its beams in the traffic matrix, and all other entries stay.
pub fn gain_adds_to_one_entry()
    ensures matrix { (net : Net) (old new : List Link) (from to : TermNo) (units : ℕ) (up down : BeamNo)
        → Gains old new from to units → IsInBeam net from up → IsInBeam net to down
        → up.0 < length net.beams → down.0 < length net.beams
        → matrix_of net new
        ≡ with_entry (matrix_of net old) up.0 down.0 (entry (matrix_of net old) up.0 down.0 + units) }
{}
