//! What the words of the contracts mean.
ghost use Rattle.std.specs.Prelude.{◌≡◌, ◌<◌, List, Some, None};
ghost use Rattle.master_playlist.specs.Listed.{Listed};
ghost use Rattle.master_playlist.specs.declared.fault.MasterFault.{MasterFault};
ghost use Rattle.master_playlist.specs.Faults.{fault_of, number, Stands};

/// A fault is told exactly where it stands somewhere among the variants, and none with a lesser number does.
pub fn faults_are_the_least()
    ensures stands { (vs : List Listed) (fault : MasterFault) → fault_of vs ≡ Some fault → Stands fault vs }
    ensures least { (vs : List Listed) (fault lesser : MasterFault) → fault_of vs ≡ Some fault →
        number lesser < number fault → Stands lesser vs → ⊥ }
    ensures none { (vs : List Listed) (fault : MasterFault) → fault_of vs ≡ None → Stands fault vs → ⊥ }
{}
