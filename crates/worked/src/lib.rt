// Worked programs, walked by the definitions that the contracts of the calls cite.
#![tactic(auto)]

ghost use Rattle.std.specs.Prelude.{◌≡◌};
ghost use Rattle.worked.specs.Programs.{Programs};

// Answers how many worked programs stand.
pub fn programs_stand() -> u8
    ensures { (result ≡ 9) × (Programs) }
{
    9
}
