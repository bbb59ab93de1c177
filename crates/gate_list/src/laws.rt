// The laws of gate lists, shown of the definitions that the contracts cite.
ghost use Rattle.std.specs.Prelude.{◌≡◌};
ghost use Rattle.gate_list.specs.Laws.{Laws};

// Answers how many laws stand.
pub fn laws_stand() -> u8
    ensures { (result ≡ 2) × (Laws) }
{
    2
}
