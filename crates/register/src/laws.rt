// The laws of the bit register, shown of the definitions that the contracts cite.
ghost use Rattle.std.specs.Prelude.{◌≡◌};
ghost use Rattle.register.specs.Laws.{Laws};

// Answers how many laws and worked examples stand.
pub fn laws_stand() -> u8
    ensures { (result ≡ 3) × (Laws) }
{
    3
}
