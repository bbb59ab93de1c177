// The worked derivations, shown of the definitions that the calls' contracts cite.
ghost use Rattle.std.specs.Prelude.{◌≡◌};
ghost use Rattle.derivation.specs.Examples.{Examples};

// Answers how many facts of the worked derivations stand.
pub fn examples_stand() -> u8
    ensures { (result ≡ 8) × (Examples) }
{
    8
}
