// Laws of the machine that no other call carries.
ghost use Rattle.std.specs.Prelude.{◌≡◌};
ghost use Rattle.theory.specs.Examples.{Examples};
ghost use Rattle.theory.specs.Gates.{ActsAlike};

// Lists of gates that swaps of neighbours without a common wire turn into each other make the same of a state,
// whatever its type, where gates without a common wire can be exchanged. Answers how many laws stand here.
pub fn actions_agree<S>() -> u8
    ensures { (result ≡ 1) × (ActsAlike S) }
{
    1
}

// Answers how many facts of the worked derivations stand.
pub fn examples_stand() -> u8
    ensures { (result ≡ 7) × (Examples) }
{
    7
}
