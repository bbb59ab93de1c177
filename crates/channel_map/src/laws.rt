// The laws of channel maps, shown of the definitions that the contracts cite.
ghost use Rattle.std.specs.Prelude.{◌≡◌};
ghost use Rattle.channel_map.specs.Laws.{Laws};

// Answers how many laws stand.
pub fn laws_stand() -> u8
    ensures { (result ≡ 4) × (Laws) }
{
    4
}
