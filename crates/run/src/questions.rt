// What can be asked of a run at any time.
ghost use Rattle.std.specs.Prelude.{◌≡◌};
ghost use Rattle.run.specs.Answers.{place_of};
ghost use Rattle.run.specs.Calls.{all_home};

use crate::run::Run;
use basics::numbers::Wire;
use basics::refusal::Refusal;
use derivation::rows::Place;

impl Run {
    // The place of a wire's token.
    pub fn place(&self, w: Wire) -> Result<Place, Refusal>
        ensures { result ≡ place_of self.now.books.places.items w.0 }
    {
        self.books
            .places
            .get(w.0 as usize)
            .copied()
            .ok_or(Refusal::NoSuchWire(w))
    }

    // The moves since open.
    pub fn moves(&self) -> u32
        ensures { result ≡ self.now.moves }
    {
        self.moves
    }

    // Whether all tokens are home: none is left that can move.
    pub fn is_home(&self) -> bool
        ensures { result ≡ all_home self.now.machine.types.items self.now.machine.rows.items self.now.books.places.items }
    {
        self.books.ready == 0
    }
}
