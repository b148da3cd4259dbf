// Many questions of one curve in one call: each has its own place in a lent slice of numbers, and its refusal in one of refusals.
#![tactic(auto)]

ghost use Rattle.std.specs.Prelude.{◌≡◌, [], ◌∷◌};
ghost use Rattle.refusal.specs.Refusals.{first_of, verdict};
ghost use Rattle.many.specs.Many.{room_row};

use refusal::Refusal;

// Whether two slices, of these lengths, have room for the answers to count questions, w numbers each, and for their refusals. The product of
// the two may be past what a usize holds, so it is not taken.
pub fn room(count: usize, w: usize, out: usize, refusals: usize) -> Result<(), Refusal>
    ensures { verdict result ≡ first_of (room_row count w out refusals ∷ []) }
{
    if refusals < count {
        return Err(Refusal::ShortSlice);
    }
    if w > 0 && out / w < count {
        return Err(Refusal::ShortSlice);
    }
    Ok(())
}
