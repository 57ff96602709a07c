// Refusal 9, on the letters of a product.
ghost use Rattle.std.specs.Prelude.{◌≡◌, length};
ghost use Rattle.multiply.specs.SlotLetters.{slot_rule};

use records::answers::{Refusal, check_that};
use records::record::word_in;
use records::refusals::Reason;
use systems::Factor;

// Refusal 9: every letter of a product names one of the first n slots.
pub fn check_slots(n: usize, product: &[u8; 64]) -> Result<(), Refusal>
    ensures { result ≡ slot_rule n product.now }
{
    for (i, letter) in word_in(product).iter().enumerate() {
        let checked = check_that(Factor::from(*letter).slot < n, Reason::SlotMissing, i);
        let Ok(()) = checked else {
            return checked;
        };
    }
    Ok(())
}
