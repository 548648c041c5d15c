// The search for the best schedule for hosts that know no other types than numbers: its answer in numbers. The search itself is `best` of lists of numbers.
#![tactic(auto)]

ghost use Rattle.std.specs.Prelude.{◌≡◌};
ghost use Rattle.protocol_types.specs.SearchAnswers.{search_answer};
ghost use Rattle.host_best.specs.Numbers.{in_numbers};

use protocol_types::{BestSchedule, PlacedRefusal};

// An answer in numbers: the refusal number and its place, or 0 and 0; the schedule's length, its cost, the steps used, 1 where it is called least, and its excess, each 0 with a refusal.
#[derive(Clone, Copy)]
pub struct BestNumbers {
    pub refusal: u32,
    pub place: usize,
    pub length: usize,
    pub cost: u32,
    pub steps: u32,
    pub least: u32,
    pub excess: u32,
}

// The numbers of an answer.
pub fn in_numbers(answer: Result<BestSchedule, PlacedRefusal>) -> BestNumbers
    ensures { result ≡ in_numbers (search_answer answer) }
{
    match answer {
        Ok(best) => BestNumbers {
            refusal: 0,
            place: 0,
            length: best.length,
            cost: best.cost,
            steps: best.steps,
            least: u32::from(best.least),
            excess: best.excess,
        },
        Err(PlacedRefusal { refusal, place }) => BestNumbers {
            refusal: refusal.number(),
            place,
            length: 0,
            cost: 0,
            steps: 0,
            least: 0,
            excess: 0,
        },
    }
}
