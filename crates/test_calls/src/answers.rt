// Answers as numbers, by which C gets them.
ghost use Rattle.std.specs.Prelude.{◌≡◌, [], ◌∷◌, MatchResult};
ghost use Rattle.sheet_walk.specs.Refusals.{refusal_number, refusal_place};
ghost use Rattle.sheet_walk.specs.Answers.{answer_number, answer_place, answer_records, answer_starred};

use sheet_walk::{Counts, Refusal};

// Number, 0 where accepted, and place. A cast, as std has no `From` from u64 to usize.
pub fn check_numbers<T: Drop, E: Into<Refusal>>(check: Result<T, E>) -> [usize; 2]
    ensures { MatchResult check (λ _. result ≡ 0 ∷ 0 ∷ []) (λ why. (refusal : _) × E.converts why refusal × (result ≡ refusal_number refusal ∷ refusal_place refusal ∷ [])) }
{
    match check {
        Ok(_) => [0, 0],
        Err(why) => {
            let refusal = why.into();
            [refusal.number() as usize, refusal.place()]
        }
    }
}

// Number, place, records, starred.
pub fn answer_numbers(answer: Result<Counts, Refusal>) -> [usize; 4]
    ensures { result ≡ answer_number answer ∷ answer_place answer ∷ answer_records answer ∷ answer_starred answer ∷ [] }
{
    let [number, place] = check_numbers(answer);
    let none = Counts {
        records: 0,
        starred: 0,
    };
    let Counts { records, starred } = answer.unwrap_or(none);
    [number, place, records, starred]
}
